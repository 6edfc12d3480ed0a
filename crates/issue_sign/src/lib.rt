//! The signing of an edition's objects by the signers of a ring (RFC 5280 sections 4.1 and 5.1, RFC
//! 6488 section 2).
#![tactic(auto)]

mod asking;
mod boxed;
mod firsts;
mod halves;
mod manifests;
mod object;
mod objects;
mod phases;
mod roas;
mod sign_input;
mod signed_bytes;
mod signed_objects;
mod signing;
mod steps;
mod values;

pub use boxed::Boxed;
pub use manifests::sign_manifests;
pub use object::Object;
pub use sign_input::SignInput;
pub use signing::sign_drafts;
