//! The contents of ROAs (RFC 9582 section 4) and of manifests (RFC 9286 section 4.2), read and
//! written.
#![tactic(auto)]

mod entries;
mod families;
mod fault;
mod files;
mod manifest;
mod names;
mod order;
mod prefixes;
mod roa;
mod values;

pub use fault::BodyFault;
pub use manifest::ManifestBody;
pub use roa::RoaBody;
pub use values::{ListedFile, RoaEntry};
