//! Identifiers of keys (RFC 6487 section 4.8.2), and the URIs at which a repository's objects stand
//! (RFC 6481 section 2).
#![tactic(auto)]

mod identifier;
mod site;

pub use identifier::KeyId;
pub use site::{Site, SiteFault};
