//! The making of an edition's objects: keys, certificates, CRLs, ROAs and manifests, signed by the signers of a
//! ring, with the rows and the changes that they come to. The objects are those of RFC 6487, RFC 5280 section 5,
//! RFC 9582 and RFC 9286.
#![tactic(auto)]

mod counting;
mod edition_keys;
mod issued;
mod key_rows;
mod laws;
mod made;
mod making;
mod objects;
mod outcomes;
mod plans;
mod publishing;
mod standing;

pub use counting::signatures;
pub use issue_keys::MakeFault;
pub use key_rows::rows_after;
pub use laws::answers_determine_what_is_made;
pub use made::Made;
pub use making::make;
pub use publishing::{ChangesWithRows, Numbered, publish};
