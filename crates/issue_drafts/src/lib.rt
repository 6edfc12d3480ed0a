//! The objects of an edition before they are signed: where its keys publish (RFC 6481 section 2),
//! where each object is to stand, its issuer and serial (RFC 5280 section 4.1.2.2), and what each
//! publication point lists (RFC 9286 section 4.2.1).
#![tactic(auto)]

mod draft;
mod draft_input;
mod first_entries;
mod holdings;
mod issue_parts;
mod key_finder;
mod key_lookup;
mod key_publishers;
mod listing;
mod ordered;
mod placed_keys;
mod point_keys;
mod revoking;
mod serials;
mod touching;
mod work_drafts;

pub use draft::{Draft, DraftKind, KeyAt, ManifestDraft};
pub use draft_input::DraftInput;
pub use first_entries::first_of_each;
pub use issue_parts::IssueParts;
pub use key_finder::KeyFinder;
pub use key_publishers::{made_uri, name_of, publishers};
pub use listing::files;
pub use ordered::{drafts, manifest_drafts};
pub use point_keys::points;
pub use revoking::entries;
pub use serials::{Serials, give_serials};
pub use touching::Touched;
