//! What an edition knows of the keys of its authorities, what stands published, and the work of the next edition,
//! as plain types (RFC 6489 section 2).
#![tactic(auto)]

mod issued;
mod rows;
mod stages;
mod work;

pub use issued::{Issued, IssuedRow, What};
pub use rows::{KeyRow, RevokedRow, Role, is_role};
pub use stages::{Stage, StepEnd, step};
pub use work::{CertWork, KeyName, NewKey, PointWork, RoaWork, RoleWork, Work};
