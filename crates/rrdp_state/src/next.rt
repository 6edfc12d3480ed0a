//! The delta of an edition that comes next (RFC 8182 section 3.3.2).

use crate::text::FileText;

/// The delta that leads to a serial (RFC 8182 section 3.5.3). The first serial has none, and a delta with more
/// bytes than the snapshot beside it isn't named, so that there is none either.
#[derive(Debug, Drop)]
pub struct NextDelta {
    /// The serial of the edition, from 1.
    pub serial: u64,
    pub delta: Option<FileText>,
}
