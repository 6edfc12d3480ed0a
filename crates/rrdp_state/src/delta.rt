//! A delta that is kept (RFC 8182 section 3.5.3).

use crate::text::FileText;

/// The delta that leads to a serial.
#[derive(Debug, Drop)]
pub struct Delta {
    /// The serial of the edition to which it leads (RFC 8182 section 3.5.3).
    pub serial: u64,
    pub text: FileText,
}
