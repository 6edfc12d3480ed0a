//! Why a time could not be read (RFC 5280 section 4.1.2.5).

use thiserror::Error;

/// What is wrong with a time, in the order in which it is tested.
#[derive(Clone, Copy, Debug, PartialEq, Eq, Error)]
pub enum TimeFault {
    /// The bytes aren't digits and `Z`, or no calendar and no clock show this.
    #[error("the bytes are no time")]
    BadTime,
    /// The time is before 2000.
    #[error("the time is before 2000")]
    TimeRange,
}
