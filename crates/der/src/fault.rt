//! Why an element could not be read (X.690 section 8.1).

use thiserror::Error;

/// What is wrong with an element: the first fault that is met, in the order of the variants, but that
/// `Truncated` comes as soon as the bytes that are wanted next aren't all there.
///
/// `at` is the offset, in the reader's slice, at which the element starts.
#[derive(Clone, Copy, Debug, PartialEq, Eq, Error)]
pub enum DerFault {
    /// No byte is left, or the header or the content isn't whole.
    #[error("the element at {at} isn't whole")]
    Truncated { at: u64 },
    /// Another tag stands there.
    #[error("the element at {at} has another tag")]
    BadTag { at: u64 },
    /// The length is of the indefinite form or has more than four bytes, or a number is above `u64`.
    #[error("the length of the element at {at} is out of range")]
    BadLength { at: u64 },
    /// There is a shorter or another spelling by the distinguished rules, or a number is negative.
    #[error("the element at {at} isn't spelled canonically")]
    NotCanonical { at: u64 },
}
