//! What a calendar and a clock show. UTC, in the proleptic Gregorian calendar, without leap seconds
//! (RFC 5280 section 4.1.2.5).

/// A civil time. As such it need not be one that the calendar has.
#[derive(Clone, Copy, Debug, PartialEq, Eq)]
pub(crate) struct Civil {
    pub(crate) year: u16,
    pub(crate) month: u8,
    pub(crate) day: u8,
    pub(crate) hour: u8,
    pub(crate) minute: u8,
    pub(crate) second: u8,
}
