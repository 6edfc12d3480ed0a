//! How the last export ended.

/// How the last export of a press ended.
#[derive(Clone, Copy, Debug, PartialEq, Eq)]
pub enum LastExport {
    /// There was none.
    NoExport,
    /// A call of the outlet failed, or there was no memory.
    Failed,
    /// It came to its end, at the edition with that serial.
    Done { serial: u64 },
}
