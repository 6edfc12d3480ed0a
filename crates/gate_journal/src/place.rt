// Where a record lies in the file.
ghost use Rattle.std.specs.Prelude.{◌+◌, ◌<◌, ◌^◌};

/// Where the payload of a record lies: its first byte's offset, and how many bytes it has.
#[derive(Clone, Copy, Debug, PartialEq, Eq)]
pub(crate) struct Place {
    pub(crate) at: u64,
    pub(crate) size: u64,
    ghost fits: { at + size < 2 ^ 64 },
}
