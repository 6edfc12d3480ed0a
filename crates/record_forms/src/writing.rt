//! Fields, appended to bytes.

ghost use Rattle.std.specs.Prelude.{◌≡◌, ◌++◌, OnOk};
ghost use Rattle.record_forms.specs.Forms.{bytes_32, bytes_64, sized};

use std::alloc::AllocError;

/// Appends a number in 4 bytes.
#[tactic(auto, unfolding(crate::specs::Forms::bytes_32))]
pub fn push_32(out: &mut Vec<u8>, n: u32) -> Result<(), AllocError>
    ensures { OnOk result (out.new.items ≡ out.old.items ++ bytes_32 n) }
{
    out.extend_from_slice(&n.to_be_bytes())
}

/// Appends a number in 8 bytes.
#[tactic(auto, unfolding(crate::specs::Forms::bytes_64))]
pub fn push_64(out: &mut Vec<u8>, n: u64) -> Result<(), AllocError>
    ensures { OnOk result (out.new.items ≡ out.old.items ++ bytes_64 n) }
{
    out.extend_from_slice(&n.to_be_bytes())
}

/// Appends a count in 4 bytes. Of one of 2^32 or more these are the last.
#[tactic(auto, using(crate::proofs::Counts::count_bytes))]
pub fn push_count(out: &mut Vec<u8>, count: usize) -> Result<(), AllocError>
    ensures { OnOk result (out.new.items ≡ out.old.items ++ bytes_32 count) }
{
    let digits = (count as u64).to_be_bytes();
    out.extend_from_slice(&digits[4..])
}

/// Appends how many bytes there are in 4 bytes, and the bytes. Of more than 2^32 bytes the count says too few.
pub fn push_sized(out: &mut Vec<u8>, bytes: &[u8]) -> Result<(), AllocError>
    ensures { OnOk result (out.new.items ≡ out.old.items ++ sized.spelling bytes.now) }
{
    push_count(out, bytes.len())?;
    out.extend_from_slice(bytes)
}
