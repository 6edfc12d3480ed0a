//! Fields in front of bytes, read.

ghost use Rattle.std.specs.Prelude.{◌≡◌, length, IfOk};
ghost use Rattle.record_forms.specs.Forms.{front, behind_byte, number_8, number_32, number_64, sized};
ghost use Rattle.record_forms.specs.Outcome.{Gives};

use crate::fault::ReadFault;

/// The first so many bytes, and those behind them.
#[tactic(auto, unfolding(crate::specs::Forms::front))]
pub fn front(bytes: &[u8], size: usize) -> Result<(&[u8], &[u8]), ReadFault>
    ensures read { Gives (λ x. (x.0.now, x.1.now)) result (front size bytes.now) }
    ensures size { IfOk result (λ x. length x.0.now ≡ size) }
{
    if bytes.len() < size {
        return Err(ReadFault::Bad);
    }
    Ok(bytes.split_at(size))
}

/// The number of the first byte.
pub fn number_8(bytes: &[u8]) -> Result<(u8, &[u8]), ReadFault>
    ensures { Gives (λ x. (x.0, x.1.now)) result (number_8.read bytes.now) }
{
    match bytes.split_first() {
        Some((first, rest)) => Ok((*first, rest)),
        None => Err(ReadFault::Bad),
    }
}

/// The number of the first 4 bytes.
#[tactic(auto, unfolding(crate::specs::Forms::of_bytes_32))]
pub fn number_32(bytes: &[u8]) -> Result<(u32, &[u8]), ReadFault>
    ensures { Gives (λ x. (x.0, x.1.now)) result (number_32.read bytes.now) }
{
    let (field, rest) = front(bytes, 4)?;
    Ok((u32::from_be_bytes(*field.first_chunk().unwrap()), rest))
}

/// The number of the first 8 bytes.
#[tactic(auto, unfolding(crate::specs::Forms::of_bytes_64))]
pub fn number_64(bytes: &[u8]) -> Result<(u64, &[u8]), ReadFault>
    ensures { Gives (λ x. (x.0, x.1.now)) result (number_64.read bytes.now) }
{
    let (field, rest) = front(bytes, 8)?;
    Ok((u64::from_be_bytes(*field.first_chunk().unwrap()), rest))
}

/// As many bytes as the number of the first 4 says, and those behind them.
pub fn sized(bytes: &[u8]) -> Result<(&[u8], &[u8]), ReadFault>
    ensures { Gives (λ x. (x.0.now, x.1.now)) result (sized.read bytes.now) }
{
    let (size, rest) = number_32(bytes)?;
    front(rest, size as usize)
}

/// The bytes behind this one.
pub fn behind_byte(bytes: &[u8], mark: u8) -> Result<&[u8], ReadFault>
    ensures { Gives (λ x. x.now) result (behind_byte mark bytes.now) }
{
    match bytes.split_first() {
        Some((first, rest)) if *first == mark => Ok(rest),
        _ => Err(ReadFault::Bad),
    }
}
