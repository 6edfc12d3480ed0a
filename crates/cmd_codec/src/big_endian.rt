//! Numbers of fixed size, the highest byte first.

ghost use Rattle.std.specs.Prelude.{◌≡◌, ◌≤◌, ◌+◌, take, drop, length};
ghost use Rattle.cmd_codec.specs.Spelling.{bytes_32, bytes_128};
ghost use Rattle.cmd_codec.specs.Fault.{front_32, front_128};

/// The number of the first 4 bytes.
#[tactic(auto, unfolding(crate::specs::Spelling::bytes_32, crate::specs::Fault::front_32))]
pub fn number_of(field: &[u8]) -> u32
    requires { 4 ≤ length field.now }
    ensures value { result ≡ front_32 field.now }
    ensures bytes { bytes_32 result ≡ take 4 field.now }
{
    u32::from_be_bytes(*field.first_chunk().unwrap())
}

/// The number of the 16 bytes from the place on.
pub fn wide_number_at(field: &[u8], place: usize) -> u128
    requires { place + 16 ≤ length field.now }
    ensures value { result ≡ front_128 (drop place field.now) }
    ensures bytes { bytes_128 result ≡ take 16 (drop place field.now) }
{
    u128::from_be_bytes(*field[place..].first_chunk().unwrap())
}
