//! The field of an origin.

ghost use Rattle.std.specs.Prelude.{◌≡◌, ◌==◌, ◌<◌, ◌≤◌, ◌^◌, Bool, true, false, get_or, nat_le, drop, length, IsTrue, MatchOption};
ghost use Rattle.cmd_codec.specs.Spelling.{origin_spelling};
ghost use Rattle.cmd_codec.specs.Fault.{is_origin, are_of_origin};

use crate::big_endian::{number_of, wide_number_at};
use origins::{Origin, Prefix};

/// The origin that the field spells, if it spells one.
pub fn origin_of(field: &[u8]) -> Option<Origin>
    requires { length field.now ≡ 23 }
    ensures { MatchOption result (is_origin field.now ≡ false)
        (λ origin. (is_origin field.now ≡ true) × (field.now ≡ origin_spelling origin)) }
{
    let v6 = family_of(field[0])?;
    let address = wide_number_at(field, 1);
    let asn = number_of(&field[19..]);
    origin_with(v6, address, field[17], field[18], asn)
}

// The family that the byte spells, if it spells one.
fn family_of(byte: u8) -> Option<bool>
    ensures { MatchOption result (nat_le byte 1 ≡ false)
        (λ v6. (nat_le byte 1 ≡ true) × (v6 ≡ (byte == 1))) }
{
    match byte {
        0 => Some(false),
        1 => Some(true),
        _ => None,
    }
}

// The origin of these numbers, if they are those of one.
fn origin_with(v6: bool, address: u128, length: u8, max: u8, asn: u32) -> Option<Origin>
    ensures { MatchOption result (are_of_origin v6 address length max ≡ false)
        (λ o. (are_of_origin v6 address length max ≡ true) × (o.prefix.v6 ≡ v6)
        × (o.prefix.address ≡ address) × (o.prefix.length ≡ length) × (o.max ≡ max) × (o.asn ≡ asn)) }
{
    Origin::new(Prefix::new(v6, address, length)?, max, asn)
}
