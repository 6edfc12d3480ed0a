//! Lists of revoked certificates (RFC 5280 section 5.1.2.6).

ghost use Rattle.std.specs.Prelude.{◌≡◌, ◌↔◌, ◌<◌, ◌^◌, true, length, IsTrue};
ghost use Rattle.der.specs.Grammar.{AreBytes};
ghost use Rattle.der.specs.Forms.{AreAll};
ghost use Rattle.moments.specs.Civil.{IsMoment};
ghost use Rattle.crl_obj.specs.Values.{IsEntry, rise_above, are_rising, IsCrl, crl_value};
ghost use Rattle.crl_obj.specs.Formats.{is_listed};

use crate::values::{Crl, CrlEntry};
use moments::is_moment;

/// Whether each serial is above the one before it, the first above that number.
fn rise_above(serial: u64, entries: &[CrlEntry]) -> bool
    ensures { result ≡ rise_above serial entries.now }
{
    let mut last = serial;
    let mut rest = entries;
    while let Some((first, others)) = rest.split_first() {
        if first.serial <= last {
            return false;
        }
        last = first.serial;
        rest = others;
    }
    true
}

/// Whether each serial is above the one before it.
fn are_rising(entries: &[CrlEntry]) -> bool
    ensures { result ≡ are_rising entries.now }
{
    match entries.split_first() {
        Some((first, rest)) => rise_above(first.serial, rest),
        None => true,
    }
}

/// Whether there are entries, and their serials rise.
pub fn is_listed(entries: &[CrlEntry]) -> bool
    ensures { result ≡ is_listed entries.now }
{
    match entries.split_first() {
        Some((first, rest)) => rise_above(first.serial, rest),
        None => false,
    }
}

/// Whether an entry has a spelling.
fn is_entry(entry: CrlEntry) -> bool
    ensures { IsTrue result ↔ IsEntry entry }
{
    is_moment(entry.revoked_at)
}

/// Whether each entry has a spelling.
fn are_entries(entries: &[CrlEntry]) -> bool
    ensures { IsTrue result ↔ AreAll IsEntry entries.now }
{
    let mut rest = entries;
    while let Some((first, others)) = rest.split_first() {
        if !is_entry(*first) {
            return false;
        }
        rest = others;
    }
    true
}

/// What the type says: bytes are below 2 ^ 8.
fn are_bytes(bytes: &[u8])
    ensures { AreBytes bytes.now }
{}

/// What the types say: an identifier is 20 bytes, and a number has 64 bits.
fn are_whole(issuer: &[u8; 20], number: u64)
    ensures length { length issuer.now ≡ 20 }
    ensures bytes { AreBytes issuer.now }
    ensures number { number < 2 ^ 64 }
{
    are_bytes(issuer)
}

/// Whether two times have spellings.
fn are_moments(one: u64, other: u64) -> bool
    ensures { IsTrue result ↔ (IsMoment one × IsMoment other) }
{
    is_moment(one) && is_moment(other)
}

/// Whether entries have spellings, and their serials rise.
fn are_spelled(entries: &[CrlEntry]) -> bool
    ensures { IsTrue result ↔ (AreAll IsEntry entries.now × (are_rising entries.now ≡ true)) }
{
    are_entries(entries) && are_rising(entries)
}

impl Crl {
    /// Whether it has a spelling: all times lie in the years 2000 to 9999, and the serials rise.
    pub fn has_spelling(&self) -> bool
        ensures { IsTrue result ↔ IsCrl (crl_value self.now) }
    {
        are_whole(&self.issuer.bytes, self.number);
        are_moments(self.this_update, self.next_update) && are_spelled(&self.entries)
    }
}
