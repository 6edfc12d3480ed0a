//! The moment of the next edition, and counters that are at their end.

ghost use Rattle.std.specs.Prelude.{◌≡◌, None, IfSome, find, nat_le};
ghost use Rattle.issue_values.specs.Certificates.{IsEditionMoment};
ghost use Rattle.editions.specs.Moments as spec;
ghost use Rattle.editions.specs.Moments.{end_of_counters, counters_of, AreBelowEnd};

use key_roll::KeyRow;

// The first moment at which an edition can be made: 2000-01-01.
const FIRST_MOMENT: u64 = 946_684_800;

// The last one: 9998-12-31. A certificate of that edition ends in the year 9999.
const LAST_MOMENT: u64 = 253_370_764_799;

// The least number at which a counter has come to its end.
const END: u64 = 1 << 62;

/// The moment of an edition at that clock, behind the last edition's moment. None where the clock is below the first
/// moment there is, or the moment past the last one. All in seconds since 1970.
pub fn next_moment(clock: u64, last: u64) -> Option<u64>
    ensures moment { result ≡ spec.moment_in_range clock last }
    ensures dated { IfSome result IsEditionMoment }
{
    let moment = clock.max(last.saturating_add(1));
    if clock < FIRST_MOMENT || moment > LAST_MOMENT {
        None
    } else {
        Some(moment)
    }
}

// The first counter of the key that is at its end.
fn key_at_end(row: &KeyRow) -> Option<u64>
    ensures { result ≡ find (nat_le end_of_counters) (spec.counters row.now) }
{
    if row.number >= END {
        Some(row.number)
    } else if row.next_serial >= END {
        Some(row.next_serial)
    } else {
        None
    }
}

/// The first of the serial of the last edition and its keys' counters that is at its end. Its end
/// is at 2^62.
pub fn first_at_end(serial: u64, rows: &[KeyRow]) -> Option<u64>
    ensures first { result ≡ spec.first_at_end serial rows.now }
    ensures none { result ≡ None → AreBelowEnd serial rows.now }
{
    if serial >= END {
        return Some(serial);
    }
    for row in rows {
        let ended = key_at_end(row);
        if ended.is_some() {
            return ended;
        }
    }
    None
}
