//! Which deltas are named (RFC 8182 section 3.3.2).

ghost use Rattle.std.specs.Prelude.{◌≡◌, ◌≤◌, length, take};
ghost use Rattle.rrdp_state.specs.Named.{fitting, most_named};

use crate::delta::Delta;

/// A notification names at most so many deltas.
pub(crate) const MOST_NAMED: usize = 16;

/// How many of these deltas, the newest first, are named beside a snapshot of so many bytes.
pub(crate) fn fitting_count(room: u128, deltas: &[Delta]) -> usize
    ensures named { take result deltas.now ≡ fitting most_named room deltas.now }
    ensures few { result ≤ most_named }
{
    let mut left = room;
    for (i, delta) in deltas.iter().enumerate() {
        let len = delta.text.len() as u128;
        if i == MOST_NAMED || len > left {
            return i;
        }
        left -= len;
    }
    deltas.len()
}
