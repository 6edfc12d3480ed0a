//! How long snapshots are, as far as it has to be known (RFC 8182 section 3.3.2).

ghost use Rattle.std.specs.Prelude.{◌≡◌, ◌≤◌, nat_le, length, take};
ghost use Rattle.std.specs.List.{flat_map};
ghost use Rattle.rrdp_text.specs.Texts.{object_text, snapshot_text};
ghost use Rattle.rrdp_state.specs.Named.{fitting, most_named};

use crate::delta::Delta;
use crate::named::{MOST_NAMED, fitting_count};
use pub_set::{Object, ObjectSet};
use rrdp_text::snapshot_len;
use uuid::Uuid;

#[tactic(auto, using(crate::proofs::Least::least_more))]
/// No more bytes than the lines of these objects have, told by their URIs alone.
fn least_len(objects: &[Object]) -> u128
    ensures { result ≤ length (flat_map object_text objects.now) }
{
    let mut len: u128 = 0;
    for object in objects {
        len = len.saturating_add(object.uri.as_str().len() as u128);
    }
    len
}

#[tactic(auto, using(crate::proofs::Least::least_snapshot))]
/// Whether the snapshot of a set has so many bytes. The objects' bytes are looked at only where their URIs don't tell.
pub(crate) fn reaches(session: &Uuid, serial: u64, set: &ObjectSet, len: u128) -> bool
    ensures { result ≡ nat_le len (length (snapshot_text session.now serial set.now)) }
{
    let least = least_len(set.as_slice());
    if len <= least {
        return true;
    }
    len <= snapshot_len(session, serial, set)
}

#[tactic(auto, using(crate::proofs::Least::all_fit_few, crate::proofs::Least::all_fit_most, crate::proofs::Least::least_snapshot))]
/// How many of these deltas, the newest first, are named beside the snapshot of a set. The objects' bytes are looked at
/// only where their URIs don't tell.
pub(crate) fn named_count(session: &Uuid, serial: u64, set: &ObjectSet, deltas: &[Delta]) -> usize
    ensures named { take result deltas.now
        ≡ fitting most_named (length (snapshot_text session.now serial set.now)) deltas.now }
    ensures few { result ≤ most_named }
{
    let least = least_len(set.as_slice());
    let named = fitting_count(least, deltas);
    if named == deltas.len() || named == MOST_NAMED {
        return named;
    }
    fitting_count(snapshot_len(session, serial, set), deltas)
}
