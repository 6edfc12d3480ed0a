//! The first certificate of a key among what stands.

ghost use Rattle.std.specs.Prelude.{◌≡◌, map, find, option_map};
ghost use Rattle.issue_plan.specs.Fits as spec;
ghost use Rattle.issue_plan.specs.Serves.{is_for};

use crate::serving::is_for;
use key_roll::{IssuedRow, KeyName};
use pub_set::Uri;

fn first_for<'a>(rows: &[&'a IssuedRow], key: &KeyName) -> Option<&'a IssuedRow>
    ensures { option_map (λ row. row.now) result
        ≡ find (λ row. is_for key.now row.what) (map (λ row. row.now) rows.now) }
{
    for row in rows {
        if is_for(key, &row.what) {
            return Some(*row);
        }
    }
    None
}

/// Whether the first certificate of the key among these rows is the one at the place.
pub fn stands_first(rows: &[&IssuedRow], key: &KeyName, uri: &Uri) -> bool
    ensures { result ≡ spec.stands_first (map (λ row. row.now) rows.now) key.now uri.now }
{
    match first_for(rows, key) {
        Some(row) => row.uri.as_str() == uri.as_str(),
        None => false,
    }
}
