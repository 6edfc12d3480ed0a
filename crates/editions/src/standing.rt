//! What stands after an edition: the set of its objects, and the table of what they say.

ghost use Rattle.std.specs.Prelude.{◌≡◌, ◌++◌, refl, IfOk, OnOk};
ghost use Rattle.pub_set.specs.Objects.{Rise, IsAscending};
ghost use Rattle.pub_set.specs.Changes.{uri_of, IsApplied};
ghost use Rattle.editions.specs.Joining.{IsJoined};
ghost use Rattle.editions.specs.Standing.{object_after, next_uri, coming_row, IsTableAfter};
ghost use Rattle.editions.specs.laws.StandingLaws as laws;

use crate::in_place::changed_table;
use crate::joining::{AtUri, Joins, join_all};
use key_roll::{IssuedRow, What};
use pub_set::{Change, Object, ObjectSet, Uri};
use std::alloc::{AllocError, Global};

impl AtUri for Object {
    ghost place = { λ object. object.uri };

    fn uri(&self) -> &Uri {
        &self.uri
    }
}

impl AtUri for Change {
    ghost place = { uri_of };

    fn uri(&self) -> &Uri {
        Change::uri(self)
    }
}

impl AtUri for IssuedRow {
    ghost place = { λ row. row.uri };

    fn uri(&self) -> &Uri {
        &self.uri
    }
}

// An object stays, is put, or is withdrawn.
impl Joins<Object, Change> for Object {
    ghost joined = { object_after };

    fn join(
        alloc: Global,
        stands: Option<&Object>,
        comes: Option<&Change>,
    ) -> Result<Option<Object>, AllocError> {
        match (stands, comes) {
            (_, Some(Change::Put { uri, bytes, .. })) => Ok(Some(Object {
                uri: uri.copy(alloc)?,
                bytes: bytes.share()?,
            })),
            (_, Some(Change::Withdraw { .. })) => Ok(None),
            (Some(object), None) => Ok(Some(object.copy(alloc)?)),
            (None, None) => Ok(None),
        }
    }

    ghost nothing = { refl };

    ghost stays = { laws.object_stays };
}

/// What comes to a URI in the table: the row of what was issued there, or none.
#[derive(Drop)]
pub enum NextRow {
    Issued { row: IssuedRow },
    Gone { uri: Uri },
}

impl AtUri for NextRow {
    ghost place = { next_uri };

    fn uri(&self) -> &Uri {
        match self {
            NextRow::Issued { row } => &row.uri,
            NextRow::Gone { uri } => uri,
        }
    }
}

// What was issued comes, and what is changed otherwise goes.
impl Joins<IssuedRow, Change> for NextRow {
    ghost joined = { coming_row };

    fn join(
        alloc: Global,
        stands: Option<&IssuedRow>,
        comes: Option<&Change>,
    ) -> Result<Option<NextRow>, AllocError> {
        match (stands, comes) {
            (Some(row), _) => Ok(Some(NextRow::Issued {
                row: copy_row(alloc, row)?,
            })),
            (None, Some(change)) => Ok(Some(NextRow::Gone {
                uri: change.uri().copy(alloc)?,
            })),
            (None, None) => Ok(None),
        }
    }

    ghost nothing = { refl };

    ghost stays = { laws.coming_stays };
}

// What the object says, once more.
fn copy_what(alloc: Global, what: &What) -> Result<What, AllocError>
    ensures { IfOk result (λ copy. copy ≡ what.now) }
{
    match what {
        What::Authority { key, held } => Ok(What::Authority {
            key: *key,
            held: held.copy(alloc)?,
        }),
        What::Route { origin } => Ok(What::Route { origin: *origin }),
        What::Point => Ok(What::Point),
    }
}

// The same row in memory of its own.
fn copy_row(alloc: Global, row: &IssuedRow) -> Result<IssuedRow, AllocError>
    ensures { IfOk result (λ copy. copy ≡ row.now) }
{
    Ok(IssuedRow {
        uri: row.uri.copy(alloc)?,
        issuer: row.issuer,
        serial: row.serial,
        not_after: row.not_after,
        hash: row.hash,
        what: copy_what(alloc, &row.what)?,
    })
}

// The set of these objects. They are moved.
fn set_of(alloc: Global, objects: Vec<Object>) -> Result<ObjectSet, AllocError>
    requires { IsAscending objects.items }
    ensures { IfOk result (λ set. set ≡ objects.items) }
{
    let mut set = ObjectSet::new(alloc);
    for object in objects {
        set.push(object)?;
    }
    Ok(set)
}

/// What the changes make of the set. Linear in how many objects stand and change; their bytes
/// are shared, and not copied.
pub fn next_set(alloc: Global, old: &ObjectSet, changes: &[Change]) -> Result<ObjectSet, AllocError>
    requires { Rise uri_of changes.now }
    ensures { IfOk result (λ set. IsApplied old.now changes.now set) }
{
    let objects = join_all::<Object, Change, Object>(alloc, old.as_slice(), changes)?;
    let set = set_of(alloc, objects)?;
    Ok(set)
}

/// What comes to the table: the rows of what was issued, and none where something is changed otherwise.
pub(crate) fn coming_rows(
    alloc: Global,
    changes: &[Change],
    issued: &[IssuedRow],
) -> Result<Vec<NextRow>, AllocError>
    requires changes { Rise uri_of changes.now }
    requires issued { Rise (λ row. row.uri) issued.now }
    ensures { IfOk result (λ coming. IsJoined (λ row. row.uri) uri_of next_uri coming_row
        issued.now changes.now coming.items) }
{
    join_all::<IssuedRow, Change, NextRow>(alloc, issued, changes)
}

// Puts the same rows behind the others.
fn push_row_copies(
    alloc: Global,
    all: &mut Vec<IssuedRow>,
    rows: &[IssuedRow],
) -> Result<(), AllocError>
    ensures { OnOk result (all.new.items ≡ all.old.items ++ rows.now) }
{
    for row in rows {
        all.push(copy_row(alloc, row)?)?;
    }
    Ok(())
}

// The same rows once more.
fn copied_rows(alloc: Global, rows: &[IssuedRow]) -> Result<Vec<IssuedRow>, AllocError>
    ensures { IfOk result (λ copies. copies.items ≡ rows.now) }
{
    let mut copies = Vec::with_capacity(alloc, rows.len())?;
    push_row_copies(alloc, &mut copies, rows)?;
    Ok(copies)
}

/// The table of what stands after the changes, of which these rows tell what was issued. Linear in all three; a row that
/// stands and one that was issued are copied once.
pub fn next_table(
    alloc: Global,
    old: &[IssuedRow],
    changes: &[Change],
    issued: &[IssuedRow],
) -> Result<Vec<IssuedRow>, AllocError>
    requires old { Rise (λ row. row.uri) old.now }
    requires changes { Rise uri_of changes.now }
    requires issued { Rise (λ row. row.uri) issued.now }
    ensures { IfOk result (λ rows. IsTableAfter old.now changes.now issued.now rows.items) }
{
    let rows = copied_rows(alloc, old)?;
    changed_table(alloc, rows, changes, issued)
}
