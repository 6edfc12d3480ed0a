//! What stands after the editions that the records of a journal tell, carried out one after another.

ghost use Rattle.std.specs.Prelude.{◌≡◌, map, IfOk, OnOk, OnErr};
ghost use Rattle.pub_set.specs.Objects.{content_at};
ghost use Rattle.pub_set.specs.Changes.{after_all};
ghost use Rattle.record_forms.specs.Form.{Spells};
ghost use Rattle.record_forms.specs.Forms.{read_whole};
ghost use Rattle.record_forms.specs.Outcome.{Gives, IsUnlessMemory};
ghost use Rattle.press_records.specs.Rows.{row_value};
ghost use Rattle.press_records.specs.Edition.{EditionValue, nothing_stands, after_edition, carried_out, settled, editions};
ghost use Rattle.press_records.specs.Views.{standing_value, edition_value, recovered_standing, parts_value};

use crate::edition::{ReadEdition, Standing, told};
use crate::fronts::{edition_behind, edition_front};
use crate::taking::take_changes;
use items::Items;
use key_roll::KeyRow;
use pub_set::{Change, ObjectSet};
use record_forms::ReadFault;
use std::alloc::{AllocError, Global};
use std::marker::Model;

/// What the editions leave that were read so far.
#[derive(Debug, Drop)]
pub struct Recovered {
    serial: u64,
    moment: u64,
    cut: Items<u64>,
    rows: Items<KeyRow>,
    set: ObjectSet,
}

impl Model for Recovered {
    ghost use Rattle.std.specs.Prelude.{map};
    ghost use Rattle.press_records.specs.Rows.{row_value};
    ghost use Rattle.press_records.specs.Views.{RecoveredValue};

    ghost Value = { RecoveredValue };

    ghost view = { λ left. record {
      serial = left.serial;
      moment = left.moment;
      cut = left.cut;
      rows = map row_value left.rows;
      objects = left.set;
    } };
}

/// What stands, as a press goes on with it.
#[derive(Debug, Drop)]
pub struct RecoveredParts {
    pub serial: u64,
    /// In seconds since 1970.
    pub moment: u64,
    /// How many commands of each desk are taken in.
    pub cut: Items<u64>,
    /// The live keys, by desk and role.
    pub rows: Items<KeyRow>,
    pub set: ObjectSet,
}

impl Recovered {
    /// Before the first edition nothing stands.
    pub fn new(alloc: Global) -> Recovered
        ensures { recovered_standing result ≡ nothing_stands }
    {
        Recovered {
            serial: 0,
            moment: 0,
            cut: Items::new(Vec::new(alloc)),
            rows: Items::new(Vec::new(alloc)),
            set: ObjectSet::new(alloc),
        }
    }

    /// What the next record is read over.
    pub fn standing(&self) -> Standing<'_>
        ensures { standing_value result ≡ recovered_standing self.now }
    {
        Standing {
            serial: self.serial,
            moment: self.moment,
            cut: self.cut.as_slice(),
            rows: self.rows.as_slice(),
            set: &self.set,
        }
    }

    /// Carries out an edition, as a rule one that was read over what stands. What it puts is moved, not copied.
    pub fn advance(&mut self, alloc: Global, edition: ReadEdition) -> Result<(), AllocError>
        ensures done { OnOk result (recovered_standing self.new
            ≡ after_edition (recovered_standing self.old) (edition_value edition)) }
        ensures kept { OnErr result (self.new ≡ self.old) }
    {
        let ReadEdition {
            serial,
            moment,
            cut,
            rows,
            changes,
        } = edition;
        carry_out(alloc, &mut self.set, changes.into_vec())?;
        self.stand_at(serial, moment, cut, rows);
        Ok(())
    }

    /// Reads the record of the next edition, and carries out what it puts and withdraws while it reads on, so
    /// that what is replaced is let go of before the rest is read. The bytes that are put are shared with the
    /// edition. `settle` has to follow; after an error what stands is of no use any more.
    ///
    /// It answers `Bad` exactly where the bytes are no edition's record over what stands, and `Memory` where
    /// memory runs out.
    pub fn take_record(&mut self, alloc: Global, bytes: &[u8]) -> Result<ReadEdition, ReadFault>
        ensures found { IfOk result (λ found.
            Spells (editions (recovered_standing self.old)) (edition_value found) bytes.now) }
        ensures carried { IfOk result (λ found. recovered_standing self.new
            ≡ carried_out (recovered_standing self.old) (edition_value found)) }
        ensures only { (wanted : EditionValue) → Spells (editions (recovered_standing self.old)) wanted bytes.now
            → IsUnlessMemory edition_value result wanted }
    {
        self.take_whole(alloc, bytes)
    }

    // The edition that all of the bytes tell, with its changes carried out.
    fn take_whole(&mut self, alloc: Global, bytes: &[u8]) -> Result<ReadEdition, ReadFault>
        ensures told { Gives edition_value result
            (read_whole (editions (recovered_standing self.old)) bytes.now) }
        ensures carried { IfOk result (λ found. recovered_standing self.new
            ≡ carried_out (recovered_standing self.old) (edition_value found)) }
    {
        if bytes.len() >= 1 << 32 {
            return Err(ReadFault::Bad);
        }
        let (front, rest) = edition_front(alloc, &self.standing(), bytes)?;
        let (changes, left) = take_changes(alloc, &mut self.set, front.lists.count, rest)?;
        let edition = told(alloc, &self.standing(), edition_behind(front, changes))?;
        if !left.is_empty() {
            return Err(ReadFault::Bad);
        }
        Ok(edition)
    }

    /// Goes on behind the edition whose record was taken, and gives its changes. Takes no memory.
    pub fn settle(&mut self, edition: ReadEdition) -> Items<Change>
        ensures settled { recovered_standing self.new
            ≡ settled (recovered_standing self.old) (edition_value edition) }
        ensures changes { result ≡ edition.changes }
    {
        let ReadEdition {
            serial,
            moment,
            cut,
            rows,
            changes,
        } = edition;
        self.stand_at(serial, moment, cut, rows);
        changes
    }

    // Goes on behind an edition whose changes are carried out.
    fn stand_at(&mut self, serial: u64, moment: u64, cut: Items<u64>, rows: Items<KeyRow>)
        ensures { self.new ≡ record self.old {
          serial = serial;
          moment = moment;
          cut = cut;
          rows = map row_value rows;
        } }
    {
        self.serial = serial;
        self.moment = moment;
        self.cut = cut;
        self.rows = rows;
    }

    /// What stands, by its parts.
    pub fn into_parts(self) -> RecoveredParts
        ensures { parts_value result ≡ self }
    {
        RecoveredParts {
            serial: self.serial,
            moment: self.moment,
            cut: self.cut,
            rows: self.rows,
            set: self.set,
        }
    }
}

// Changes over the set that they were read over, so that no hash has to be looked at.
#[tactic(auto, using(crate::proofs::Applying::same_contents))]
pub(crate) fn carry_out(
    alloc: Global,
    set: &mut ObjectSet,
    changes: Vec<Change>,
) -> Result<(), AllocError>
    ensures done { OnOk result (content_at set.new ≡ after_all (content_at set.old) changes.items) }
    ensures kept { OnErr result (set.new ≡ set.old) }
{
    set.apply(alloc, changes)
}
