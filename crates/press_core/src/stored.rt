//! A press over its journal: each edition is a record on the disk before it is acknowledged.

ghost use Rattle.std.specs.Prelude.{◌≡◌, ◌≢◌, ◌<◌, ◌≤◌, ◌+◌, ◌++◌, [], ◌∷◌, ℕ, List, All, Some, None, length, option_map, IfOk, IfErr, IfSome, OnOk, OnErr};
ghost use Rattle.disk_api.specs.Runs.{LeavesOnly};
ghost use Rattle.gate_journal.specs.Format.{held_for};
ghost use Rattle.gate_journal.specs.Storing.{stored, entry_bytes};
ghost use Rattle.gate_journal.specs.View.{IsSafe, IsSameButRoom, HasSizes};
ghost use Rattle.signer_ring.specs.Ring.{Keeps};
ghost use Rattle.authority_book.specs.declared.commands.Command.{Command};
ghost use Rattle.entitle.specs.Certified.{names_of};
ghost use Rattle.editions.specs.Edition.{Edition};
ghost use Rattle.editions.specs.PublishedState.{IsConsistentState, published_of};
ghost use Rattle.editions.specs.Gathering.{configs_with, AreGathered, AreAccepted};
ghost use Rattle.press_core.specs.Signers.{HoldKeys};
ghost use Rattle.signer_api.specs.State.{SignerState};
ghost use Rattle.press_records.specs.Recordable.{IsTyped};
ghost use Rattle.press_core.specs.PrepareInput.{PrepareInput, start_of};
ghost use Rattle.press_core.specs.Planned.{IsPrepared};
ghost use Rattle.press_core.specs.Records.{edition_value};
ghost use Rattle.press_core.specs.Tables.{IsHashed};
ghost use Rattle.press_core.specs.Follows.{edition_of, IsNextEdition};
ghost use Rattle.press_core.specs.Stands.{IsLeftBy};
ghost use Rattle.press_core.specs.Files.{HasFilesOf, delta_of, repository_of};
ghost use Rattle.press_core.specs.Exports.{export_of, ended_by, IsCoherent, ShowsFiles, ShowsEdition, ShowsLast};
ghost use Rattle.press_core.specs.Press.{DropsEach};
ghost use Rattle.outlet_api.specs.Calls.{after_all, IsFront};
ghost use Rattle.outlet_api.specs.Faults.{IsCauseOf};
ghost use Rattle.gate_journal.specs.Answers.{CanAppend};
ghost use Rattle.press_core.specs.JournalRecords.{press_limit, record_bytes, IsRecordOf, FindsOrWith, Finds};
ghost use Rattle.press_core.specs.Stored.{store_of, HasRecordsOf, IsStoreOf, CanCommit};
ghost use Rattle.press_core.specs.StoredAnswers.{IsPrepareFault, IsCommitFault, IsNoEntry, rose_of};

use crate::fault::{Met, MetAt};
use crate::hash_laws::prepared_tables_tell_hashes;
use crate::laws::edition_records_go_on;
use crate::next_edition::NextEdition;
use crate::prepared::Prepared;
use crate::press::Press;
use crate::record_laws::prepared_editions_can_be_recorded;
use crate::stored_fault::{CommitFault, PrepareFault};
use disk_api::Disk;
use editions::{Gathered, PublishedNumbers, PublishedState};
use gate_journal::{AppendFault, Entry, Journal};
use notice_board::Sheet;
use outlet_api::{ExportFault, Outlet};
use press_records::{EditionRecord, GivenEdition, recordable_editions_have_a_record};
use pub_set::Change;
use signer_api::Signer;
use signer_ring::Ring;
use std::alloc::{AllocError, Global};
use std::marker::Model;
use std::thread::Threads;

/// A press over its journal.
#[derive(Drop)]
pub struct StoredPress<D: Disk, S: Signer = Box<dyn Signer + Send>> {
    press: Press<S>,
    journal: Journal<D>,
}

impl<D: Disk, S: Signer> Model for StoredPress<D, S> {
    ghost use Rattle.std.specs.Prelude.{◌≡◌};
    ghost use Rattle.press_core.specs.JournalRecords.{press_limit};
    ghost use Rattle.press_core.specs.Stored.{StoredValue};
    ghost use Rattle.press_core.specs.Tables.{IsHashed};

    ghost Value = { StoredValue D };

    ghost view = { λ stored. record { press = stored.press; journal = stored.journal } };

    ghost invariant = { λ stored. (stored.journal.limit ≡ press_limit)
        × IsHashed stored.press.at.set stored.press.at.issued };
}

/// An edition that was prepared, with its delta and its record.
#[derive(Drop)]
pub struct StoredPrepared {
    prepared: Prepared,
    entry: Entry,
}

impl Model for StoredPrepared {
    ghost use Rattle.press_core.specs.Stored.{StoredPreparedValue};

    ghost Value = { StoredPreparedValue };

    ghost view = { λ stored. record {
      edition = stored.prepared.edition;
      delta = stored.prepared.delta;
      entry = stored.entry;
    } };
}

impl StoredPrepared {
    ghost use Rattle.editions.specs.Sheets.{sheet_of};

    /// What readers will be shown of the edition.
    pub fn sheet(&self, alloc: Global) -> Result<Sheet, AllocError>
        ensures { IfOk result (λ sheet. sheet ≡ sheet_of self.now.edition.next) }
    {
        self.prepared.sheet(alloc)
    }

    /// What the edition puts and withdraws, by rising URI.
    pub fn changes(&self) -> &[Change]
        ensures { result.now ≡ self.now.edition.changes }
    {
        self.prepared.changes()
    }
}

impl<D: Disk, S: Signer> StoredPress<D, S> {
    /// This press over this journal.
    pub(crate) fn of(press: Press<S>, journal: Journal<D>) -> StoredPress<D, S>
        requires limit { journal.limit ≡ press_limit }
        requires hashed { IsHashed press.at.set press.at.issued }
        ensures { result ≡ record { press = press; journal = journal } }
    {
        StoredPress { press, journal }
    }

    /// The press, of which nothing is told that isn't on the disk.
    pub fn press(&self) -> &Press<S>
        ensures press { result.now ≡ self.now.press }
        // Between calls, too, what a crash may leave has the journal's records, with the one in doubt or
        // without it where a fault shut the journal.
        ensures safe { IsSafe D.Disk self.now.journal }
        // The sizes are those of the records, where these are known.
        ensures sizes { HasSizes self.now.journal }
    {
        let _safe = self.journal.is_shut();
        let _sizes = self.journal.count();
        &self.press
    }

    // The record of the edition, if there is room for it.
    fn entry_of(
        &self,
        alloc: Global,
        now: u64,
        edition: &NextEdition,
    ) -> Result<Entry, PrepareFault<D>>
        requires { self.now.journal.shut ≡ None }
        ensures entry { IfOk result (λ entry. entry ≡ record_bytes self.now.press.at edition.now) }
        ensures recorded { IfOk result (λ entry. (start : PrepareInput) (ring : List SignerState)
            → start.at ≡ self.now.press.at → IsPrepared start ring edition.now
            → IsRecordOf self.now.press.at edition.now entry) }
        ensures fits { IfOk result (λ entry. CanAppend self.now.journal (length entry + 9)) }
        ensures refused { IfErr result (IsNoEntry self.now edition.now now) }
    {
        prepared_editions_can_be_recorded();
        recordable_editions_have_a_record();
        let built = record_of(alloc, self.press.published_state(), edition)?;
        let needed = built.len().saturating_add(9);
        match self.journal.refusal(needed) {
            Some(AppendFault::JournalFull { held, needed }) => {
                let met = Met::of(MetAt::new(22, now));
                Err(PrepareFault::JournalFull { held, needed, met })
            }
            Some(AppendFault::Shut { .. } | AppendFault::DiskFault { .. }) => unreachable!(),
            None => Ok(entry_with(alloc, &built)?),
        }
    }

    /// The edition that was prepared is written, and becomes the last one. Its record is written and
    /// synced behind a closed gate, and then the gate is opened and synced: four calls of the disk. At
    /// `Ok` the edition is kept: from then on each crash leaves it. It takes no memory of its own.
    ///
    /// Where a call of the disk fails the press stays as it was, and takes no edition any more; the
    /// edition is in doubt until the disk is opened again.
    pub fn commit(&mut self, prepared: StoredPrepared) -> Result<PublishedNumbers, CommitFault<D>>
        requires { CanCommit self.old prepared }

        ensures at { OnOk result (self.new.press.at ≡ prepared.edition.next) }
        ensures ended { OnOk result (self.new.press.ended ≡ prepared.edition.ended) }
        ensures published { IfOk result (λ published. published ≡ published_of prepared.edition.next) }
        ensures site { self.new.press.site ≡ self.old.press.site }
        ensures ring { self.new.press.ring ≡ self.old.press.ring }
        ensures session { self.new.press.rrdp.session ≡ self.old.press.rrdp.session }
        ensures last_export { self.new.press.last_export ≡ self.old.press.last_export }
        ensures files { OnOk result ((lists : List (List Command)) (editions : List Edition)
            → IsLeftBy lists editions self.old.press.at → HasFilesOf editions self.old.press
            → HasFilesOf (editions ++ edition_of prepared.edition ∷ []) self.new.press) }

        // The disk holds the editions whose records it held, and this one behind them.
        ensures records { OnOk result ((lists : List (List Command)) (editions : List Edition)
            → IsLeftBy lists editions self.old.press.at → HasRecordsOf editions self.old
            → HasRecordsOf (editions ++ edition_of prepared.edition ∷ []) self.new) }
        ensures bytes { OnOk result (D.content self.new.journal.disk
            ≡ option_map (stored (held_for self.old.journal.sizes) (entry_bytes prepared.entry)) (D.content self.old.journal.disk)) }
        ensures open { OnOk result ((self.new.journal.shut ≡ None) × (self.new.journal.doubt ≡ None)) }
        ensures limit { self.new.journal.limit ≡ self.old.journal.limit }

        ensures refused { IfErr result (λ fault. IsCommitFault D.Disk (rose_of fault) prepared self.old self.new) }

        // A crash at any moment of the call leaves the editions from before it, with this one or without. After Ok,
        // with it; after a fault the edition is in doubt, for as long as the journal stays shut.
        ensures any_moment { LeavesOnly D.Disk self.old.journal.disk self.new.journal.disk (λ image.
            (lists : List (List Command)) (editions : List Edition)
            → IsLeftBy lists editions self.old.press.at → IsStoreOf editions self.old
            → FindsOrWith (store_of self.old) editions (edition_of prepared.edition) image) }
        ensures durable { OnOk result ((lists : List (List Command)) (editions : List Edition) (image : List ℕ)
            → IsLeftBy lists editions self.old.press.at → IsStoreOf editions self.old
            → D.may_leave self.new.journal.disk image
            → Finds (store_of self.old) (editions ++ edition_of prepared.edition ∷ []) image) }
        ensures safe { IsSafe D.Disk self.new.journal }
        ensures later { D.fault_count self.old.journal.disk ≤ D.fault_count self.new.journal.disk }
    {
        edition_records_go_on();
        let StoredPrepared { prepared, entry } = prepared;
        match self.journal.append_built(entry) {
            Ok(()) => Ok(self.press.commit(prepared)),
            Err(AppendFault::DiskFault { rose }) => Err(CommitFault::DiskFault { rose }),
            Err(AppendFault::Shut { .. } | AppendFault::JournalFull { .. }) => unreachable!(),
        }
    }

    /// Brings the files of the last edition to the outlet, as `Press::export_to` does.
    pub fn export_to<O: Outlet>(
        &mut self,
        alloc: Global,
        outlet: &mut O,
    ) -> Result<(), ExportFault<O>>
        requires { self.old.press.at.serial ≢ 0 }
        ensures done { OnOk result ((editions : List Edition) → HasFilesOf editions self.old.press
            → O.files outlet.new ≡ option_map (after_all (export_of self.old.press editions)) (O.files outlet.old)) }
        ensures front { (editions : List Edition) → HasFilesOf editions self.old.press
            → IsFront (export_of self.old.press editions) (O.files outlet.old) (O.files outlet.new) }
        ensures coherent { (editions : List Edition) → HasFilesOf editions self.old.press
            → ShowsLast (ShowsFiles (repository_of self.old.press)) editions self.old.press.last_export (O.files outlet.old)
            → IfSome (O.files outlet.old) (IsCoherent (repository_of self.old.press) editions)
            → IfSome (O.files outlet.new) (IsCoherent (repository_of self.old.press) editions) }
        ensures shown { OnOk result ((lists : List (List Command)) (editions : List Edition)
            → IsLeftBy lists editions self.old.press.at → HasFilesOf editions self.old.press
            → ShowsLast (ShowsFiles (repository_of self.old.press)) editions self.old.press.last_export (O.files outlet.old)
            → IfSome (O.files outlet.new) (ShowsEdition self.old.press.rrdp.session self.old.press.site editions)) }
        ensures counts { O.fault_count outlet.old ≤ O.fault_count outlet.new }
        ensures cause { IfErr result (IsCauseOf (O.fault_count outlet.old) (O.fault_count outlet.new)) }
        ensures kept { self.new.press ≡ record self.old.press { last_export = ended_by result self.old.press.at.serial } }
        ensures journal { self.new.journal ≡ self.old.journal }
    {
        self.press.export_to(alloc, outlet)
    }

    /// Asks the signers to drop the keys that the last edition of this run ended, each once. It takes no memory.
    pub fn retire_keys(&mut self)
        ensures dropped { DropsEach self.old.press.ended self.old.press.ring self.new.press.ring }
        ensures others { self.new.press ≡ record self.old.press { ring = self.new.press.ring; ended = [] } }
        ensures kept { Keeps self.old.press.ring self.new.press.ring }
        ensures journal { self.new.journal ≡ self.old.journal }
    {
        self.press.retire_keys();
    }

    /// The disk and the signers, as they stand.
    pub fn close(self) -> (D, Ring<S>)
        ensures disk { result.0 ≡ self.journal.disk }
        ensures ring { result.1 ≡ self.press.ring }
        ensures safe { IsSafe D.Disk self.journal }
    {
        let StoredPress { press, journal } = self;
        (journal.close(), press.close())
    }
}

impl<D: Disk, S: Signer + Send> StoredPress<D, S> {
    /// Prepares the next edition, at that clock and with the commands that were gathered, and its
    /// record. Its signers make and sign what it puts; else nothing changes.
    ///
    /// `now` is in seconds since 1970. Refusals are asked in this order: `Shut`, `ClockRange`,
    /// `SerialEnd`, `Nothing`, before any signer is called; then `SignerFault` and `KeyClash`, as the
    /// signers' calls come to them; then `JournalFull`. `Memory` may come at any time but before `Shut`.
    pub fn prepare<R: Threads + Sync>(
        &mut self,
        rt: &R,
        alloc: Global,
        now: u64,
        gathered: Vec<Gathered>,
    ) -> Result<StoredPrepared, PrepareFault<D>>
        requires gathered { AreGathered self.old.press.at.cut gathered.items }
        requires accepted { AreAccepted self.old.press.at.configs gathered.items }
        requires live_signers { All (λ row. row.signer < length self.old.press.ring) self.old.press.at.rows }
        requires name_signers { All (λ name. name.signer < length self.old.press.ring)
            (names_of (configs_with self.old.press.at.configs gathered.items)) }

        // It is the edition that the press alone prepares, and follows the ones before it.
        ensures prepared { IfOk result (λ prepared.
            IsNextEdition (start_of self.old.press now gathered.items) self.new.press.ring prepared.edition) }
        ensures delta { IfOk result (λ prepared.
            prepared.delta ≡ delta_of self.old.press.rrdp.session prepared.edition) }

        // Its bytes are those of the record of this very edition over what stands, and are read back to it. There is
        // room for it.
        ensures entry { IfOk result (λ prepared.
            prepared.entry ≡ record_bytes self.old.press.at prepared.edition) }
        ensures ready { IfOk result (CanCommit self.new) }

        ensures refused { IfErr result
            (IsPrepareFault (start_of self.old.press now gathered.items) self.new.press.ring self.old.journal) }
        ensures kept { self.new.press ≡ record self.old.press { ring = self.new.press.ring } }
        ensures journal { IsSameButRoom self.old.journal self.new.journal }
        // What was prepared since the last edition can still be committed.
        ensures places { self.old.journal.places ≤ self.new.journal.places }
        ensures signers { Keeps self.old.press.ring self.new.press.ring }
        ensures keys { HoldKeys self.old.press.ring self.new.press.ring }
    {
        if let Some(rose) = self.journal.shut_by() {
            return Err(PrepareFault::Shut { rose });
        }
        prepared_tables_tell_hashes();
        let prepared = match self.press.prepare(rt, alloc, now, gathered) {
            Ok(prepared) => prepared,
            Err(fault) => return Err(PrepareFault::of(fault)),
        };
        let entry = self.entry_of(alloc, now, prepared.edition())?;
        self.journal.reserve_place(alloc)?;
        Ok(StoredPrepared { prepared, entry })
    }
}

// The record of the edition over what stands, before it is written, and what its types say.
fn record_of<'a>(
    alloc: Global,
    at: &PublishedState,
    edition: &'a NextEdition,
) -> Result<EditionRecord<'a>, AllocError>
    ensures spelled { IfOk result (λ built. built ≡ record_bytes at.now edition.now) }
    ensures typed { IfOk result (λ _. IsTyped (edition_value (edition_of edition.now))) }
    ensures kept { IsConsistentState at.now }
{
    let before = at.parts().rows.as_slice();
    let next = edition.published_state().parts();
    let given = GivenEdition {
        serial: next.serial,
        moment: next.moment,
        cut: next.cut.as_slice(),
        rows: next.rows.as_slice(),
        changes: edition.changes(),
    };
    EditionRecord::new(alloc, before, given)
}

// The journal's entry with these bytes.
fn entry_with(alloc: Global, built: &EditionRecord<'_>) -> Result<Entry, AllocError>
    ensures { IfOk result (λ entry. entry ≡ built.now) }
{
    let mut buffer = Entry::begin(alloc)?;
    built.write(&mut buffer)?;
    Entry::new(buffer)
}
