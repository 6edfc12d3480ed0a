//! The editions of a press's journal, read one after another.

ghost use Rattle.std.specs.Prelude.{◌≡◌, ◌<◌, ◌≤◌, ◌^◌, ◌+◌, ◌-◌, ◌++◌, ◌∷◌, [], ℕ, List, length, IfOk, IfErr, OnOk};
ghost use Rattle.record_forms.specs.Form.{AreBytes};
ghost use Rattle.press_records.specs.Edition.{nothing_stands, carried_out, settled};
ghost use Rattle.press_records.specs.Views.{recovered_standing, edition_value as read_value};
ghost use Rattle.pub_set.specs.Objects.{content_at};
ghost use Rattle.pub_set.specs.Changes.{after_all};
ghost use Rattle.editions.specs.Edition.{Edition, set_after};
ghost use Rattle.rrdp_state.specs.Exported.{Repository};
ghost use Rattle.rrdp_state.specs.Resuming.{IsToldBy};
ghost use Rattle.press_core.specs.Files.{repository_at, rrdp_editions};
ghost use Rattle.press_core.specs.inner.Loads.{IsOpened, IsRead, IsStop, IsEditionAt, IsNoneAt, AreReadTo, AreTakenIn, AreAllRead, IsBadIn, edition_read, repository_in};

use crate::loading::{LoadFault, bad};
use disk_api::Disk;
use gate_journal::Journal;
use key_ids::Site;
use press_records::{ReadEdition, Recovered};
use pub_set::same_contents_same_set;
use rrdp_state::{Resuming, TELLING_EDITIONS};
use std::alloc::{AllocError, Global};
use uuid::Uuid;

/// What the editions leave, and what the newest of them tell of the deltas that are named.
#[derive(Drop)]
pub(crate) struct ReadEditions {
    pub(crate) left: Recovered,
    pub(crate) resuming: Resuming,
}

/// Reads the editions of a journal behind its first record, for the files of that session.
pub(crate) fn read_editions<D: Disk>(
    alloc: Global,
    journal: &mut Journal<D>,
    site: &Site,
    session: Uuid,
) -> Result<ReadEditions, LoadFault>
    requires opened { IsOpened D.Disk journal.old }
    requires begun { 0 < length journal.old.sizes }
    ensures read { IfOk result (λ read. AreAllRead (repository_at session site.now) journal.old.records
        (length journal.old.sizes - 1) read.left read.resuming) }
    ensures refused { IfErr result (IsStop D.Disk (IsBadIn journal.old) journal.old.disk journal.new.disk) }
    ensures journal { IsRead D.Disk journal.old journal.new }
    ensures still_open { OnOk result (IsOpened D.Disk journal.new) }
{
    let last = journal.count() - 1;
    let older = last.saturating_sub(TELLING_EDITIONS);
    let mut buffer = Vec::new(alloc);
    let mut left = Recovered::new(alloc);
    read_older(alloc, journal, &mut buffer, &mut left, older)?;
    let mut resuming = Resuming::behind(alloc, session, site, older)?;
    read_newest(alloc, journal, &mut buffer, &mut left, &mut resuming, older)?;
    Ok(ReadEditions { left, resuming })
}

// The first so many editions, of which only what they leave is kept.
fn read_older<D: Disk>(
    alloc: Global,
    journal: &mut Journal<D>,
    buffer: &mut Vec<u8>,
    left: &mut Recovered,
    older: u64,
) -> Result<(), LoadFault>
    requires opened { IsOpened D.Disk journal.old }
    requires within { older < length journal.old.sizes }
    requires none { recovered_standing left.old ≡ nothing_stands }
    ensures read { OnOk result (AreReadTo journal.old.records older left.new) }
    ensures refused { IfErr result (IsStop D.Disk (IsBadIn journal.old) journal.old.disk journal.new.disk) }
    ensures journal { IsRead D.Disk journal.old journal.new }
    ensures still_open { OnOk result (IsOpened D.Disk journal.new) }
{
    for count in 0..older {
        let edition = next_edition(alloc, journal, buffer, left, count + 1)?;
        let _changes = left.settle(edition);
    }
    Ok(())
}

// The editions behind the older ones, whose deltas are taken in.
fn read_newest<D: Disk>(
    alloc: Global,
    journal: &mut Journal<D>,
    buffer: &mut Vec<u8>,
    left: &mut Recovered,
    resuming: &mut Resuming,
    older: u64,
) -> Result<(), LoadFault>
    requires opened { IsOpened D.Disk journal.old }
    requires within { older < length journal.old.sizes }
    requires older { AreTakenIn (repository_in resuming.old) journal.old.records older older left.old resuming.old }
    ensures read { OnOk result (AreTakenIn (repository_in resuming.old) journal.old.records older
        (length journal.old.sizes - 1) left.new resuming.new) }
    ensures refused { IfErr result (IsStop D.Disk (IsBadIn journal.old) journal.old.disk journal.new.disk) }
    ensures journal { IsRead D.Disk journal.old journal.new }
    ensures still_open { OnOk result (IsOpened D.Disk journal.new) }
{
    let last = journal.count() - 1;
    for count in older..last {
        let edition = next_edition(alloc, journal, buffer, left, count + 1)?;
        take_in(alloc, left, resuming, edition)?;
    }
    Ok(())
}

// The edition whose record has that index, with its changes carried out. All records are read into one
// buffer, so that no block of that size is let go of in between.
fn next_edition<D: Disk>(
    alloc: Global,
    journal: &mut Journal<D>,
    buffer: &mut Vec<u8>,
    left: &mut Recovered,
    index: u64,
) -> Result<ReadEdition, LoadFault>
    requires opened { IsOpened D.Disk journal.old }
    requires within { index < length journal.old.sizes }
    ensures edition { IfOk result (λ edition. IsEditionAt journal.old.records index (recovered_standing left.old) (read_value edition)) }
    ensures carried { IfOk result (λ edition. recovered_standing left.new
        ≡ carried_out (recovered_standing left.old) (read_value edition)) }
    ensures refused { IfErr result (IsStop D.Disk (IsNoneAt journal.old.records index (recovered_standing left.old))
        journal.old.disk journal.new.disk) }
    ensures journal { IsRead D.Disk journal.old journal.new }
    ensures still_open { OnOk result (IsOpened D.Disk journal.new) }
{
    journal.record_into(index, buffer)?;
    let bytes = buffer.as_slice();
    are_bytes(bytes);
    match left.take_record(alloc, bytes) {
        Ok(edition) => Ok(edition),
        Err(fault) => Err(bad(fault, index)),
    }
}

// What the type says: bytes are below 2 ^ 8.
fn are_bytes(bytes: &[u8])
    ensures { AreBytes bytes.now }
{}

// Goes on behind an edition whose changes are carried out, with its delta.
fn take_in(
    alloc: Global,
    left: &mut Recovered,
    resuming: &mut Resuming,
    edition: ReadEdition,
) -> Result<(), AllocError>
    requires serial { edition.serial ≡ resuming.old.serial + 1 }
    requires small { edition.serial ≤ 2 ^ 63 }
    ensures left { OnOk result (recovered_standing left.new
        ≡ settled (recovered_standing left.old) (read_value edition)) }
    ensures told { OnOk result ((repository : Repository) (told : ℕ) (before : List Edition)
        → ((uri : List ℕ) → content_at left.old.objects uri ≡ after_all (set_after before) edition.changes uri)
        → IsToldBy repository told (rrdp_editions before) resuming.old
        → IsToldBy repository (told + 1) (rrdp_editions (before ++ edition_read edition ∷ [])) resuming.new) }
    ensures counted { OnOk result (resuming.new.serial ≡ resuming.old.serial + 1) }
{
    same_contents_same_set();
    let changes = left.settle(edition);
    let set = left.standing().set;
    // Its objects are by rising URI.
    let _objects = set.as_slice();
    let next = resuming.next(alloc, set, changes.as_slice())?;
    resuming.advance(next, set);
    Ok(())
}
