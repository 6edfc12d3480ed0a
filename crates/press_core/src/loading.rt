//! What the journal of a press has: whose store it is, and what its editions leave.

ghost use Rattle.std.specs.Prelude.{◌≡◌, ◌≢◌, ◌⊎◌, ◌↔◌, ◌≤◌, ◌<◌, ◌+◌, ◌++◌, [], ◌∷◌, ℕ, List, Some, None, All, Any, length, IfOk, IfErr, IfSome, OnOk, OnErr, option_map};
ghost use Rattle.disk_api.specs.Content.{BothKnown};
ghost use Rattle.disk_api.specs.Runs.{LeavesOnly};
ghost use Rattle.gate_journal.specs.Answers.{CanAppend};
ghost use Rattle.gate_journal.specs.Format.{recovered, held_for};
ghost use Rattle.gate_journal.specs.View.{IsSafe, RecoversToInDoubt, stake_of};
ghost use Rattle.key_ids.specs.Base.{IsBase, rsync_scheme, https_scheme};
ghost use Rattle.press_records.specs.Store.{IsStoreRecord, stores, store_value};
ghost use Rattle.press_records.specs.Views.{parts_value};
ghost use Rattle.pub_set.specs.Objects.{IsAscending};
ghost use Rattle.rrdp_state.specs.Editions as rrdp;
ghost use Rattle.rrdp_state.specs.Exported.{Repository};
ghost use Rattle.rrdp_state.specs.Resuming.{IsToldBy, IsEnough};
ghost use Rattle.rrdp_state.specs.State as rrdp_state;
ghost use Rattle.editions.specs.Edition.{Edition};
ghost use Rattle.press_core.specs.JournalRecords.{store_for, press_limit, Finds};
ghost use Rattle.press_core.specs.Loading.{LoadedValue, IsLoadOf, IsLeftAs, IsInOrder, IsLoadFault, IsSameStore, IsStoreImage, anchor_of, loaded_value, disk_after, load_fault_of};
ghost use Rattle.press_core.specs.inner.Loads.{IsOpened, IsRead, IsHad, IsBegunBy, IsHeadedBy, IsStop, IsNoneFirst, IsNoStore, IsLoadStop, IsFoundIn, IsOtherSite, IsDifference, IsImageOf, Holds, bad_at};
ghost use Rattle.press_core.specs.declared.loading.LoadFault.TheVariants.{Memory};

use crate::reading::{ReadEditions, read_editions};
use disk_api::Disk;
use gate_journal::{AppendFault, Journal, JournalFault, OpenRefused};
use key_ids::{Site, SiteFault};
use key_roll::{KeyRow, Role, is_role};
use press_records::{RecoveredParts, StoreRecord, read_store};
use pub_set::{ObjectSet, same_contents_same_set};
use record_forms::ReadFault;
use rrdp_state::Rrdp;
use signer_api::PublicKey;
use std::alloc::{AllocError, Global};
use std::marker::Model;
use thiserror::Error;
use uuid::Uuid;

/// How many bytes a press's journal has at most: 1 GiB.
const JOURNAL_LIMIT: u64 = 1 << 30;

/// What a press's journal has, before it is audited.
#[derive(Drop)]
pub struct Loaded<D: Disk> {
    journal: Journal<D>,
    store: StoreRecord,
    left: RecoveredParts,
    rrdp: Rrdp,
}

impl<D: Disk> Model for Loaded<D> {
    ghost use Rattle.press_core.specs.Loading.{LoadedValue, IsInOrder, loaded_value};

    ghost Value = { LoadedValue D };

    ghost view = { λ loaded. loaded_value loaded.journal loaded.store loaded.left loaded.rrdp };

    ghost invariant = { λ loaded. IsInOrder (loaded_value loaded.journal loaded.store loaded.left loaded.rrdp) };
}

/// Why nothing is loaded.
#[derive(Debug, Drop, Error)]
pub enum LoadFault {
    /// The file is damaged at that offset.
    #[error("damaged at {at}")]
    Damaged { at: u64 },
    /// The record with that index, from 0, is none of a press.
    #[error("record {at} is bad")]
    BadRecord { at: u64 },
    /// The store is one of other bases: those of rsync where these differ, else those of RRDP.
    #[error("the store is of {kept}, not of {given}")]
    SiteDiffers { kept: String, given: String },
    #[error("the disk failed")]
    DiskFault,
    #[error("out of memory")]
    Memory,
}

impl From<JournalFault> for LoadFault {
    ghost use Rattle.std.specs.Prelude.{◌≡◌};
    ghost use Rattle.press_core.specs.Loading.{load_fault_of};

    ghost from_gives = { λ fault made. made ≡ load_fault_of fault };

    fn from(fault: JournalFault) -> LoadFault {
        match fault {
            JournalFault::DiskFault => LoadFault::DiskFault,
            JournalFault::Damaged { at } => LoadFault::Damaged { at },
            JournalFault::Memory => LoadFault::Memory,
        }
    }
}

impl From<AllocError> for LoadFault {
    ghost from_gives = { λ _ made. made ≡ Memory };

    fn from(_: AllocError) -> LoadFault {
        LoadFault::Memory
    }
}

/// The disk, handed back, and why nothing is loaded.
#[derive(Drop)]
pub struct LoadRefused<D: Disk> {
    pub disk: D,
    pub fault: LoadFault,
}

/// What a record that isn't read is called: that with this index.
pub(crate) fn bad(fault: ReadFault, at: u64) -> LoadFault
    ensures { result ≡ bad_at fault at }
{
    match fault {
        ReadFault::Bad => LoadFault::BadRecord { at },
        ReadFault::Memory => LoadFault::Memory,
    }
}

/// Opens a press's journal, and reads its records in turn. A file of at most 17 bytes is made a new
/// journal. Where there is no record, that of the store is written: with that session and these bases.
///
/// Refused in this order: `Damaged`, `BadRecord`, `SiteDiffers`. `DiskFault` and `Memory` come where
/// they occur. Each record is read alone, and what it puts is moved into the set: beside the set there
/// is never more in memory than the greatest record, as it was read and as what it puts, and the deltas
/// that are named.
pub fn load<D: Disk>(
    alloc: Global,
    disk: D,
    site: &Site,
    session: Uuid,
) -> Result<Loaded<D>, LoadRefused<D>>
    // What is loaded is what the disk stands for.
    ensures found { IfOk result (λ loaded. IfSome (D.content disk) (λ file.
        (editions : List Edition) × IsLoadOf site.now session file editions loaded)) }
    // Where the disk tells nothing, too, some editions leave it.
    ensures left { IfOk result (λ loaded. (editions : List Edition) × IsLeftAs editions loaded) }
    ensures order { IfOk result IsInOrder }
    ensures site { IfOk result (λ loaded. loaded.site ≡ site.now) }
    ensures durable { IfOk result (λ loaded. (image : List ℕ) → D.may_leave loaded.journal.disk image
        → IfSome (D.content disk) (λ file. (editions : List Edition) → IsLoadOf site.now session file editions loaded
        → Finds (store_for loaded.session loaded.site) editions image)) }
    ensures safe { IfOk result (λ loaded. IsSafe D.Disk loaded.journal) }

    ensures refused { IfErr result (λ e. IsLoadFault D.Disk site.now disk e.disk e.fault) }

    // On every answer the disk stands for the records for which it stood; only the store's may be new.
    ensures same { BothKnown (IsSameStore (store_for session site.now)) (D.content disk) (D.content (disk_after result)) }
    ensures later { D.fault_count disk ≤ D.fault_count (disk_after result) }

    // A crash at any moment leaves an image from before the call, or the same records, or the store's alone.
    ensures any_moment { LeavesOnly D.Disk disk (disk_after result) (λ image. D.may_leave disk image
        ⊎ IfSome (D.content disk) (λ file. IsStoreImage (store_for session site.now) file image)) }
{
    let mut journal = match Journal::open(alloc, disk, JOURNAL_LIMIT) {
        Ok(journal) => journal,
        Err(OpenRefused { disk, fault }) => {
            let fault = LoadFault::from(fault);
            return Err(LoadRefused { disk, fault });
        }
    };
    match read_all(alloc, &mut journal, site, session) {
        Ok(Found { store, left, rrdp }) => Ok(Loaded {
            journal,
            store,
            left,
            rrdp,
        }),
        Err(fault) => {
            let disk = journal.close();
            Err(LoadRefused { disk, fault })
        }
    }
}

// What the records of a journal come to.
#[derive(Drop)]
struct Found {
    store: StoreRecord,
    left: RecoveredParts,
    rrdp: Rrdp,
}

// The store's record, the editions' one after another, and whether the bases are the store's.
fn read_all<D: Disk>(
    alloc: Global,
    journal: &mut Journal<D>,
    site: &Site,
    session: Uuid,
) -> Result<Found, LoadFault>
    requires { IsOpened D.Disk journal.old }
    ensures found { IfOk result (λ found. IsFoundIn session journal.old.records
        (loaded_value journal.new found.store found.left found.rrdp)) }
    ensures site { IfOk result (λ found. found.store.site ≡ site.now) }
    ensures in_order { IfOk result (λ found. IsInOrder (loaded_value journal.new found.store found.left found.rrdp)) }
    ensures opened { OnOk result (IsOpened D.Disk journal.new) }
    ensures refused { IfErr result (IsLoadStop D.Disk site.now journal.old journal.new.disk) }
    ensures holds { Holds (store_for session site.now) journal.old.records (D.content journal.new.disk) }
    ensures images { LeavesOnly D.Disk journal.old.disk journal.new.disk (IsImageOf (store_for session site.now) journal.old.records) }
    ensures later { D.fault_count journal.old.disk ≤ D.fault_count journal.new.disk }
{
    same_contents_same_set();
    let store = store_of(alloc, journal, site, session)?;
    let own = Uuid::from_bytes(store.session);
    let read = read_editions(alloc, journal, &store.site, own)?;
    same_site(alloc, &store.site, site)?;
    Ok(found_of(store, read))
}

// What was read of a store, with the files of its session.
fn found_of(store: StoreRecord, read: ReadEditions) -> Found
    ensures store { result.store ≡ store }
    ensures left { parts_value result.left ≡ read.left }
    ensures ascending { IsAscending result.left.set }
    ensures files { (repository : Repository) (told : ℕ) (editions : List rrdp.Edition)
        → IsToldBy repository told editions read.resuming → IsEnough told editions
        → rrdp_state.StandsFor repository editions result.rrdp }
    ensures serial { result.rrdp.serial ≡ read.resuming.serial }
{
    let ReadEditions { left, resuming } = read;
    let left = left.into_parts();
    // Its objects are by rising URI.
    let _objects = left.set.as_slice();
    let rrdp = resuming.open();
    Found { store, left, rrdp }
}

// The store's record, which is written where there is none.
fn store_of<D: Disk>(
    alloc: Global,
    journal: &mut Journal<D>,
    site: &Site,
    session: Uuid,
) -> Result<StoreRecord, LoadFault>
    requires { IsOpened D.Disk journal.old }
    ensures had { IfOk result (λ store. IsHad D.Disk (store_for session site.now) (store_value store) journal.old journal.new) }
    ensures named { IfOk result (λ store. IfSome journal.new.records (IsHeadedBy (store_value store))) }
    ensures counted { OnOk result (0 < length journal.new.sizes) }
    ensures opened { OnOk result (IsOpened D.Disk journal.new) }
    ensures refused { IfErr result (IsStop D.Disk (IsNoStore D.Disk journal.old journal.new.disk) journal.old.disk journal.new.disk) }
    ensures holds { Holds (store_for session site.now) journal.old.records (D.content journal.new.disk) }
    ensures images { LeavesOnly D.Disk journal.old.disk journal.new.disk (IsImageOf (store_for session site.now) journal.old.records) }
    ensures later { D.fault_count journal.old.disk ≤ D.fault_count journal.new.disk }
{
    if journal.count() == 0 {
        return begin_store(alloc, journal, site, session);
    }
    read_first(alloc, journal)
}

// The store whose record the first one is. It lets go of the record.
fn read_first<D: Disk>(alloc: Global, journal: &mut Journal<D>) -> Result<StoreRecord, LoadFault>
    requires opened { IsOpened D.Disk journal.old }
    requires begun { 0 < length journal.old.sizes }
    ensures named { IfOk result (λ store. IfSome journal.old.records (IsHeadedBy (store_value store))) }
    ensures refused { IfErr result (IsStop D.Disk (IsNoneFirst journal.old.records) journal.old.disk journal.new.disk) }
    ensures journal { IsRead D.Disk journal.old journal.new }
    ensures still_open { OnOk result (IsOpened D.Disk journal.new) }
{
    let bytes = journal.record(alloc, 0)?;
    match read_store(alloc, &bytes) {
        Ok(store) => Ok(store),
        Err(fault) => Err(bad(fault, 0)),
    }
}

// A new store, of that session and these bases.
fn begin_store<D: Disk>(
    alloc: Global,
    journal: &mut Journal<D>,
    site: &Site,
    session: Uuid,
) -> Result<StoreRecord, LoadFault>
    requires opened { IsOpened D.Disk journal.old }
    requires empty { journal.old.sizes ≡ [] }
    ensures begun { IfOk result (λ store. IsBegunBy (store_for session site.now) (store_value store) journal.old journal.new) }
    ensures opened { OnOk result (IsOpened D.Disk journal.new) }
    ensures refused { IfErr result (IsStop D.Disk (λ at. ⊥) journal.old.disk journal.new.disk) }
    ensures holds { Holds (store_for session site.now) journal.old.records (D.content journal.new.disk) }
    ensures images { LeavesOnly D.Disk journal.old.disk journal.new.disk (IsImageOf (store_for session site.now) journal.old.records) }
    ensures later { D.fault_count journal.old.disk ≤ D.fault_count journal.new.disk }
{
    let store = new_store(alloc, site, session)?;
    let record = store.write(alloc)?;
    journal.reserve(alloc, record.len())?;
    append_first(journal, &record)?;
    Ok(store)
}

// The store of that session and these bases, which has a record that fits into an empty journal.
fn new_store(alloc: Global, site: &Site, session: Uuid) -> Result<StoreRecord, AllocError>
    ensures store { IfOk result (λ store. store_value store ≡ store_for session site.now) }
    ensures named { IfOk result (λ store. IsStoreRecord (store_value store) (stores.spelling (store_value store))) }
    ensures fits { IfOk result (λ store. held_for [] + (length (stores.spelling (store_value store)) + 9) ≤ press_limit) }
{
    Ok(StoreRecord {
        session: *session.as_bytes(),
        site: copied(alloc, site)?,
    })
}

// Puts a record into an open journal, in which it fits.
fn append_first<D: Disk>(journal: &mut Journal<D>, record: &[u8]) -> Result<(), LoadFault>
    requires room { length record.now < journal.old.room }
    requires fits { CanAppend journal.old (length record.now + 9) }
    ensures appended { OnOk result (journal.new.records ≡ option_map (λ all. all ++ record.now ∷ []) journal.old.records) }
    ensures sizes { OnOk result (journal.new.sizes ≡ journal.old.sizes ++ length record.now ∷ []) }
    ensures open { OnOk result (journal.new.shut ≡ None) }
    ensures refused { IfErr result (IsStop D.Disk (λ at. ⊥) journal.old.disk journal.new.disk) }
    ensures doubted { OnErr result ((journal.new.records ≡ journal.old.records) × (journal.new.doubt ≡ Some record.now)) }
    ensures limit { journal.new.limit ≡ journal.old.limit }
    ensures later { D.fault_count journal.old.disk ≤ D.fault_count journal.new.disk }
    ensures safe { IsSafe D.Disk journal.new }
    ensures any_moment { LeavesOnly D.Disk journal.old.disk journal.new.disk
        (RecoversToInDoubt journal.old.limit journal.old.records (stake_of journal.old.shut journal.old.doubt record.now)) }
{
    match journal.append(record) {
        Ok(()) => Ok(()),
        Err(AppendFault::DiskFault { .. }) => Err(LoadFault::DiskFault),
        Err(AppendFault::Shut { .. }) => unreachable!(),
        Err(AppendFault::JournalFull { .. }) => unreachable!(),
    }
}

// The same bases in memory of their own.
fn copied(alloc: Global, site: &Site) -> Result<Site, AllocError>
    ensures copy { IfOk result (λ copy. copy ≡ site.now) }
    ensures bases { OnOk result (IsBase rsync_scheme site.now.rsync × IsBase https_scheme site.now.rrdp) }
{
    match Site::read(alloc, site.rsync(), site.rrdp()) {
        Ok(copy) => Ok(copy),
        Err(SiteFault::Memory) => Err(AllocError),
        Err(SiteFault::BadRsync | SiteFault::BadRrdp) => unreachable!(),
    }
}

// Whether the store is that of these bases; and else which of them differ.
fn same_site(alloc: Global, kept: &Site, given: &Site) -> Result<(), LoadFault>
    ensures same { OnOk result (kept.now ≡ given.now) }
    ensures other { IfErr result (IsOtherSite kept.now given.now) }
{
    if kept.rsync() != given.rsync() {
        return Err(differs(alloc, kept.rsync(), given.rsync())?);
    }
    if kept.rrdp() != given.rrdp() {
        return Err(differs(alloc, kept.rrdp(), given.rrdp())?);
    }
    Ok(())
}

fn differs(alloc: Global, kept: &str, given: &str) -> Result<LoadFault, AllocError>
    ensures { IfOk result (IsDifference kept.now given.now) }
{
    Ok(LoadFault::SiteDiffers {
        kept: String::from_str(alloc, kept)?,
        given: String::from_str(alloc, given)?,
    })
}

fn signers_needed(rows: &[KeyRow]) -> u64
    ensures enough { All (λ row. row.signer < result) rows.now }
    ensures needed { (result ≡ 0) ⊎ Any (λ row. row.signer + 1 ≡ result) rows.now }
{
    let mut most = 0;
    for row in rows {
        most = std::cmp::max(most, u64::from(row.signer) + 1);
    }
    most
}

// The key of the trust anchor among these keys.
fn anchor_key(rows: &[KeyRow]) -> Option<&PublicKey>
    ensures { option_map (λ key. key.now.bytes) result ≡ anchor_of rows.now }
{
    let row = rows
        .iter()
        .find(|row| row.desk == 0 && is_role(row.role, Role::Current))?;
    Some(&row.key)
}

impl<D: Disk> Loaded<D> {
    /// The serial of the last edition, and 0 where there is none.
    pub fn serial(&self) -> u64
        ensures { result ≡ self.now.serial }
    {
        self.left.serial
    }

    /// The moment of the last edition, in seconds since 1970, and 0 where there is none.
    pub fn moment(&self) -> u64
        ensures { result ≡ self.now.moment }
    {
        self.left.moment
    }

    /// How many commands of each desk the last edition takes in, and none of any desk where there is no
    /// edition.
    pub fn cut(&self) -> &[u64]
        ensures { result.now ≡ self.now.cut }
    {
        self.left.cut.as_slice()
    }

    /// What stands after the last edition.
    pub fn set(&self) -> &ObjectSet
        ensures { result.now ≡ self.now.set }
    {
        &self.left.set
    }

    /// The key of the trust anchor. There is none exactly where there is no edition.
    pub fn anchor(&self) -> Option<&PublicKey>
        ensures key { option_map (λ key. key.now.bytes) result ≡ anchor_of self.now.rows }
        ensures none { (result ≡ None) ↔ (self.now.serial ≡ 0) }
    {
        anchor_key(self.left.rows.as_slice())
    }

    /// The greatest signer of the live keys, counted from 1, and 0 where there is no key.
    pub fn signers(&self) -> u64
        ensures enough { All (λ row. row.signer < result) self.now.rows }
        ensures needed { (result ≡ 0) ⊎ Any (λ row. row.signer + 1 ≡ result) self.now.rows }
    {
        signers_needed(self.left.rows.as_slice())
    }

    /// Its journal, whose store it is, what stands, and the RRDP files.
    pub(crate) fn into_parts(self) -> (Journal<D>, StoreRecord, RecoveredParts, Rrdp)
        ensures parts { loaded_value result.0 result.1 result.2 result.3 ≡ self }
        ensures kept { IsInOrder self }
    {
        (self.journal, self.store, self.left, self.rrdp)
    }

    /// The repository whose store it is.
    pub fn site(&self) -> &Site
        ensures { result.now ≡ self.now.site }
    {
        &self.store.site
    }

    /// The disk, as it stands. It holds the records that were found, and so does what a crash then
    /// leaves.
    pub fn close(self) -> D
        ensures disk { result ≡ self.journal.disk }
        ensures safe { IsSafe D.Disk self.journal }
    {
        self.journal.close()
    }
}
