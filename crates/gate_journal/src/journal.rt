// The journal, whose file holds its records between a header and a closed gate.
ghost use Rattle.std.specs.Prelude.{◌≡◌, ◌≤◌, ◌<◌, ◌+◌, ◌-◌, ◌++◌, [], ◌∷◌, ◌↔◌, ◌⊎◌, ◌^◌, ℕ, List, Option, Some, None, length, map, min, slice_get, IfOk, IfErr, IfSome, take, drop, vec_capacity, OnOk, OnErr, IsSome, IsTrue, MatchOption, MatchResult, cond, vec_len};
ghost use Rattle.std.specs.Option.{option_map};
ghost use Rattle.disk_api.specs.Content.{BothKnown};
ghost use Rattle.disk_api.specs.Runs.{LeavesOnly, Rests};
ghost use Rattle.host_calls.specs.Rise.{HasRisen};
ghost use Rattle.gate_journal.specs.Format.{spelled, recovered, damaged_at, taken_by, held_for, payloads, opened, IsUnopened};
ghost use Rattle.gate_journal.specs.Storing.{stored, entry_bytes};
ghost use Rattle.gate_journal.specs.View.{View, RecoversToKnown, RecoversToOrWith, RecoversToInDoubt, stake_of, IsSafe, HasSizes, IsSameButRoom};

use crate::open::{fill_all, find};
use crate::place::Place;
use crate::store::store;
use crate::{AppendFault, Entry, JournalFault, OpenRefused, Rose};
use disk_api::{Disk, DiskStop};
use std::alloc::{AllocError, Global};
use std::marker::Model;
use std::mem;

/// A journal over a disk.
#[derive(Drop)]
pub struct Journal<D: Disk> {
    // For the calls of the disk.
    alloc: Global,
    disk: D,
    limit: u64,
    // The offset just past the closed gate.
    held: u64,
    count: usize,
    // Where the records lie, and then places for those that come.
    places: Vec<Place>,
    // Where records are put together before they are written.
    buffer: Vec<u8>,
    // The record that a fault has left in doubt.
    doubt: Option<Entry>,
    shut: Option<(u64, u64)>,
}

impl<D: Disk> Model for Journal<D> {
    ghost use Rattle.std.specs.Prelude.{◌-◌, nat_lt, cond, take, length, vec_capacity};
    ghost use Rattle.gate_journal.specs.View.{View};
    ghost use Rattle.gate_journal.specs.inner.Kept.{IsConsistentJournal, IsGuarded, shows, sizes_of};

    ghost Value = { View D };

    ghost view = { λ j. record { disk = j.disk; records = shows j.count (D.content j.disk); sizes = sizes_of j.count j.places.items; limit = j.limit; places = length j.places.items - j.count; room = cond (nat_lt j.count (length j.places.items)) (vec_capacity j.buffer - 8) 0; doubt = j.doubt; shut = j.shut } };

    ghost invariant = { λ j. IsConsistentJournal (D.content j.disk) (D.may_leave j.disk) j.count j.held j.places.items j.shut
        × IsGuarded (D.content j.disk) (D.may_leave j.disk) j.limit j.count j.doubt j.shut };
}

impl<D: Disk> Journal<D> {
    ghost use Rattle.gate_journal.specs.Answers.{CanAppend, IsRefusal, IsAppendFault, IsFaultAnswer, IsReadFault, IsSameButDisk, disk_after};

    /// Opens the journal on a disk, beginning with a sync. A file of at most 17 bytes is made a new
    /// journal, and a longer one stays as it is. It reads the head of each record.
    ///
    /// A crash at any moment leaves the records that the disk stood for. `alloc` is kept for the calls
    /// of the disk. `limit` is in bytes.
    pub fn open(alloc: Global, disk: D, limit: u64) -> Result<Journal<D>, OpenRefused<D>>
        // What is found is what the disk stands for, and the file is whole.
        ensures records { IfOk result (λ j. j.records ≡ option_map recovered (D.content disk)) }
        // A file of at most 17 bytes is now a header and a closed gate, and a longer one is as it was.
        ensures bytes { IfOk result (λ j. D.content j.disk ≡ option_map opened (D.content disk)) }
        ensures whole { IfOk result (λ j. IfSome (D.content disk) (λ bytes. damaged_at limit bytes ≡ None)) }
        ensures sizes { IfOk result (λ j. HasSizes j) }
        ensures open { IfOk result (λ j. (j.limit ≡ limit) × (j.shut ≡ None)) }
        ensures durable { IfOk result (λ j. (c : List ℕ) → D.may_leave j.disk c → RecoversToKnown limit j.records c) }
        ensures safe { IfOk result (λ j. IsSafe D.Disk j) }

        ensures damaged { IfErr result (λ e. (at : ℕ) → e.fault ≡ JournalFault.Damaged at
            → (D.content e.disk ≡ D.content disk) × IfSome (D.content disk) (λ bytes. damaged_at limit bytes ≡ Some at)) }
        ensures failed { IfErr result (λ e. e.fault ≡ JournalFault.DiskFault → HasRisen (D.fault_count disk) (D.fault_count e.disk)) }
        ensures same { IfErr result (λ e. option_map recovered (D.content e.disk) ≡ option_map recovered (D.content disk)) }
        ensures unopened { IfErr result (λ e. BothKnown IsUnopened (D.content disk) (D.content e.disk)) }

        ensures later { D.fault_count disk ≤ D.fault_count (disk_after result) }

        // A crash at any moment leaves an image from before the call, or the same records.
        ensures any_moment { LeavesOnly D.Disk disk (disk_after result) (λ c. D.may_leave disk c ⊎ RecoversToKnown limit (option_map recovered (D.content disk)) c) }
    {
        let mut disk = disk;
        match find(alloc, &mut disk, limit) {
            Ok(found) => Ok(Journal {
                alloc,
                disk,
                limit,
                held: found.held,
                count: found.places.len(),
                places: found.places,
                buffer: Vec::new(alloc),
                doubt: None,
                shut: None,
            }),
            Err(fault) => Err(OpenRefused { disk, fault }),
        }
    }

    /// How many records there are.
    pub fn count(&self) -> u64
        ensures count { result ≡ length self.now.sizes }
        ensures sizes { HasSizes self.now }
    {
        self.count as u64
    }

    /// The offset just past the closed gate: the bytes that the records take, with the header. In
    /// bytes.
    pub fn held(&self) -> u64
        ensures held { result ≡ held_for self.now.sizes }
        ensures sizes { HasSizes self.now }
    {
        self.held
    }

    /// Whether an earlier call answered `DiskFault`.
    pub fn is_shut(&self) -> bool
        ensures shut { IsTrue result ↔ IsSome self.now.shut }
        ensures safe { IsSafe D.Disk self.now }
    {
        self.shut.is_some()
    }

    /// The fault that shut the journal.
    pub fn shut_by(&self) -> Option<Rose<D>>
        ensures { result ≡ self.now.shut }
    {
        match self.shut {
            Some((before, after)) => Some(Rose::new(before, after)),
            None => None,
        }
    }

    /// The disk, as it stands.
    pub fn close(self) -> D
        ensures disk { result ≡ self.disk }
        ensures safe { IsSafe D.Disk self }
    {
        let Journal { disk, .. } = self;
        disk
    }

    /// Makes room for a record of `bytes` bytes, so that `append` takes no memory.
    pub fn reserve(&mut self, _alloc: Global, bytes: usize) -> Result<(), AllocError>
        ensures room { OnOk result (bytes < self.new.room) }
        ensures more { self.old.room ≤ self.new.room }
        ensures same { IsSameButRoom self.old self.new }
    {
        let needed = bytes.checked_add(9).ok_or(AllocError)?;
        add_place(&mut self.places, self.count)?;
        self.buffer.reserve(needed)
    }

    /// Makes a place for one record more, so that `append_built` takes no memory.
    pub fn reserve_place(&mut self, _alloc: Global) -> Result<(), AllocError>
        ensures place { OnOk result (0 < self.new.places) }
        ensures more { self.old.places ≤ self.new.places }
        ensures room { self.old.room ≤ self.new.room }
        ensures same { IsSameButRoom self.old self.new }
    {
        add_place(&mut self.places, self.count)
    }

    /// Why a record that takes `needed` bytes in the file, 9 of them for its gate and its length,
    /// isn't appended: the journal is shut, or full.
    pub fn refusal(&self, needed: u64) -> Option<AppendFault<D>>
        ensures answer { MatchOption result (CanAppend self.now needed) (λ fault. IsRefusal fault needed self.now) }
        ensures safe { IsSafe D.Disk self.now }
    {
        if let Some((before, after)) = self.shut {
            return Some(AppendFault::Shut {
                rose: Rose::new(before, after),
            });
        }
        let held = self.held;
        if held > self.limit || self.limit - held < needed {
            return Some(AppendFault::JournalFull { held, needed });
        }
        None
    }

    /// Appends a record, by four calls of the disk and with no memory of its own. At `Ok` the record
    /// is kept: from then on each crash leaves it. A large buffer is given back then.
    ///
    /// Refused in this order: `Shut`, `JournalFull`, `DiskFault`.
    pub fn append(&mut self, payload: &[u8]) -> Result<(), AppendFault<D>>
        requires { length payload.now < self.old.room }

        ensures appended { OnOk result (self.new.records ≡ option_map (λ all. all ++ payload.now ∷ []) self.old.records) }
        ensures bytes { OnOk result (D.content self.new.disk ≡ option_map (stored (held_for self.old.sizes) (entry_bytes payload.now)) (D.content self.old.disk)) }
        ensures sizes { OnOk result (self.new.sizes ≡ self.old.sizes ++ length payload.now ∷ []) }
        ensures place { OnOk result (CanAppend self.old (length payload.now + 9) × (self.new.shut ≡ None)) }
        ensures durable { OnOk result ((c : List ℕ) → D.may_leave self.new.disk c → RecoversToKnown self.new.limit self.new.records c) }
        ensures given_back { OnOk result (self.new.room ≤ 2 ^ 16) }

        ensures refused { IfErr result (λ fault. IsAppendFault D.Disk fault payload.now self.old self.new) }
        ensures kept { OnErr result ((self.new.records ≡ self.old.records) × (self.new.sizes ≡ self.old.sizes)) }
        ensures limit { self.new.limit ≡ self.old.limit }
        ensures later { D.fault_count self.old.disk ≤ D.fault_count self.new.disk }

        // After a fault the new record is in doubt, for as long as the journal stays shut.
        ensures safe { IsSafe D.Disk self.new }

        // A crash at any moment of the call leaves the records from before it, with the new one or
        // without; a shut journal's with the one that was in doubt or without.
        ensures any_moment { LeavesOnly D.Disk self.old.disk self.new.disk (RecoversToInDoubt self.old.limit self.old.records (stake_of self.old.shut self.old.doubt payload.now)) }
    {
        if let Some(fault) = self.refusal(payload.len() as u64 + 9) {
            return Err(fault);
        }
        let empty = Vec::new(self.alloc);
        let buffer = mem::replace(&mut self.buffer, empty);
        match self.put(Entry::spelled(buffer, payload)) {
            Ok(entry) => {
                self.buffer = kept(self.alloc, entry.into_buffer());
                Ok(())
            }
            Err(rose) => Err(AppendFault::DiskFault { rose }),
        }
    }

    /// Appends a record as `append` does, from the buffer in which it was put together. It is given
    /// back after `Ok` and after a refusal.
    pub fn append_built(&mut self, entry: Entry) -> Result<(), AppendFault<D>>
        requires { 0 < self.old.places }

        ensures appended { OnOk result (self.new.records ≡ option_map (λ all. all ++ entry ∷ []) self.old.records) }
        ensures bytes { OnOk result (D.content self.new.disk ≡ option_map (stored (held_for self.old.sizes) (entry_bytes entry)) (D.content self.old.disk)) }
        ensures sizes { OnOk result (self.new.sizes ≡ self.old.sizes ++ length entry ∷ []) }
        ensures place { OnOk result (CanAppend self.old (length entry + 9) × (self.new.shut ≡ None)) }
        ensures durable { OnOk result ((c : List ℕ) → D.may_leave self.new.disk c → RecoversToKnown self.new.limit self.new.records c) }
        ensures given_back { OnOk result (self.new.room ≤ self.old.room) }

        ensures refused { IfErr result (λ fault. IsAppendFault D.Disk fault entry self.old self.new) }
        ensures kept { OnErr result ((self.new.records ≡ self.old.records) × (self.new.sizes ≡ self.old.sizes)) }
        ensures limit { self.new.limit ≡ self.old.limit }
        ensures later { D.fault_count self.old.disk ≤ D.fault_count self.new.disk }
        ensures safe { IsSafe D.Disk self.new }
        ensures any_moment { LeavesOnly D.Disk self.old.disk self.new.disk (RecoversToInDoubt self.old.limit self.old.records (stake_of self.old.shut self.old.doubt entry)) }
    {
        if let Some(fault) = self.refusal(entry.len() + 9) {
            return Err(fault);
        }
        match self.put(entry) {
            Ok(_entry) => Ok(()),
            Err(rose) => Err(AppendFault::DiskFault { rose }),
        }
    }

    /// Appends a record for which there is place and room, and gives it back. Where the disk fails, the
    /// journal is shut, and keeps it.
    fn put(&mut self, entry: Entry) -> Result<Entry, Rose<D>>
        requires free { 0 < self.old.places }
        requires place { CanAppend self.old (length entry + 9) }
        ensures appended { OnOk result (self.new.records ≡ option_map (λ all. all ++ entry ∷ []) self.old.records) }
        ensures bytes { OnOk result (D.content self.new.disk ≡ option_map (stored (held_for self.old.sizes) (entry_bytes entry)) (D.content self.old.disk)) }
        ensures sizes { OnOk result (self.new.sizes ≡ self.old.sizes ++ length entry ∷ []) }
        ensures open { OnOk result (self.new.shut ≡ None) }
        ensures durable { OnOk result ((c : List ℕ) → D.may_leave self.new.disk c → RecoversToKnown self.new.limit self.new.records c) }
        ensures room { OnOk result (self.new.room ≤ self.old.room) }
        ensures rose { IfErr result (λ rose. IsFaultAnswer D.Disk rose entry self.old self.new) }
        ensures kept { OnErr result ((self.new.records ≡ self.old.records) × (self.new.sizes ≡ self.old.sizes)) }
        ensures limit { self.new.limit ≡ self.old.limit }
        ensures later { D.fault_count self.old.disk ≤ D.fault_count self.new.disk }
        ensures safe { IsSafe D.Disk self.new }
        ensures any_moment { LeavesOnly D.Disk self.old.disk self.new.disk (RecoversToOrWith self.old.limit self.old.records entry) }
    {
        let before = self.disk.faults();
        let size = entry.len();
        match store(self.alloc, &mut self.disk, self.held, entry.bytes()) {
            Ok(()) => {
                self.places[self.count] = Place {
                    at: self.held + 8,
                    size,
                };
                self.count += 1;
                self.held += size + 9;
                Ok(entry)
            }
            Err(_) => {
                let after = self.disk.faults();
                self.doubt = Some(entry);
                self.shut = Some((before, after));
                Err(Rose::new(before, after))
            }
        }
    }

    /// The payload of a record, read from the disk. A fault of the disk shuts the journal. It never
    /// answers `Damaged`: a file that somebody has cut short is answered as out of memory. Records
    /// are numbered from 0.
    pub fn record(&mut self, alloc: Global, index: u64) -> Result<Vec<u8>, JournalFault>
        requires { index < length self.old.sizes }

        ensures payload { IfOk result (λ payload. IfSome self.old.records (λ all. slice_get all index ≡ Some payload.items)) }
        ensures size { IfOk result (λ payload. slice_get self.old.sizes index ≡ Some (length payload.items)) }
        ensures fault { IfErr result (λ fault. IsReadFault D.Disk fault self.old self.new) }
        ensures open { OnOk result (self.new.shut ≡ self.old.shut) }
        ensures same { IsSameButDisk self.old self.new }
        ensures disk { Rests D.Disk self.old.disk self.new.disk }
        ensures later { D.fault_count self.old.disk ≤ D.fault_count self.new.disk }
        ensures safe { IsSafe D.Disk self.new }
    {
        let place = self.places[index as usize];
        self.read(alloc, place)
    }

    /// Reads the payload of a record into a buffer, in place of what that held. One buffer serves for all
    /// records, and takes no memory once it has room. It answers faults as `record` does.
    pub fn record_into(&mut self, index: u64, into: &mut Vec<u8>) -> Result<(), JournalFault>
        requires { index < length self.old.sizes }

        ensures payload { OnOk result (IfSome self.old.records (λ all. slice_get all index ≡ Some into.new.items)) }
        ensures size { OnOk result (slice_get self.old.sizes index ≡ Some (length into.new.items)) }
        ensures fault { IfErr result (λ fault. IsReadFault D.Disk fault self.old self.new) }
        ensures open { OnOk result (self.new.shut ≡ self.old.shut) }
        ensures same { IsSameButDisk self.old self.new }
        ensures disk { Rests D.Disk self.old.disk self.new.disk }
        ensures later { D.fault_count self.old.disk ≤ D.fault_count self.new.disk }
        ensures safe { IsSafe D.Disk self.new }
    {
        let place = self.places[index as usize];
        self.read_over(place, into)
    }

    /// Reads the first bytes of a record's payload, as many as there are or as there is room for, and
    /// says how many. It takes no memory of its own, and answers faults as `record` does. Records are
    /// numbered from 0.
    pub fn front(&mut self, index: u64, into: &mut [u8]) -> Result<usize, JournalFault>
        requires { index < length self.old.sizes }

        ensures size { IfOk result (λ n. IfSome (slice_get self.old.sizes index) (λ size. n ≡ min (length into.old) size)) }
        ensures front { IfOk result (λ n. IfSome self.old.records (λ all. IfSome (slice_get all index) (λ payload. take n into.new ≡ take n payload))) }
        ensures rest { IfOk result (λ n. drop n into.new ≡ drop n into.old) }
        ensures fault { IfErr result (λ fault. IsReadFault D.Disk fault self.old self.new) }
        ensures open { OnOk result (self.new.shut ≡ self.old.shut) }
        ensures same { IsSameButDisk self.old self.new }
        ensures disk { Rests D.Disk self.old.disk self.new.disk }
        ensures later { D.fault_count self.old.disk ≤ D.fault_count self.new.disk }
        ensures safe { IsSafe D.Disk self.new }
    {
        let place = self.places[index as usize];
        let want = into.len().min(place.size as usize);
        match self.read_into(self.alloc, place.at, &mut into[..want]) {
            Ok(()) => Ok(want),
            Err(fault) => Err(fault),
        }
    }

    /// The records as they lie in the file, one behind the other, each with its gate and its length;
    /// `payload` finds one in them. It answers faults as `record` does.
    pub fn body(&mut self, alloc: Global) -> Result<Vec<u8>, JournalFault>
        ensures body { IfOk result (λ body. IfSome self.old.records (λ all. body.items ≡ spelled all)) }
        ensures size { IfOk result (λ body. length body.items ≡ taken_by self.old.sizes) }
        ensures fault { IfErr result (λ fault. IsReadFault D.Disk fault self.old self.new) }
        ensures open { OnOk result (self.new.shut ≡ self.old.shut) }
        ensures same { IsSameButDisk self.old self.new }
        ensures disk { Rests D.Disk self.old.disk self.new.disk }
        ensures later { D.fault_count self.old.disk ≤ D.fault_count self.new.disk }
        ensures safe { IsSafe D.Disk self.new }
    {
        let size = self.held - 17;
        self.read(alloc, Place { at: 16, size })
    }

    /// The payload of a record within the bytes of all. Records are numbered from 0.
    pub fn payload<'a>(&self, body: &'a [u8], index: u64) -> &'a [u8]
        requires index { index < length self.now.sizes }
        requires body { length body.now ≡ taken_by self.now.sizes }
        ensures { slice_get (payloads self.now.sizes body.now) index ≡ Some result.now }
    {
        let Place { at, size } = self.places[index as usize];
        let start = (at - 16) as usize;
        &body[start..start + size as usize]
    }

    /// Reads a part of the file.
    fn read(&mut self, alloc: Global, place: Place) -> Result<Vec<u8>, JournalFault>
        ensures size { IfOk result (λ part. length part.items ≡ place.size) }
        ensures part { IfOk result (λ part. IfSome (D.content self.old.disk) (λ bytes. part.items ≡ take place.size (drop place.at bytes))) }
        ensures fault { IfErr result (λ fault. IsReadFault D.Disk fault self.old self.new) }
        ensures open { OnOk result (self.new.shut ≡ self.old.shut) }
        ensures same { IsSameButDisk self.old self.new }
        ensures disk { Rests D.Disk self.old.disk self.new.disk }
        ensures later { D.fault_count self.old.disk ≤ D.fault_count self.new.disk }
        ensures safe { IsSafe D.Disk self.new }
    {
        let mut part = Vec::new(alloc);
        self.read_over(place, &mut part)?;
        Ok(part)
    }

    /// Reads a part of the file over what a buffer holds.
    fn read_over(&mut self, place: Place, part: &mut Vec<u8>) -> Result<(), JournalFault>
        ensures size { OnOk result (length part.new.items ≡ place.size) }
        ensures part { OnOk result (IfSome (D.content self.old.disk) (λ bytes. part.new.items ≡ take place.size (drop place.at bytes))) }
        ensures fault { IfErr result (λ fault. IsReadFault D.Disk fault self.old self.new) }
        ensures open { OnOk result (self.new.shut ≡ self.old.shut) }
        ensures same { IsSameButDisk self.old self.new }
        ensures disk { Rests D.Disk self.old.disk self.new.disk }
        ensures later { D.fault_count self.old.disk ≤ D.fault_count self.new.disk }
        ensures safe { IsSafe D.Disk self.new }
    {
        let disk_alloc = self.alloc;
        part.resize(place.size as usize, 0)?;
        self.read_into(disk_alloc, place.at, part.as_mut_slice())
    }

    /// Reads the bytes from `at` on, as many as there is room for. A fault of the disk shuts the journal.
    fn read_into(
        &mut self,
        disk_alloc: Global,
        at: u64,
        into: &mut [u8],
    ) -> Result<(), JournalFault>
        requires { at + length into.old < 2 ^ 64 }
        ensures part { OnOk result (IfSome (D.content self.old.disk) (λ bytes. into.new ≡ take (length into.old) (drop at bytes))) }
        ensures fault { IfErr result (λ fault. IsReadFault D.Disk fault self.old self.new) }
        ensures open { OnOk result (self.new.shut ≡ self.old.shut) }
        ensures same { IsSameButDisk self.old self.new }
        ensures disk { Rests D.Disk self.old.disk self.new.disk }
        ensures later { D.fault_count self.old.disk ≤ D.fault_count self.new.disk }
        ensures safe { IsSafe D.Disk self.new }
    {
        let before = self.disk.faults();
        match fill_all(disk_alloc, &mut self.disk, at, into) {
            Ok(()) => Ok(()),
            Err(DiskStop::Fault) => {
                let after = self.disk.faults();
                self.shut = self.shut.or(Some((before, after)));
                Err(JournalFault::DiskFault)
            }
            Err(DiskStop::Memory) => Err(JournalFault::Memory),
        }
    }
}

/// How many bytes of a buffer are kept for the next record.
const BUFFER_KEPT: usize = 1 << 16;

/// An empty buffer: this one, if it isn't large.
fn kept(alloc: Global, buffer: Vec<u8>) -> Vec<u8>
    ensures items { result.items ≡ [] }
    ensures small { vec_capacity result ≤ 2 ^ 16 }
{
    if buffer.capacity() > BUFFER_KEPT {
        return Vec::new(alloc);
    }
    let mut buffer = buffer;
    buffer.clear();
    buffer
}

/// Makes a place for one record more than there are.
fn add_place(places: &mut Vec<Place>, count: usize) -> Result<(), AllocError>
    requires { count ≤ length places.old.items }
    ensures free { OnOk result (count < length places.new.items) }
    ensures counted { count ≤ length places.new.items }
    ensures more { length places.old.items ≤ length places.new.items }
    ensures same { take count places.new.items ≡ take count places.old.items }
{
    if count == places.len() {
        places.reserve(1)?;
        places.push_reserved(Place { at: 0, size: 0 });
    }
    Ok(())
}
