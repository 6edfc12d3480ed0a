//! What is kept of editions for the next one and for their export (RFC 8182 section 3.3).

ghost use Rattle.std.specs.Prelude.{◌≡◌, ◌+◌, List, [], ◌∷◌, length, map, IfOk};
ghost use Rattle.rrdp_text.specs.Texts.{snapshot_text};
ghost use Rattle.outlet_api.specs.Exports.{put_of, removal_of};
ghost use Rattle.rrdp_state.specs.Editions.{Edition, FollowEachOther, objects_of, can_be_named, next_delta, edition_delta};
ghost use Rattle.rrdp_state.specs.Exported.{Repository, puts_of, removals_of};
ghost use Rattle.rrdp_state.specs.Kept.{advanced, named_with, kept_puts, kept_removals};
ghost use Rattle.rrdp_state.specs.State.{StandsFor};
ghost use Rattle.rrdp_state.specs.Resuming.{kept_behind};

use crate::delta::Delta;
use crate::leaving::{Counts, removes};
use crate::lengths::{named_count, reaches};
use crate::named::MOST_NAMED;
use crate::next::NextDelta;
use crate::putting::puts;
use crate::text::FileText;
use key_ids::Site;
use outlet_api::{OutFile, OutFiles};
use pub_set::{Change, ObjectSet};
use rrdp_text::{delta_len, delta_text, snapshot_text};
use std::alloc::{AllocError, Global};
use std::marker::Model;
use uuid::Uuid;

/// The RRDP files of a session, after an edition (RFC 8182 section 3.3).
///
/// Of its deltas those that are named are kept, which have no more bytes than the snapshot. Its snapshot is
/// written anew by each export, of the set that stands.
#[derive(Drop)]
pub struct Rrdp {
    session: Uuid,
    base: String,
    serial: u64,
    deltas: Vec<Delta>,
    previous: usize,
    before: usize,
}

impl Model for Rrdp {
    ghost use Rattle.std.specs.Prelude.{◌≤◌, ◌<◌};
    ghost use Rattle.std.specs.String.{string_bytes};
    ghost use Rattle.std.specs.Vec.{vec_len, vec_capacity};
    ghost use Rattle.rrdp_state.specs.Kept.{Kept};

    ghost Value = { Kept };

    ghost view = { λ state. record {
      session = state.session;
      base = string_bytes state.base;
      serial = state.serial;
      deltas = state.deltas.items;
      previous = state.previous;
      before = state.before;
    } };

    ghost invariant = { λ state. (vec_len state.deltas ≤ 16) × (16 < vec_capacity state.deltas) };
}

impl Rrdp {
    /// The session before its first edition (RFC 8182 section 3.3.1).
    pub fn new(alloc: Global, session: Uuid, site: &Site) -> Result<Rrdp, AllocError>
        ensures { IfOk result (StandsFor (record { session = session; base = site.now.rrdp }) []) }
    {
        Rrdp::behind(alloc, session, site, 0)
    }

    /// The session behind the edition with that serial, of which no file is there, or before the
    /// first one.
    pub(crate) fn behind(
        alloc: Global,
        session: Uuid,
        site: &Site,
        serial: u64,
    ) -> Result<Rrdp, AllocError>
        ensures { IfOk result (λ rrdp. rrdp ≡ kept_behind (record { session = session; base = site.now.rrdp }) serial) }
    {
        Ok(Rrdp {
            session,
            base: String::from_str(alloc, site.rrdp())?,
            serial,
            deltas: Vec::with_capacity(alloc, MOST_NAMED + 1)?,
            previous: 0,
            before: 0,
        })
    }

    /// The serial of the newest edition, and 0 before the first one.
    pub fn serial(&self) -> u64
        ensures { result ≡ self.now.serial }
    {
        self.serial
    }

    /// The delta of the next edition, by its set and the changes that lead to it (RFC 8182 section 3.3.2): none
    /// where it can't be named, which is found before it is written.
    ///
    /// Linear in the objects and the changes, and in what is written.
    pub fn next(
        &self,
        alloc: Global,
        serial: u64,
        set: &ObjectSet,
        changes: &[Change],
    ) -> Result<NextDelta, AllocError>
        requires { serial ≡ self.now.serial + 1 }
        ensures { IfOk result (λ next.
            next ≡ next_delta self.now.session serial set.now changes.now) }
    {
        if !self.can_be_named(serial, set, changes) {
            return Ok(NextDelta {
                serial,
                delta: None,
            });
        }
        let text = delta_text(alloc, &self.session, serial, changes)?;
        Ok(NextDelta {
            serial,
            delta: Some(FileText::new(text)),
        })
    }

    /// Whether a serial has a delta that has no more bytes than its snapshot.
    fn can_be_named(&self, serial: u64, set: &ObjectSet, changes: &[Change]) -> bool
        ensures { result ≡ can_be_named self.now.session serial set.now changes.now }
    {
        serial != 1
            && reaches(
                &self.session,
                serial,
                set,
                delta_len(&self.session, serial, changes),
            )
    }

    /// The next edition, after which this set stands, becomes the newest one. Its delta is kept if it is named. It
    /// takes no memory, and time linear in the objects, whatever their bytes are, which are seldom looked at.
    pub fn advance(&mut self, next: NextDelta, set: &ObjectSet)
        ensures stands { (repository : Repository) (older : List Edition) (edition : Edition)
            → StandsFor repository older self.old → FollowEachOther (edition ∷ older)
            → set.now ≡ edition.objects → next ≡ edition_delta repository.session older edition
            → StandsFor repository (edition ∷ older) self.new }
        ensures session { self.new.session ≡ self.old.session }
        ensures serial { self.new.serial ≡ next.serial }
    {
        self.take_in(next, set);
    }

    /// The next edition's delta is kept before the others, as far as they are named beside the snapshot of this
    /// set.
    pub(crate) fn take_in(&mut self, next: NextDelta, set: &ObjectSet)
        ensures { self.new ≡ advanced self.old next.serial
            (length (snapshot_text self.old.session next.serial set.now)) next.delta }
    {
        let NextDelta { serial, delta } = next;
        self.before = self.previous;
        self.previous = self.deltas.len();
        self.keep(serial, set, delta);
        self.serial = serial;
    }

    /// A delta is put before the others, and those are kept that are named beside the snapshot of this set.
    fn keep(&mut self, serial: u64, set: &ObjectSet, delta: Option<FileText>)
        ensures { self.new ≡ record self.old {
          deltas = named_with serial
              (length (snapshot_text self.old.session serial set.now)) delta self.old.deltas;
        } }
    {
        match delta {
            Some(text) => {
                self.deltas.insert(0, Delta { serial, text }).unwrap();
                let named = named_count(&self.session, serial, set, &self.deltas);
                self.deltas.truncate(named);
            }
            None => self.deltas.clear(),
        }
    }

    /// What an export puts and removes: the snapshot, the newest delta if it is named, or all that
    /// are named, and last the notification; and then the files that the notification before the
    /// previous one named and that neither of the two later ones names, or nothing where all is put.
    ///
    /// The set is the one that stands after the newest edition. Its snapshot is written once, and isn't copied.
    pub fn files(&self, alloc: Global, set: &ObjectSet, all: bool) -> Result<OutFiles, AllocError>
        // Other files can be put before the last one.
        ensures puts { IfOk result (λ files. (repository : Repository) (editions : List Edition)
            → StandsFor repository editions self.now → set.now ≡ objects_of editions
            → map put_of files.puts.items ≡ puts_of repository editions all) }
        ensures removes { IfOk result (λ files. (repository : Repository) (editions : List Edition)
            → StandsFor repository editions self.now
            → map removal_of files.removes.items ≡ removals_of repository editions all) }
    {
        Ok(OutFiles {
            puts: self.puts(alloc, set, all)?,
            removes: self.removes(alloc, all)?,
        })
    }

    fn puts(&self, alloc: Global, set: &ObjectSet, all: bool) -> Result<Vec<OutFile>, AllocError>
        ensures { IfOk result (λ puts. map put_of puts.items ≡ kept_puts self.now set.now all) }
    {
        if self.serial == 0 {
            return Ok(Vec::new(alloc));
        }
        let (session, base) = (&self.session, self.base.as_str());
        let text = snapshot_text(alloc, session, self.serial, set)?;
        let snapshot = FileText::new(text);
        puts(
            alloc,
            session,
            base,
            self.serial,
            snapshot,
            &self.deltas,
            all,
        )
    }

    fn removes(&self, alloc: Global, all: bool) -> Result<Vec<String>, AllocError>
        ensures { IfOk result (λ paths. map removal_of paths.items ≡ kept_removals self.now all) }
    {
        if all {
            return Ok(Vec::new(alloc));
        }
        let counts = Counts {
            named: self.deltas.len(),
            previous: self.previous,
            before: self.before,
        };
        removes(alloc, &self.session, self.serial, counts)
    }
}
