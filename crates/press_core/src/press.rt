//! The press.

ghost use Rattle.std.specs.Prelude.{◌≡◌, ◌≢◌, ◌<◌, ◌≤◌, ◌+◌, ◌++◌, [], ◌∷◌, List, All, length, option_map};
ghost use Rattle.std.specs.Prelude.{true, IfOk, IfErr, IfSome, OnOk};
ghost use Rattle.signer_ring.specs.Ring.{Keeps};
ghost use Rattle.authority_book.specs.declared.commands.Command.{Command};
ghost use Rattle.editions.specs.Edition.{Edition};
ghost use Rattle.editions.specs.PublishedState.{published_of};
ghost use Rattle.issue_plan.specs.ByName.{StandByName};
ghost use Rattle.editions.specs.Sheets.{sheet_of};
ghost use Rattle.editions.specs.Clear.{IsClear};
ghost use Rattle.press_core.specs.Next.{IsNext};
ghost use Rattle.press_core.specs.Staged.{HasStages};
ghost use Rattle.entitle.specs.Certified.{names_of};
ghost use Rattle.editions.specs.Gathering.{configs_with, AreGathered, AreAccepted};
ghost use Rattle.press_core.specs.Press.{DropsEach};
ghost use Rattle.press_core.specs.Signers.{HoldKeys};
ghost use Rattle.press_core.specs.PrepareInput.{start_of};
ghost use Rattle.press_core.specs.Follows.{edition_of, IsNextEdition};
ghost use Rattle.press_core.specs.Faults.{IsPressFault, IsShort};
ghost use Rattle.press_core.specs.Stands.{IsLeftBy};
ghost use Rattle.press_core.specs.Files.{HasFilesOf, delta_of, repository_of};
ghost use Rattle.press_core.specs.Exports.{export_of, ended_by, IsCoherent, ShowsFiles, ShowsEdition, ShowsLast};
ghost use Rattle.press_core.specs.inner.Exporting.{IsCounted};
ghost use Rattle.press_core.specs.declared.last_export.LastExport.TheVariants.{NoExport};
ghost use Rattle.outlet_api.specs.Calls.{after_all, IsFront};
ghost use Rattle.outlet_api.specs.Faults.{IsCauseOf};

use crate::exporting::{ended_by, export_files, puts_all};
use crate::fault::PressFault;
use crate::last_export::LastExport;
use crate::laws::{
    prepared_editions_are_published, prepared_editions_follow, prepared_editions_leave,
    prepared_editions_put_what_is_unfit, rrdp_editions_are_what_editions_leave,
};
use crate::next_edition::NextEdition;
use crate::prepared::Prepared;
use crate::preparing::prepare_over;
use editions::{CurrentState, EndedKey, Gathered, PublishedNumbers, PublishedState};
use key_ids::Site;
use notice_board::Sheet;
use outlet_api::{ExportFault, Outlet, export};
use pub_set::same_contents_same_set;
use rrdp_state::{NextDelta, Rrdp, exports_keep_files_coherent};
use signer_api::Signer;
use signer_ring::Ring;
use std::alloc::{AllocError, Global};
use std::marker::Model;
use std::thread::Threads;

/// Publishes for a tree of authorities.
#[derive(Drop)]
pub struct Press<S: Signer = Box<dyn Signer + Send>> {
    site: Site,
    ring: Ring<S>,
    at: CurrentState,
    ended: Vec<EndedKey>,
    rrdp: Rrdp,
    last_export: LastExport,
    // Whether it is known that ROAs stand at places of names, so that a plan needs no look at their URIs.
    by_name: bool,
}

impl<S: Signer> Model for Press<S> {
    ghost use Rattle.std.specs.Prelude.{◌≡◌, true};
    ghost use Rattle.editions.specs.Clear.{IsClear};
    ghost use Rattle.issue_plan.specs.ByName.{StandByName};
    ghost use Rattle.press_core.specs.Press.{PressValue};
    ghost use Rattle.press_core.specs.Staged.{HasStages};

    ghost Value = { PressValue };

    ghost view = { λ press. record {
      site = press.site;
      ring = press.ring;
      at = press.at;
      ended = press.ended.items;
      rrdp = press.rrdp;
      last_export = press.last_export;
    } };

    ghost invariant = { λ press. (IsClear press.site press.at.rows press.at.issued × HasStages press.at
        × (press.by_name ≡ true → StandByName press.site press.at.issued))
        × (press.rrdp.serial ≡ press.at.serial) };
}

impl<S: Signer> Press<S> {
    /// A press that goes on, of which nothing was exported in this run. `by_name` tells whether it is known that ROAs
    /// stand at places of names.
    pub(crate) fn resumed(
        alloc: Global,
        site: Site,
        ring: Ring<S>,
        at: CurrentState,
        rrdp: Rrdp,
        by_name: bool,
    ) -> Press<S>
        requires clear { IsClear site at.rows at.issued }
        requires stand { by_name ≡ true → StandByName site at.issued }
        requires stages { HasStages at }
        requires files { rrdp.serial ≡ at.serial }
        ensures { result ≡ record {
          site = site;
          ring = ring;
          at = at;
          ended = [];
          rrdp = rrdp;
          last_export = NoExport;
        } }
    {
        Press {
            site,
            ring,
            at,
            ended: Vec::new(alloc),
            rrdp,
            last_export: LastExport::NoExport,
            by_name,
        }
    }

    /// The serial of the last edition, and 0 where there was none.
    pub fn serial(&self) -> u64
        ensures { result ≡ self.now.at.serial }
    {
        self.at.state().parts().serial
    }

    /// How many commands of each desk the last edition takes in. One number for each desk, in their
    /// order.
    pub fn cut(&self) -> &[u64]
        ensures { result.now ≡ self.now.at.cut }
    {
        self.at.state().parts().cut.as_slice()
    }

    /// What stands after the last edition.
    pub fn published_state(&self) -> &PublishedState
        ensures { result.now ≡ self.now.at }
    {
        self.at.state()
    }

    /// What readers are shown of the last edition.
    pub fn sheet(&self, alloc: Global) -> Result<Sheet, AllocError>
        ensures { IfOk result (λ sheet. sheet ≡ sheet_of self.now.at) }
    {
        self.at.state().sheet(alloc)
    }

    /// How the last export ended.
    pub fn last_export(&self) -> LastExport
        ensures { result ≡ self.now.last_export }
    {
        self.last_export
    }

    // The delta of the next edition.
    fn delta_of(&self, alloc: Global, edition: &NextEdition) -> Result<NextDelta, AllocError>
        requires { edition.now.next.serial ≡ self.now.rrdp.serial + 1 }
        ensures { IfOk result (λ delta. delta ≡ delta_of self.now.rrdp.session edition.now) }
    {
        let parts = edition.published_state().parts();
        self.rrdp
            .next(alloc, parts.serial, &parts.set, edition.changes())
    }

    /// The edition that was prepared becomes the last one. It takes no memory.
    pub(crate) fn commit(&mut self, prepared: Prepared) -> PublishedNumbers
        requires next { IsNext self.old.site self.old.at prepared.edition }
        requires delta { prepared.delta ≡ delta_of self.old.rrdp.session prepared.edition }
        ensures at { self.new.at ≡ prepared.edition.next }
        ensures ended { self.new.ended ≡ prepared.edition.ended }
        ensures site { self.new.site ≡ self.old.site }
        ensures ring { self.new.ring ≡ self.old.ring }

        // Its files are those of the editions that left what stood, with this one behind them.
        ensures files { (lists : List (List Command)) (editions : List Edition)
            → IsLeftBy lists editions self.old.at → HasFilesOf editions self.old
            → HasFilesOf (editions ++ edition_of prepared.edition ∷ []) self.new }
        ensures session { self.new.rrdp.session ≡ self.old.rrdp.session }
        ensures last_export { self.new.last_export ≡ self.old.last_export }
        ensures result { result ≡ published_of prepared.edition.next }
    {
        rrdp_editions_are_what_editions_leave();
        same_contents_same_set();
        let (edition, delta) = prepared.into_parts();
        let (next, ended) = edition.into_next();
        let published = next.state().published();
        self.rrdp.advance(delta, &next.state().parts().set);
        self.at = next;
        self.ended = ended;
        published
    }

    /// Brings the files of the last edition to the outlet: the snapshot, the deltas, the trust anchor's
    /// certificate and locator, and then the notification; and removes what nobody asks for any more.
    ///
    /// An outlet's put replaces a file whole. Where the outlet fails or memory is wanting, the press
    /// stands with its edition, and the next export puts every file that the notification names.
    pub(crate) fn export_to<O: Outlet>(
        &mut self,
        alloc: Global,
        outlet: &mut O,
    ) -> Result<(), ExportFault<O>>
        requires { self.old.at.serial ≢ 0 }

        // All of its calls were made, or the first so many of them.
        ensures done { OnOk result ((editions : List Edition) → HasFilesOf editions self.old
            → O.files outlet.new ≡ option_map (after_all (export_of self.old editions)) (O.files outlet.old)) }
        ensures front { (editions : List Edition) → HasFilesOf editions self.old
            → IsFront (export_of self.old editions) (O.files outlet.old) (O.files outlet.new) }

        // On every answer the files are coherent where they were; and where it is Ok they show the last edition. For
        // both the edition of the last export that ended Ok is still to be shown.
        ensures coherent { (editions : List Edition) → HasFilesOf editions self.old
            → ShowsLast (ShowsFiles (repository_of self.old)) editions self.old.last_export (O.files outlet.old)
            → IfSome (O.files outlet.old) (IsCoherent (repository_of self.old) editions)
            → IfSome (O.files outlet.new) (IsCoherent (repository_of self.old) editions) }
        ensures shown { OnOk result ((lists : List (List Command)) (editions : List Edition)
            → IsLeftBy lists editions self.old.at → HasFilesOf editions self.old
            → ShowsLast (ShowsFiles (repository_of self.old)) editions self.old.last_export (O.files outlet.old)
            → IfSome (O.files outlet.new) (ShowsEdition self.old.rrdp.session self.old.site editions)) }

        // A fault only where the outlet's count rose. The press stays but for how its last export ended.
        ensures counts { O.fault_count outlet.old ≤ O.fault_count outlet.new }
        ensures cause { IfErr result (IsCauseOf (O.fault_count outlet.old) (O.fault_count outlet.new)) }
        ensures kept { self.new ≡ record self.old { last_export = ended_by result self.old.at.serial } }
    {
        exports_keep_files_coherent();
        let ended = self.export_last(alloc, outlet);
        self.last_export = ended_by(&ended, self.serial());
        ended
    }

    // Brings the files of the last edition to the outlet.
    fn export_last<O: Outlet>(&self, alloc: Global, outlet: &mut O) -> Result<(), ExportFault<O>>
        requires { self.now.at.serial ≢ 0 }
        ensures done { OnOk result ((editions : List Edition) → HasFilesOf editions self.now
            → O.files outlet.new ≡ option_map (after_all (export_of self.now editions)) (O.files outlet.old)) }
        ensures front { (editions : List Edition) → HasFilesOf editions self.now
            → IsFront (export_of self.now editions) (O.files outlet.old) (O.files outlet.new) }
        ensures small { (editions : List Edition) → HasFilesOf editions self.now → IsCounted editions self.now }
        ensures counts { O.fault_count outlet.old ≤ O.fault_count outlet.new }
        ensures cause { IfErr result (IsCauseOf (O.fault_count outlet.old) (O.fault_count outlet.new)) }
    {
        let all = puts_all(self.last_export, self.serial());
        let files = export_files(alloc, &self.rrdp, &self.site, self.at.state(), all)?;
        export(alloc, &files, outlet)
    }

    /// Asks the signers to drop the keys that the last edition of this run ended, each once. It takes no memory.
    pub(crate) fn retire_keys(&mut self)
        ensures dropped { DropsEach self.old.ended self.old.ring self.new.ring }
        ensures others { self.new ≡ record self.old { ring = self.new.ring; ended = [] } }
        ensures kept { Keeps self.old.ring self.new.ring }
    {
        drop_each(&mut self.ring, &self.ended);
        self.ended.clear();
    }

    /// The signers, handed back.
    pub(crate) fn close(self) -> Ring<S>
        ensures { result ≡ self.ring }
    {
        self.ring
    }
}

impl<S: Signer + Send> Press<S> {
    /// Prepares the next edition, at that clock and with the commands that were gathered. Its signers make and sign what
    /// it puts; else nothing of the press changes.
    ///
    /// `now` is in seconds since 1970. Refusals are asked in this order: `ClockRange`, `SerialEnd`,
    /// `Nothing`, before any signer is called; then `SignerFault` and `KeyClash`, as the signers'
    /// calls come to them. `Memory` may come at any time.
    pub(crate) fn prepare<R: Threads + Sync>(
        &mut self,
        rt: &R,
        alloc: Global,
        now: u64,
        gathered: Vec<Gathered>,
    ) -> Result<Prepared, PressFault>
        // Commands of each desk once, from where the cut ends, and each accepted after those before it.
        requires gathered { AreGathered self.old.at.cut gathered.items }
        requires accepted { AreAccepted self.old.at.configs gathered.items }

        // The press has the signers of the live keys, and of the names at the new cut.
        requires live_signers { All (λ row. row.signer < length self.old.ring) self.old.at.rows }
        requires name_signers { All (λ name. name.signer < length self.old.ring)
            (names_of (configs_with self.old.at.configs gathered.items)) }

        // What the signers made of the plan of an edition that was called for. It follows the editions that the press
        // stands for, whichever these are; to relying parties it is sound, and yields what is owed. Nothing that fits is
        // put, and its signers gave two signatures for each ROA that is, one for each certificate and three for each point.
        ensures prepared { IfOk result (λ prepared.
            IsNextEdition (start_of self.old now gathered.items) self.new.ring prepared.edition) }

        // Its delta is the text of what changes, if it can be named beside the snapshot of what will stand.
        ensures delta { IfOk result (λ prepared.
            prepared.delta ≡ delta_of self.old.rrdp.session prepared.edition) }

        // Each refusal has its cause. On every answer the rest of the press stays as it is, and the signers keep their
        // keys, and vouch for what they vouched for.
        ensures refused { IfErr result (IsPressFault (start_of self.old now gathered.items) self.new.ring) }
        ensures kept { self.new ≡ record self.old { ring = self.new.ring } }
        ensures signers { Keeps self.old.ring self.new.ring }
        ensures keys { HoldKeys self.old.ring self.new.ring }
    {
        let edition = self.prepare_edition(rt, alloc, now, gathered)?;
        match self.delta_of(alloc, &edition) {
            Ok(delta) => Ok(Prepared::new(edition, delta)),
            Err(_) => Err(PressFault::Memory),
        }
    }

    // The next edition, without its delta.
    fn prepare_edition<R: Threads + Sync>(
        &mut self,
        rt: &R,
        alloc: Global,
        now: u64,
        gathered: Vec<Gathered>,
    ) -> Result<NextEdition, PressFault>
        requires gathered { AreGathered self.old.at.cut gathered.items }
        requires accepted { AreAccepted self.old.at.configs gathered.items }
        requires live_signers { All (λ row. row.signer < length self.old.ring) self.old.at.rows }
        requires name_signers { All (λ name. name.signer < length self.old.ring)
            (names_of (configs_with self.old.at.configs gathered.items)) }
        ensures prepared { IfOk result (IsNextEdition (start_of self.old now gathered.items) self.new.ring) }
        ensures serial { IfOk result (λ edition. edition.next.serial ≡ self.old.rrdp.serial + 1) }
        ensures short { IfOk result (λ _. IsShort (start_of self.old now gathered.items) self.new.ring) }
        ensures refused { IfErr result (IsPressFault (start_of self.old now gathered.items) self.new.ring) }
        ensures kept { self.new ≡ record self.old { ring = self.new.ring } }
        ensures signers { Keeps self.old.ring self.new.ring }
        ensures keys { HoldKeys self.old.ring self.new.ring }
    {
        prepared_editions_leave();
        prepared_editions_follow();
        prepared_editions_are_published();
        prepared_editions_put_what_is_unfit();
        let at = self.at.share()?;
        prepare_over(
            rt,
            alloc,
            &self.site,
            &at,
            &mut self.at,
            &mut self.ring,
            now,
            gathered,
            self.by_name,
        )
    }
}

// Asks for each of the keys that its signer drops it.
fn drop_each<S: Signer>(ring: &mut Ring<S>, ended: &[EndedKey])
    ensures dropped { DropsEach ended.now ring.old ring.new }
    ensures kept { Keeps ring.old ring.new }
{
    for key in ended {
        ring.drop_key(key.signer, &key.key);
    }
}
