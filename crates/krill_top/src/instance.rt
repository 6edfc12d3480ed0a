//! The desks of a tree, and the press that publishes for it.

ghost use Rattle.std.specs.Prelude.{◌≡◌, ◌≢◌, false, true, length, IfOk, IfErr};
ghost use Rattle.editions.specs.Edition.{state_after};
ghost use Rattle.editions.specs.Sheets.{sheet_of};
ghost use Rattle.krill_top.specs.InstanceState.{InstanceState, last_serial, is_of, is_exported_at, is_exported};
ghost use Rattle.krill_top.specs.Reads.{list_reply, history_reply};
ghost use Rattle.krill_top.specs.Sheets.{IsShowText, IsRoasText};
ghost use Rattle.krill_top.specs.Outcomes.{outcome_of};
ghost use Rattle.krill_top.specs.Publishing.{MakesOrNot, ComesTo, unmade_of, is_nothing};
ghost use Rattle.krill_top.specs.Publishing as publishing;
ghost use Rattle.krill_top.specs.Exports.{ExportsOrStops, Repeats};
ghost use Rattle.krill_top.specs.inner.Refusing.{ExportsMade, RefusesFor, refused_or_repeated};
ghost use Rattle.krill_top.specs.Replies.{CommandedIn};
ghost use Rattle.krill_top.specs.Run.{IsFirstHeld};
ghost use Rattle.gate_journal.specs.View.{IsSafe};
ghost use Rattle.krill_top.specs.inner.Instances.{IsInState, IsPressIn, Moves, stored_in};
ghost use Rattle.manager.specs.Pressing.{exported_as};
ghost use Rattle.manager.specs.Ready.{ShowsItsLast};

use crate::command_fault::CommandFault;
use crate::desks::Desks;
use crate::pressing::{Pressed, press_all};
use crate::publication::Publication;
use crate::publish_fault::PublishFault;
use authority_book::Command;
use disk_api::Disk;
use editions::{PublishedNumbers, gathered_commands_go_on};
use names::Name;
use notice_board::Sheet;
use outlet_api::{ExportFault, Outlet};
use press_core::{
    LastExport, StoredPress, more_commands_stand, more_editions_stay_shown,
    vouching_signers_vouch_for_editions,
};
use signer_api::Signer;
use signer_ring::Ring;
use std::alloc::{AllocError, Global};
use std::marker::Model;
use std::thread::Threads;

/// The desks of a tree, and the press that publishes what they have accepted.
#[derive(Drop)]
pub struct Instance<D: Disk, G: Signer, O: Outlet> {
    desks: Desks<D>,
    press: StoredPress<D, G>,
    // What readers are shown of the last edition.
    sheet: Sheet,
    signers: u32,
    outlet: O,
}

impl<D: Disk, G: Signer, O: Outlet> Model for Instance<D, G, O> {
    ghost use Rattle.krill_top.specs.inner.Instances.{InstanceValue, IsInstance};

    ghost Value = { InstanceValue D O };

    ghost view = { λ instance. record {
      desks = instance.desks;
      press = instance.press.press;
      journal = instance.press.journal;
      sheet = instance.sheet;
      signers = instance.signers;
      outlet = instance.outlet;
    } };

    ghost invariant = { λ instance. IsInstance O.Outlet (record {
      desks = instance.desks;
      press = instance.press.press;
      journal = instance.press.journal;
      sheet = instance.sheet;
      signers = instance.signers;
      outlet = instance.outlet;
    }) };
}

/// Desks, a press and an outlet for which there was no memory.
#[derive(Drop)]
pub struct InstanceRefused<D: Disk, G: Signer, O: Outlet> {
    pub desks: Desks<D>,
    pub press: StoredPress<D, G>,
    pub outlet: O,
}

/// What an instance is made of.
#[derive(Drop)]
pub(crate) struct InstanceParts<D: Disk, G: Signer, O: Outlet> {
    pub(crate) desks: Desks<D>,
    pub(crate) press: StoredPress<D, G>,
    pub(crate) signers: u32,
    pub(crate) outlet: O,
}

// Whether the edition of that serial, if there is one, is at the outlet.
fn is_exported_at(last: LastExport, serial: u64) -> bool
    ensures { result ≡ is_exported_at last serial }
{
    serial == 0 || is_of(last, serial)
}

fn is_of(last: LastExport, serial: u64) -> bool
    ensures { result ≡ is_of last serial }
{
    match last {
        LastExport::NoExport => false,
        LastExport::Failed => false,
        LastExport::Done { serial: exported } => exported == serial,
    }
}

// Where there was nothing to publish behind the edition of that serial, and it was or wasn't exported again.
fn refused_or_repeated<D: Disk, O: Outlet>(
    repeated: bool,
    serial: u64,
    fault: PublishFault<D>,
) -> Publication<D, O>
    ensures { publishing.outcome_of result ≡ refused_or_repeated repeated serial (unmade_of fault) }
{
    if repeated {
        Publication::Repeated { fault }
    } else {
        Publication::Refused { serial, fault }
    }
}

impl<D: Disk, G: Signer, O: Outlet> Instance<D, G, O> {
    /// An instance over these desks and this press, whose ring has so many signers. It exports to that outlet.
    pub fn open(
        alloc: Global,
        desks: Desks<D>,
        press: StoredPress<D, G>,
        signers: u32,
        outlet: O,
    ) -> Result<Instance<D, G, O>, InstanceRefused<D, G, O>>
        requires stands { (state : InstanceState) × IsPressIn O.Outlet desks press signers outlet state }
        ensures opened { IfOk result (λ instance. (state : InstanceState)
            → IsPressIn O.Outlet desks press signers outlet state → IsInState O.Outlet instance state) }
        ensures desks { IfOk result (λ instance. instance.desks ≡ desks) }
        ensures press { IfOk result (λ instance. stored_in instance ≡ press) }
        ensures sheet { IfOk result (λ instance. instance.sheet ≡ sheet_of press.press.at) }
        ensures signers { IfOk result (λ instance. instance.signers ≡ signers) }
        ensures outlet { IfOk result (λ instance. instance.outlet ≡ outlet) }
        ensures refused_desks { IfErr result (λ refused. refused.desks ≡ desks) }
        ensures refused_press { IfErr result (λ refused. refused.press ≡ press) }
        ensures refused_outlet { IfErr result (λ refused. refused.outlet ≡ outlet) }
    {
        let pressed = press.press();
        let Ok(sheet) = pressed.sheet(alloc) else {
            return Err(InstanceRefused {
                desks,
                press,
                outlet,
            });
        };
        Ok(Instance {
            desks,
            press,
            sheet,
            signers,
            outlet,
        })
    }

    /// Desks, press and outlet, and how many signers there are.
    pub(crate) fn into_parts(self) -> InstanceParts<D, G, O>
        ensures desks { result.desks ≡ self.desks }
        ensures press { result.press ≡ stored_in self }
        ensures signers { result.signers ≡ length self.press.ring }
        ensures outlet { result.outlet ≡ self.outlet }
    {
        let Instance {
            desks,
            press,
            signers,
            outlet,
            ..
        } = self;
        InstanceParts {
            desks,
            press,
            signers,
            outlet,
        }
    }

    /// The desks, with the commands that were accepted, the press's disk, with the editions, the signers,
    /// and the outlet.
    pub fn close(self) -> (Desks<D>, D, Ring<G>, O)
        ensures desks { result.0 ≡ self.desks }
        ensures press { result.1 ≡ self.journal.disk }
        ensures safe { IsSafe D.Disk self.journal }
        ensures ring { result.2 ≡ self.press.ring }
        ensures outlet { result.3 ≡ self.outlet }
    {
        let (disk, ring) = self.press.close();
        (self.desks, disk, ring, self.outlet)
    }

    /// Gives a command to the authority of that name, and answers how many commands of that authority
    /// are accepted then.
    pub fn command(
        &mut self,
        alloc: Global,
        name: &Name,
        command: Command,
    ) -> Result<u64, CommandFault<D>>
        ensures { Moves D.Disk O.Outlet (λ b a. CommandedIn name.now command (outcome_of result) b a) self.old self.new }
    {
        more_commands_stand();
        self.desks.command(alloc, name, command, self.signers)
    }

    // Brings the edition that was made to the outlet.
    fn export_made(&mut self, alloc: Global, published: PublishedNumbers) -> Publication<D, O>
        requires some { self.old.press.at.serial ≢ 0 }
        requires serial { published.serial ≡ self.old.press.at.serial }
        ensures { Moves D.Disk O.Outlet (ExportsMade published (publishing.outcome_of result)) self.old self.new }
    {
        match self.export(alloc) {
            Ok(()) => Publication::Published { published },
            Err(fault) => Publication::Unexported {
                serial: published.serial,
                fault,
            },
        }
    }

    // What comes of a publication that makes no edition, for this reason.
    fn refuse(&mut self, alloc: Global, fault: PublishFault<D>) -> Publication<D, O>
        ensures { Moves D.Disk O.Outlet (RefusesFor (unmade_of fault) (publishing.outcome_of result)) self.old self.new }
    {
        let serial = self.serial();
        if fault.is_nothing() {
            return self.refuse_nothing(alloc, serial, fault);
        }
        Publication::Refused { serial, fault }
    }

    // There was nothing to publish behind the edition of that serial.
    fn refuse_nothing(
        &mut self,
        alloc: Global,
        serial: u64,
        fault: PublishFault<D>,
    ) -> Publication<D, O>
        requires nothing { is_nothing (unmade_of fault) ≡ true }
        requires serial { (state : InstanceState) → IsInState O.Outlet self.old state → serial ≡ last_serial state }
        ensures { Moves D.Disk O.Outlet (RefusesFor (unmade_of fault) (publishing.outcome_of result)) self.old self.new }
    {
        match self.repeat_export(alloc) {
            Ok(repeated) => refused_or_repeated(repeated, serial, fault),
            Err(export) => Publication::Unexported {
                serial,
                fault: export,
            },
        }
    }

    /// Brings the last edition to the outlet again, where it couldn't be before, and answers whether that
    /// was so.
    pub fn repeat_export(&mut self, alloc: Global) -> Result<bool, ExportFault<O>>
        ensures moves { Moves D.Disk O.Outlet (Repeats result) self.old self.new }
        ensures desks { self.new.desks ≡ self.old.desks }
        ensures press { stored_in self.new ≡ exported_as self.new.press.last_export (stored_in self.old) }
        ensures shows { ShowsItsLast O.Outlet (stored_in self.old) self.old.outlet → ShowsItsLast O.Outlet (stored_in self.new) self.new.outlet }
    {
        if self.is_exported() {
            return Ok(false);
        }
        match self.export(alloc) {
            Ok(()) => Ok(true),
            Err(fault) => Err(fault),
        }
    }

    // Whether the last edition is at the outlet, or there is none.
    fn is_exported(&self) -> bool
        ensures exported { (state : InstanceState) → IsInState O.Outlet self.now state → result ≡ is_exported state }
        ensures some { result ≡ false → self.now.press.at.serial ≢ 0 }
    {
        let press = self.press.press();
        is_exported_at(press.last_export(), press.serial())
    }

    // Brings the last edition to the outlet.
    fn export(&mut self, alloc: Global) -> Result<(), ExportFault<O>>
        requires { self.old.press.at.serial ≢ 0 }
        ensures moves { Moves D.Disk O.Outlet (ExportsOrStops result) self.old self.new }
        ensures desks { self.new.desks ≡ self.old.desks }
        ensures press { stored_in self.new ≡ exported_as self.new.press.last_export (stored_in self.old) }
        ensures shows { ShowsItsLast O.Outlet (stored_in self.old) self.old.outlet → ShowsItsLast O.Outlet (stored_in self.new) self.new.outlet }
    {
        more_editions_stay_shown();
        self.press.export_to(alloc, &mut self.outlet)
    }

    /// The first desk that holds a command, if one does, and how many it holds.
    pub fn first_held(&self) -> Option<(u32, u64)>
        ensures { (state : InstanceState) → IsInState O.Outlet self.now state → IsFirstHeld state.desk_states result }
    {
        self.desks.first_held()
    }

    /// The serial of the last edition, and 0 where there was none.
    pub fn serial(&self) -> u64
        ensures { (state : InstanceState) → IsInState O.Outlet self.now state
            → result ≡ (state_after state.editions).serial }
    {
        self.sheet.serial
    }

    /// The reply to `list`: the names of the tree, and which of them are deleted.
    pub fn list(&self, alloc: Global) -> Result<Vec<u8>, AllocError>
        ensures { IfOk result (λ text. (state : InstanceState) → IsInState O.Outlet self.now state
            → text.items ≡ list_reply state.desk_states) }
    {
        self.desks.list(alloc)
    }

    /// The reply to `show`: an authority's state.
    pub fn show(&self, alloc: Global, name: &Name) -> Result<Vec<u8>, AllocError>
        ensures { IfOk result (λ text. (state : InstanceState) → IsInState O.Outlet self.now state
            → IsShowText state name.now text.items) }
    {
        self.desks.show(alloc, &self.sheet, name)
    }

    /// The reply to `roas list`: an authority's origins.
    pub fn roas(&self, alloc: Global, name: &Name) -> Result<Vec<u8>, AllocError>
        ensures { IfOk result (λ text. (state : InstanceState) → IsInState O.Outlet self.now state
            → IsRoasText state name.now text.items) }
    {
        self.desks.roas(alloc, &self.sheet, name)
    }

    /// The reply to `history commands`: an authority's commands, all that were accepted.
    pub fn history(&self, alloc: Global, name: &Name) -> Result<Vec<u8>, AllocError>
        ensures { IfOk result (λ text. (state : InstanceState) → IsInState O.Outlet self.now state
            → text.items ≡ history_reply state.desk_states name.now) }
    {
        self.desks.history(alloc, name)
    }
}

impl<D: Disk, G: Signer + Send, O: Outlet> Instance<D, G, O> {
    /// Publishes all that the desks have accepted, at that clock in seconds since 1970, and brings it to the
    /// outlet. The edition follows the last one. Where the outlet fails the edition stands, and the next
    /// publication exports it again, even where that has nothing to publish.
    ///
    /// A refusal changes nothing but what the signers made and counted. Refused in the order of
    /// [`StoredPress::prepare`](press_core::StoredPress::prepare), and behind these for a fault of the press's disk:
    /// then the edition is in doubt.
    pub fn publish<R: Threads + Sync>(
        &mut self,
        rt: &R,
        alloc: Global,
        now: u64,
    ) -> Publication<D, O>
        ensures { Moves D.Disk O.Outlet (λ b a. ComesTo now (publishing.outcome_of result) b a) self.old self.new }
    {
        match self.make_edition(rt, alloc, now) {
            Ok(published) => self.export_made(alloc, published),
            Err(fault) => self.refuse(alloc, fault),
        }
    }

    // Makes the next edition of all that the desks have accepted. It isn't exported yet.
    fn make_edition<R: Threads + Sync>(
        &mut self,
        rt: &R,
        alloc: Global,
        now: u64,
    ) -> Result<PublishedNumbers, PublishFault<D>>
        ensures moves { Moves D.Disk O.Outlet (λ b a. MakesOrNot now result b a) self.old self.new }
        ensures serial { IfOk result (λ published. published.serial ≡ self.new.press.at.serial) }
        ensures some { IfOk result (λ published. self.new.press.at.serial ≢ 0) }
    {
        gathered_commands_go_on();
        vouching_signers_vouch_for_editions();
        more_editions_stay_shown();
        match press_all(rt, alloc, &self.desks, &mut self.press, now) {
            Ok(Pressed { published, sheet }) => {
                self.sheet = sheet;
                Ok(published)
            }
            Err(fault) => Err(fault),
        }
    }
}
