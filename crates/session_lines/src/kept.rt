//! What a session keeps of its refusals: each one's word that a device failed, or what met a publication.
ghost use Rattle.std.specs.Prelude.{◌≡◌};
ghost use Rattle.session_lines.specs.Keeping.{nothing_kept, keeps_of_command, keeps_of_desk, keeps_of_publication, keeps_of_unmade, keeps_of_preparation, keeps_of_export, later_or, merged};

use desk_core::{DeskFault, DeskRose};
use disk_api::Disk;
use gate_journal::Rose;
use manager::{CommandFault, PublishFault, Unmade};
use outlet_api::{ExportFault, Outlet, Rose as OutletRose};
use press_core::{CommitFault, Met, PrepareFault};
use std::marker::Model;

/// The last value of each kind, of the refusals that a session has told: the word of a desk's disk, of the press's disk
/// and of the outlet that failed, and what met a publication, by the code of its refusal.
#[derive(Drop)]
pub struct Kept<D: Disk, O: Outlet> {
    desk: Option<DeskRose<D>>,
    press: Option<Rose<D>>,
    outlet: Option<OutletRose<O>>,
    journal_full: Option<Met<D>>,
    nothing: Option<Met<D>>,
    clock_range: Option<Met<D>>,
    serial_end: Option<Met<D>>,
    signer_fault: Option<Met<D>>,
    key_clash: Option<Met<D>>,
}

impl<D: Disk, O: Outlet> Model for Kept<D, O> {
    ghost use Rattle.session_lines.specs.Keeping.{KeptValue};

    ghost Value = { KeptValue };

    ghost view = { λ k. record {
      desk = k.desk;
      press = k.press;
      outlet = k.outlet;
      journal_full = k.journal_full;
      nothing = k.nothing;
      clock_range = k.clock_range;
      serial_end = k.serial_end;
      signer_fault = k.signer_fault;
      key_clash = k.key_clash;
    } };
}

impl<D: Disk, O: Outlet> Kept<D, O> {
    /// Nothing is kept yet.
    pub fn new() -> Kept<D, O>
        ensures { result ≡ nothing_kept }
    {
        Kept {
            desk: None,
            press: None,
            outlet: None,
            journal_full: None,
            nothing: None,
            clock_range: None,
            serial_end: None,
            signer_fault: None,
            key_clash: None,
        }
    }

    /// Of each kind the value of the later one, if that has one.
    pub fn merge(self, later: Kept<D, O>) -> Kept<D, O>
        ensures { result ≡ merged self later }
    {
        Kept {
            desk: later_or(self.desk, later.desk),
            press: later_or(self.press, later.press),
            outlet: later_or(self.outlet, later.outlet),
            journal_full: later_or(self.journal_full, later.journal_full),
            nothing: later_or(self.nothing, later.nothing),
            clock_range: later_or(self.clock_range, later.clock_range),
            serial_end: later_or(self.serial_end, later.serial_end),
            signer_fault: later_or(self.signer_fault, later.signer_fault),
            key_clash: later_or(self.key_clash, later.key_clash),
        }
    }

    /// Keeps what a command's refusal has.
    pub(crate) fn keep_command(&mut self, fault: CommandFault<D>)
        ensures { self.new ≡ keeps_of_command fault self.old }
    {
        if let CommandFault::Refused { fault } = fault {
            self.keep_desk(fault);
        }
    }

    /// Keeps what the refusal of an authority's desk has.
    pub fn keep_desk(&mut self, fault: DeskFault<D>)
        ensures { self.new ≡ keeps_of_desk fault self.old }
    {
        match fault {
            DeskFault::Shut { rose } | DeskFault::DiskFault { rose } => self.desk = Some(rose),
            DeskFault::Verdict { .. } | DeskFault::JournalFull { .. } | DeskFault::Memory => {}
        }
    }

    /// Keeps what a publication's refusal has.
    pub(crate) fn keep_publication(&mut self, fault: PublishFault<D, O>)
        ensures { self.new ≡ keeps_of_publication fault self.old }
    {
        match fault {
            PublishFault::Unmade { fault, .. } | PublishFault::Repeated { fault, .. } => {
                self.keep_unmade(fault)
            }
            PublishFault::Unexported { fault, .. } => self.keep_export(fault),
        }
    }

    /// Keeps what the refusal of a publication that makes no edition has.
    pub fn keep_unmade(&mut self, fault: Unmade<D>)
        ensures { self.new ≡ keeps_of_unmade fault self.old }
    {
        match fault {
            Unmade::Unprepared { fault } => self.keep_preparation(fault),
            Unmade::Uncommitted {
                fault: CommitFault::DiskFault { rose },
            } => self.press = Some(rose),
        }
    }

    fn keep_preparation(&mut self, fault: PrepareFault<D>)
        ensures { self.new ≡ keeps_of_preparation fault self.old }
    {
        match fault {
            PrepareFault::Shut { rose } => self.press = Some(rose),
            PrepareFault::ClockRange { met, .. } => self.clock_range = Some(met),
            PrepareFault::SerialEnd { met, .. } => self.serial_end = Some(met),
            PrepareFault::Nothing { met, .. } => self.nothing = Some(met),
            PrepareFault::SignerFault { met, .. } => self.signer_fault = Some(met),
            PrepareFault::KeyClash { met, .. } => self.key_clash = Some(met),
            PrepareFault::JournalFull { met, .. } => self.journal_full = Some(met),
            PrepareFault::Memory => {}
        }
    }

    /// Keeps what an export that failed has.
    pub fn keep_export(&mut self, fault: ExportFault<O>)
        ensures { self.new ≡ keeps_of_export fault self.old }
    {
        if let ExportFault::OutletFault { rose } = fault {
            self.outlet = Some(rose);
        }
    }
}

fn later_or<T: Drop>(earlier: Option<T>, later: Option<T>) -> Option<T>
    ensures { result ≡ later_or earlier later }
{
    match later {
        Some(value) => Some(value),
        None => earlier,
    }
}
