// A desk over a disk.
ghost use Rattle.std.specs.Prelude.{◌≡◌, ◌≤◌, ◌+◌, ◌-◌, ◌<◌, ◌^◌, ◌++◌, [], ◌∷◌, ℕ, List, Option, Some, None, Ok, length, drop, IfOk, IfErr, IfSome, OnOk, OnErr, IsTrue, ◌↔◌, MatchOption, ◌⊎◌};
ghost use Rattle.std.specs.Option.{option_map};
ghost use Rattle.disk_api.specs.Runs.{LeavesOnly};
ghost use Rattle.host_calls.specs.Rise.{HasRisen};
ghost use Rattle.disk_api.specs.Content.{BothKnown};
ghost use Rattle.gate_journal.specs.Format.{recovered, damaged_at, held_by, opened, IsUnopened};
ghost use Rattle.gate_journal.specs.Storing.{stored, entry_bytes};
ghost use Rattle.authority_book.specs.declared.commands.Command.{Command};
ghost use Rattle.cmd_codec.specs.Spelling.{spelling};
ghost use Rattle.desk_core.specs.View.{View, journal_limit};
ghost use Rattle.desk_core.specs.Commands.{HasCommands};

use crate::opening::{Loaded, load};
use crate::records::{fault_of, needed, prepare, recorded};
use crate::{DeskFault, DeskOpenFault, DeskRefused, DeskRose};
use authority_book::{Command, Config, verdict};
use disk_api::Disk;
use gate_journal::{AppendFault, Journal, OpenRefused, add_to_body};
use std::alloc::{AllocError, Global};
use std::marker::Model;

/// How many bytes a desk's journal has at most.
const JOURNAL_LIMIT: u64 = 1 << 24;

/// A journal of an authority's accepted commands, and the configuration that they come to.
#[derive(Drop)]
pub struct Desk<D: Disk> {
    number: u32,
    journal: Journal<D>,
    config: Config,
    // The journal's records, as they lie in its file.
    body: Vec<u8>,
}

impl<D: Disk> Model for Desk<D> {
    ghost use Rattle.gate_journal.specs.Format.{payloads};
    ghost use Rattle.desk_core.specs.View.{View};
    ghost use Rattle.desk_core.specs.inner.Kept.{IsConsistentDesk};

    ghost Value = { View D };

    ghost view = { λ d. record { disk = d.journal.disk; number = d.number; settings = d.config.settings; records = payloads d.journal.sizes d.body.items; shut = d.journal.shut; doubt = d.journal.doubt } };

    ghost invariant = { λ d. IsConsistentDesk D.Disk d.number d.config.settings d.body.items d.journal };
}

impl<D: Disk> Desk<D> {
    ghost use Rattle.desk_core.specs.Commands.{IsFirstBad};
    ghost use Rattle.desk_core.specs.Answers.{CanCommit, needed_for, IsDeskFault, disk_after};
    ghost use Rattle.gate_journal.specs.View.{stake_of};
    ghost use Rattle.desk_core.specs.Images.{RecoversTo, RecoversToKnown, IsSafe};

    /// Opens the desk of that number on a disk. A file of at most 17 bytes is made a new journal; in a
    /// longer one the bytes stay as they are. It takes time linear in the records.
    ///
    /// A crash at any moment leaves the records that the disk stood for. Desks are numbered from 0,
    /// which is the trust anchor's.
    pub fn open(alloc: Global, number: u32, disk: D) -> Result<Desk<D>, DeskRefused<D>>
        // What is found is what the disk stands for, each record that of an accepted command.
        ensures records { IfOk result (λ desk. IfSome (D.content disk) (λ bytes. desk.records ≡ recovered bytes)) }
        ensures commands { IfOk result (λ desk. (commands : List Command) × HasCommands desk commands) }
        // A file of at most 17 bytes is now a header and a closed gate, and a longer one is as it was.
        ensures bytes { IfOk result (λ desk. D.content desk.disk ≡ option_map opened (D.content disk)) }
        ensures whole { IfOk result (λ desk. IfSome (D.content disk) (λ bytes. damaged_at journal_limit bytes ≡ None)) }
        ensures number { IfOk result (λ desk. desk.number ≡ number) }
        ensures open { IfOk result (λ desk. (desk.shut ≡ None) × (desk.doubt ≡ None)) }
        ensures durable { IfOk result (λ desk. (c : List ℕ) → D.may_leave desk.disk c → RecoversToKnown (D.content disk) desk.records None c) }

        ensures damaged { IfErr result (λ e. (at : ℕ) → e.fault ≡ DeskOpenFault.Damaged at
            → (D.content e.disk ≡ D.content disk) × IfSome (D.content disk) (λ bytes. damaged_at journal_limit bytes ≡ Some at)) }
        ensures bad_record { IfErr result (λ e. (at : ℕ) → e.fault ≡ DeskOpenFault.BadRecord at
            → IfSome (D.content disk) (λ bytes. (damaged_at journal_limit bytes ≡ None) × IsFirstBad number (recovered bytes) at)) }
        ensures failed { IfErr result (λ e. e.fault ≡ DeskOpenFault.DiskFault → HasRisen (D.fault_count disk) (D.fault_count e.disk)) }
        ensures same { IfErr result (λ e. option_map recovered (D.content e.disk) ≡ option_map recovered (D.content disk)) }
        ensures unopened { IfErr result (λ e. BothKnown IsUnopened (D.content disk) (D.content e.disk)) }
        ensures later { D.fault_count disk ≤ D.fault_count (disk_after result) }

        // A crash at any moment leaves an image from before the call, or the same records.
        ensures any_moment { LeavesOnly D.Disk disk (disk_after result) (λ c. D.may_leave disk c ⊎ IfSome (D.content disk) (λ bytes. RecoversTo (recovered bytes) None c)) }
    {
        let mut journal = match Journal::open(alloc, disk, JOURNAL_LIMIT) {
            Ok(journal) => journal,
            Err(OpenRefused { disk, fault }) => {
                let fault = DeskOpenFault::from(fault);
                return Err(DeskRefused { disk, fault });
            }
        };
        match load(alloc, number, &mut journal) {
            Ok(Loaded { config, body }) => Ok(Desk {
                number,
                journal,
                config,
                body,
            }),
            Err(fault) => {
                let disk = journal.close();
                Err(DeskRefused { disk, fault })
            }
        }
    }

    /// The desk's number.
    pub fn number(&self) -> u32
        ensures { result ≡ self.now.number }
    {
        self.number
    }

    /// The configuration: what the accepted commands come to.
    pub fn config(&self) -> &Config
        ensures { result.now.settings ≡ self.now.settings }
    {
        &self.config
    }

    /// How many commands were accepted.
    pub fn len(&self) -> u64
        ensures records { result ≡ length self.now.records }
        ensures commands { (commands : List Command) → HasCommands self.now commands → result ≡ length commands }
        // Between calls, too, what a crash may leave holds them.
        ensures safe { IsSafe D.Disk self.now }
    {
        self.journal.count()
    }

    /// Whether no command was accepted yet.
    pub fn is_empty(&self) -> bool
        ensures { IsTrue result ↔ (self.now.records ≡ []) }
    {
        self.len() == 0
    }

    /// The accepted commands after the first `from`. Commands are counted in the order in which
    /// they were accepted.
    pub fn since(&self, alloc: Global, from: u64) -> Result<Vec<Command>, AllocError>
        requires { from ≤ length self.now.records }
        ensures { IfOk result (λ found. (commands : List Command) → HasCommands self.now commands → found.items ≡ drop from commands) }
    {
        let count = self.len();
        let mut commands = Vec::with_capacity(alloc, (count - from) as usize)?;
        for index in from..count {
            let payload = self.journal.payload(self.body.as_slice(), index);
            commands.push(recorded(alloc, payload)?)?;
        }
        Ok(commands)
    }

    /// Takes a command, where the verdict on it with `signers` signers is Ok, and answers how many
    /// commands are accepted now.
    ///
    /// At `Ok` the command is kept: from then on each crash leaves its record. All memory is taken
    /// before the first write. After a fault of the disk the desk takes no command any more.
    ///
    /// Refused in this order: `Shut`, `Verdict`, `JournalFull`, `Memory`, `DiskFault`. `signers` is
    /// how many there are, numbered from 0.
    pub fn commit(
        &mut self,
        alloc: Global,
        command: Command,
        signers: u32,
    ) -> Result<u64, DeskFault<D>>
        ensures place { OnOk result (CanCommit self.old command signers) }
        ensures recorded { OnOk result (self.new.records ≡ self.old.records ++ spelling command ∷ []) }
        ensures commands { OnOk result ((commands : List Command) → HasCommands self.old commands → HasCommands self.new (commands ++ command ∷ [])) }
        ensures counted { IfOk result (λ count. (count ≡ length self.new.records) × (count ≡ self.new.settings.count)) }
        ensures bytes { OnOk result (D.content self.new.disk ≡ option_map (stored (held_by self.old.records) (entry_bytes (spelling command))) (D.content self.old.disk)) }
        ensures open { OnOk result ((self.new.shut ≡ None) × (self.new.doubt ≡ None)) }

        ensures refused { IfErr result (λ fault. IsDeskFault D.Disk fault command signers self.old self.new) }
        ensures number { self.new.number ≡ self.old.number }

        // A crash at any moment of the call leaves the records from before it, with the new one or
        // without; a shut desk's with the one that was in doubt or without. After Ok, with it.
        ensures any_moment { LeavesOnly D.Disk self.old.disk self.new.disk (RecoversToKnown (D.content self.old.disk) self.old.records (stake_of self.old.shut self.old.doubt (spelling command))) }
        ensures durable { OnOk result ((c : List ℕ) → D.may_leave self.new.disk c → RecoversToKnown (D.content self.old.disk) self.new.records None c) }
        // After every answer.
        ensures safe { IsSafe D.Disk self.new }
        ensures later { D.fault_count self.old.disk ≤ D.fault_count self.new.disk }
    {
        if let Some(fault) = self.refusal(&command, signers) {
            return Err(fault);
        }
        let Desk {
            journal,
            config,
            body,
            ..
        } = self;
        let Ok(payload) = prepare(alloc, &command, journal, config, body) else {
            return Err(DeskFault::Memory);
        };
        let record = payload.as_slice();
        match self.journal.append(record) {
            Ok(()) => {
                add_to_body(&mut self.body, record);
                self.config.apply(command);
                Ok(self.config.count())
            }
            Err(fault) => Err(fault_of(self.number, fault)),
        }
    }

    // Why the command isn't taken, before anything is done.
    fn refusal(&self, command: &Command, signers: u32) -> Option<DeskFault<D>>
        ensures answer { MatchOption result (CanCommit self.now command.now signers) (λ fault. IsDeskFault D.Disk fault command.now signers self.now self.now) }
        ensures safe { IsSafe D.Disk self.now }
    {
        let verdict = verdict(&self.config, command, signers);
        match self.journal.refusal(needed(command)) {
            Some(AppendFault::Shut { rose }) => {
                let rose = DeskRose::new(self.number, rose);
                Some(DeskFault::Shut { rose })
            }
            Some(AppendFault::JournalFull { held, needed }) => Some(match verdict {
                Err(refusal) => DeskFault::Verdict { refusal },
                Ok(()) => DeskFault::JournalFull { held, needed },
            }),
            Some(AppendFault::DiskFault { .. }) => unreachable!(),
            None => match verdict {
                Err(refusal) => Some(DeskFault::Verdict { refusal }),
                Ok(()) => None,
            },
        }
    }

    /// The disk, as it stands. It holds the desk's records, and so does what a crash then leaves;
    /// with the one in doubt, or without it, where a fault shut the journal.
    pub fn close(self) -> D
        ensures disk { result ≡ self.disk }
        ensures content { IfSome (D.content result) (RecoversTo self.records self.doubt) }
        ensures images { (c : List ℕ) → D.may_leave result c → RecoversToKnown (D.content result) self.records self.doubt c }
    {
        self.journal.close()
    }
}
