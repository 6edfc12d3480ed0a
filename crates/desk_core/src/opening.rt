// What a journal's records come to, read one after another.
ghost use Rattle.std.specs.Prelude.{◌≡◌, ◌≤◌, ◌++◌, [], ◌∷◌, ℕ, List, Option, length, true, false, IfOk, IfErr, OnOk, IfSome};
ghost use Rattle.authority_book.specs.declared.commands.Command.{Command};
ghost use Rattle.authority_book.specs.Fold.{fold_of};
ghost use Rattle.host_calls.specs.Rise.{HasRisen};
ghost use Rattle.gate_journal.specs.Format.{taken_by, payloads};
ghost use Rattle.gate_journal.specs.View.{IsSafe, HasSizes};
ghost use Rattle.gate_journal.specs.Answers.{IsSameButDisk};
ghost use Rattle.disk_api.specs.Runs.{Rests};
ghost use Rattle.desk_core.specs.Commands.{RecordsNoNext, IsFirstBad};
ghost use Rattle.desk_core.specs.inner.Kept.{IsLoaded};

use crate::DeskOpenFault;
use authority_book::{Config, verdict_unasked};
use cmd_codec::RecordFault;
use disk_api::Disk;
use gate_journal::Journal;
use std::alloc::{AllocError, Global};

/// The records of a journal as they lie in its file, and what their commands come to.
#[derive(Drop)]
pub(crate) struct Loaded {
    pub(crate) config: Config,
    pub(crate) body: Vec<u8>,
}

/// What no commands come to.
fn begin(alloc: Global, number: u32) -> Result<Config, AllocError>
    ensures { IfOk result (λ config. IsLoaded number config.settings []) }
{
    Config::new(alloc, number)
}

/// Takes in the next record, if it is that of a command accepted after those before it.
fn take_in(alloc: Global, config: &mut Config, payload: &[u8]) -> Result<bool, AllocError>
    ensures loaded { IfOk result (λ is_taken. is_taken ≡ true → (number : ℕ) (records : List (List ℕ))
        → IsLoaded number config.old.settings records → IsLoaded number config.new.settings (records ++ payload.now ∷ [])) }
    ensures bad { IfOk result (λ is_taken. is_taken ≡ false → (number : ℕ) (commands : List Command)
        → config.old.settings ≡ fold_of number commands → RecordsNoNext number commands payload.now) }
{
    let command = match cmd_codec::read(alloc, payload) {
        Ok(command) => command,
        Err(RecordFault::BadRecord { .. }) => return Ok(false),
        Err(RecordFault::Memory) => return Err(AllocError),
    };
    // Its signer was there when the command was accepted.
    if verdict_unasked(config, &command).is_err() {
        return Ok(false);
    }
    config.reserve(alloc, &command)?;
    config.apply(command);
    Ok(true)
}

/// What the commands of the records come to, in their order.
fn fold<D: Disk>(
    alloc: Global,
    number: u32,
    journal: &Journal<D>,
    body: &[u8],
) -> Result<Config, DeskOpenFault>
    requires { length body.now ≡ taken_by journal.now.sizes }
    ensures loaded { IfOk result (λ config. IsLoaded number config.settings (payloads journal.now.sizes body.now)) }
    ensures bad { IfErr result (λ fault. (at : ℕ) → fault ≡ DeskOpenFault.BadRecord at → IsFirstBad number (payloads journal.now.sizes body.now) at) }
    ensures undamaged { IfErr result (λ fault. (at : ℕ) → fault ≡ DeskOpenFault.Damaged at → ⊥) }
    ensures no_fault { IfErr result (λ fault. fault ≡ DeskOpenFault.DiskFault → ⊥) }
{
    let mut config = begin(alloc, number)?;
    for index in 0..journal.count() {
        let payload = journal.payload(body, index);
        if !take_in(alloc, &mut config, payload)? {
            return Err(DeskOpenFault::BadRecord { at: index });
        }
    }
    Ok(config)
}

/// Reads the records of a journal, in one piece.
pub(crate) fn load<D: Disk>(
    alloc: Global,
    number: u32,
    journal: &mut Journal<D>,
) -> Result<Loaded, DeskOpenFault>
    requires sizes { HasSizes journal.old }
    requires safe { IsSafe D.Disk journal.old }

    ensures loaded { IfOk result (λ loaded. IsLoaded number loaded.config.settings (payloads journal.old.sizes loaded.body.items)) }
    ensures known { IfOk result (λ loaded. IfSome journal.old.records (λ all. all ≡ payloads journal.old.sizes loaded.body.items)) }
    ensures size { IfOk result (λ loaded. length loaded.body.items ≡ taken_by journal.old.sizes) }
    ensures open { OnOk result (journal.new.shut ≡ journal.old.shut) }

    ensures bad { IfErr result (λ fault. (at : ℕ) → fault ≡ DeskOpenFault.BadRecord at → IfSome journal.old.records (λ all. IsFirstBad number all at)) }
    ensures undamaged { IfErr result (λ fault. (at : ℕ) → fault ≡ DeskOpenFault.Damaged at → ⊥) }
    ensures failed { IfErr result (λ fault. fault ≡ DeskOpenFault.DiskFault → HasRisen (D.fault_count journal.old.disk) (D.fault_count journal.new.disk)) }

    ensures same { IsSameButDisk journal.old journal.new }
    ensures disk { Rests D.Disk journal.old.disk journal.new.disk }
    ensures later { D.fault_count journal.old.disk ≤ D.fault_count journal.new.disk }
    ensures safe { IsSafe D.Disk journal.new }
{
    let body = journal.body(alloc)?;
    let config = fold(alloc, number, journal, body.as_slice())?;
    Ok(Loaded { config, body })
}
