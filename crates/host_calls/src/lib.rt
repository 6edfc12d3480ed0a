//! One call of the system: how it ends, and how an object counts its calls that failed.
//!
//! Adapters over files and streams are written over traits of such calls. What the system does is one
//! line for each call; a double in memory plays answers from a list. Whoever blames an object compares its counts
//! before and after a call.
#![tactic(auto)]

ghost use Rattle.std.specs.Prelude.{◌≡◌, ◌<◌, ◌≤◌, length, take, IfOk, IfErr, OnOk, OnErr, IsErr, Ok};
ghost use Rattle.std.specs.IoError.{error_kind};
ghost use Rattle.host_calls.specs.Faults.{call_fault};

use std::io;
use std::io::ErrorKind;
use thiserror::Error;

mod counting;
mod schedule;
mod script;
mod tally;

pub use counting::raised;
pub use schedule::Schedule;
pub use script::{Play, Script};
pub use tally::Tally;

/// Why a call of the system did nothing.
#[derive(Clone, Copy, Debug, PartialEq, Eq, Error)]
pub enum CallFault {
    /// A signal came first: the call may be made again.
    #[error("interrupted")]
    Interrupted,
    #[error("out of memory")]
    Memory,
    #[error("failed")]
    Failed,
}

/// What std answered, as the answer of a call.
pub fn called<T>(answer: io::Result<T>) -> Result<T, CallFault>
    ensures ok { IfOk answer (λ value. result ≡ Ok value) }
    ensures err { IfErr answer (λ error. IfErr result (λ fault. fault ≡ call_fault (error_kind error))) }
    ensures is_err { OnErr answer (IsErr result) }
{
    match answer {
        Ok(value) => Ok(value),
        Err(error) => Err(fault_of(error.kind())),
    }
}

fn fault_of(kind: ErrorKind) -> CallFault
    ensures { result ≡ call_fault kind }
{
    match kind {
        ErrorKind::Interrupted => CallFault::Interrupted,
        ErrorKind::OutOfMemory => CallFault::Memory,
        _ => CallFault::Failed,
    }
}

/// How many bytes a write took, which is a failure where it took none of some.
pub fn taken(answer: Result<usize, CallFault>, len: usize) -> Result<usize, CallFault>
    ensures ok { IfOk result (λ n. (answer ≡ Ok n) × (0 < len → 0 < n)) }
    ensures some { IfOk answer (λ n. 0 < n → result ≡ Ok n) }
    ensures none { IfOk answer (λ n. len ≡ 0 → result ≡ Ok n) }
    ensures zero { IfOk answer (λ n. n ≡ 0 → 0 < len → result ≡ Err CallFault.Failed) }
    ensures err { OnErr answer (result ≡ answer) }
{
    match answer {
        Ok(0) if len > 0 => Err(CallFault::Failed),
        answer => answer,
    }
}
