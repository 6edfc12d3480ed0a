// How an object counts its calls that failed.
ghost use Rattle.std.specs.Prelude.{◌≡◌, ◌<◌, ◌≤◌, IfOk, IfErr, OnOk, OnErr, IsErr, IsErrOf, Ok, Err, ◌-◌, ◌^◌};
ghost use Rattle.host_calls.specs.Faults.{CountsAnswer, last_of};
ghost use Rattle.host_calls.specs.Rise.{HasRisen};

use crate::CallFault;
use crate::counting::raised;

/// How often calls failed, and how many more interruptions are no failure.
#[derive(Drop)]
pub struct Tally {
    faults: u64,
    patience: u64,
}

impl Tally {
    ghost use Rattle.host_calls.specs.Counts.{fault_count, patience_of};

    /// No call has failed. 2^64 - 1 interruptions are none.
    pub fn new() -> Tally
        ensures fresh { fault_count result ≡ 0 }
        ensures patient { patience_of result ≡ 2 ^ 64 - 1 }
    {
        Tally {
            faults: 0,
            patience: u64::MAX,
        }
    }

    /// How often calls failed.
    pub fn faults(&self) -> u64
        ensures { result ≡ fault_count self.now }
    {
        self.faults
    }

    /// Counts a call by its answer, and hands the answer on. An interruption is a failure once there
    /// were too many.
    pub fn count<T>(&mut self, answer: Result<T, CallFault>) -> Result<T, CallFault>
        ensures counts { CountsAnswer (fault_count self.old) (fault_count self.new)
            (patience_of self.old) (patience_of self.new) result }
        ensures ok { IfOk answer (λ value. result ≡ Ok value) }
        ensures err { OnErr answer (IsErr result) }
        ensures memory { IsErrOf answer CallFault.Memory → IsErrOf result CallFault.Memory }
        ensures failed { IsErrOf answer CallFault.Failed → IsErrOf result CallFault.Failed }
        ensures interrupted { 0 < patience_of self.old
            → IsErrOf answer CallFault.Interrupted → IsErrOf result CallFault.Interrupted }
    {
        match answer {
            Ok(value) => Ok(value),
            Err(CallFault::Interrupted) if self.patience > 0 => {
                self.patience -= 1;
                Err(CallFault::Interrupted)
            }
            Err(fault) => {
                self.faults = raised(self.faults);
                Err(last_of(fault))
            }
        }
    }

    /// Counts a call that no interruption excuses.
    pub fn count_whole<T>(&mut self, answer: Result<T, CallFault>) -> Result<T, CallFault>
        ensures later { fault_count self.old ≤ fault_count self.new }
        ensures risen { OnErr result (HasRisen (fault_count self.old) (fault_count self.new)) }
        ensures same { OnOk result (fault_count self.new ≡ fault_count self.old) }
        ensures ok { IfOk answer (λ value. result ≡ Ok value) }
        ensures err { IfErr answer (λ fault. result ≡ Err (last_of fault)) }
    {
        match answer {
            Ok(value) => Ok(value),
            Err(fault) => {
                self.faults = raised(self.faults);
                Err(last_of(fault))
            }
        }
    }
}

// What a call is told that may not be interrupted.
fn last_of(fault: CallFault) -> CallFault
    ensures { result ≡ last_of fault }
{
    match fault {
        CallFault::Memory => CallFault::Memory,
        CallFault::Interrupted | CallFault::Failed => CallFault::Failed,
    }
}
