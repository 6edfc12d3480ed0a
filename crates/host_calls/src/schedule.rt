// Which numbered calls of an object in memory are to fail.
ghost use Rattle.std.specs.Prelude.{◌≡◌, ◌+◌, ◌-◌, ◌^◌, min};
ghost use Rattle.std.specs.Bool.{OnTrue, OnFalse};
ghost use Rattle.host_calls.specs.Rise.{HasRisen};

use crate::counting::raised;

/// Which numbered calls of an object in memory are to fail, and how often one failed.
///
/// A call is looked up along all the numbers. No call takes memory.
#[derive(Drop)]
pub struct Schedule {
    fails: Vec<u64>,
    calls: u64,
    faults: u64,
}

impl Schedule {
    ghost use Rattle.host_calls.specs.Schedule.{fails_next, faults_of, CountsCall, IsFresh, IsSameScript};

    /// The calls of these numbers, from 1, are to fail. None was made yet.
    pub fn new(fails: Vec<u64>) -> Schedule
        ensures { IsFresh result fails.items }
    {
        Schedule {
            fails,
            calls: 0,
            faults: 0,
        }
    }

    /// Counts a call, and says whether it is to fail. Where it is, its failure is counted too.
    pub fn count_call(&mut self) -> bool
        ensures fails { result ≡ fails_next self.old }
        ensures counts { CountsCall self.old self.new }
        ensures next { OnTrue result (faults_of self.new ≡ min (faults_of self.old + 1) (2 ^ 64 - 1)) }
        ensures risen { OnTrue result (HasRisen (faults_of self.old) (faults_of self.new)) }
        ensures same { OnFalse result (faults_of self.new ≡ faults_of self.old) }
    {
        self.calls = self.calls.saturating_add(1);
        let is_to_fail = self.fails.contains(&self.calls);
        if is_to_fail {
            self.faults = raised(self.faults);
        }
        is_to_fail
    }

    /// Counts a failure that no number asked for.
    pub fn count_fault(&mut self)
        ensures next { faults_of self.new ≡ min (faults_of self.old + 1) (2 ^ 64 - 1) }
        ensures risen { HasRisen (faults_of self.old) (faults_of self.new) }
        ensures script { IsSameScript self.old self.new }
    {
        self.faults = raised(self.faults);
    }

    /// How often a call failed.
    pub fn faults(&self) -> u64
        ensures { result ≡ faults_of self.now }
    {
        self.faults
    }
}
