//! Why nothing was published.
ghost use Rattle.std.specs.Prelude.{◌≡◌, is_some};
ghost use Rattle.manager.specs.Answers.{nothing_behind};

use disk_api::Disk;
use outlet_api::{ExportFault, Outlet};
use press_core::{CommitFault, PrepareFault};

/// Why no edition was made.
#[derive(Drop)]
pub enum Unmade<D: Disk> {
    /// None was prepared, and nothing was written.
    Unprepared { fault: PrepareFault<D> },
    /// The press's disk failed while the edition's record was written. It may be found after a restart, or
    /// not.
    Uncommitted { fault: CommitFault<D> },
}

impl<D: Disk> Unmade<D> {
    /// Whether there was nothing to publish.
    pub fn is_nothing(&self) -> bool
        ensures { result ≡ is_some (nothing_behind self.now) }
    {
        match self {
            Unmade::Unprepared { fault } => matches!(fault, PrepareFault::Nothing { .. }),
            Unmade::Uncommitted { .. } => false,
        }
    }
}

/// Why nothing was published. `serial` is that of the edition which stands, and 0 where there is none.
#[derive(Drop)]
pub enum PublishFault<D: Disk, O: Outlet> {
    /// No edition was made, and where there was nothing to publish, none was to be exported again.
    Unmade { serial: u64, fault: Unmade<D> },
    /// There was nothing to publish, and the last edition, whose export had failed, was exported.
    Repeated { serial: u64, fault: Unmade<D> },
    /// The edition of that serial stands, made now or before, and couldn't be brought to the outlet. The
    /// next publication tries it again.
    Unexported { serial: u64, fault: ExportFault<O> },
}
