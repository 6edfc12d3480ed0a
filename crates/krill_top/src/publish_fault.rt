//! Why no edition is made.

ghost use Rattle.std.specs.Prelude.{◌≡◌};
ghost use Rattle.krill_top.specs.Publishing as spec;

use disk_api::Disk;
use press_core::{CommitFault, PrepareFault};

/// Why no edition is made, in the order in which it is asked.
#[derive(Drop)]
pub enum PublishFault<D: Disk> {
    /// None was prepared, and nothing was written.
    Unprepared { fault: PrepareFault<D> },
    /// The press's disk failed while the edition's record was written. It may be found after a restart, or
    /// not.
    Uncommitted { fault: CommitFault<D> },
}

impl<D: Disk> PublishFault<D> {
    /// Whether an edition may be found after a restart.
    pub fn leaves_doubt(&self) -> bool
        ensures { result ≡ spec.leaves_doubt (spec.unmade_of self.now) }
    {
        matches!(self, PublishFault::Uncommitted { .. })
    }

    // Whether there was nothing to publish.
    pub(crate) fn is_nothing(&self) -> bool
        ensures { result ≡ spec.is_nothing (spec.unmade_of self.now) }
    {
        match self {
            PublishFault::Unprepared { fault } => matches!(fault, PrepareFault::Nothing { .. }),
            PublishFault::Uncommitted { .. } => false,
        }
    }

    // Whether memory was wanting.
    pub(crate) fn is_wanting(&self) -> bool
        ensures { result ≡ spec.is_wanting (spec.unmade_of self.now) }
    {
        match self {
            PublishFault::Unprepared { fault } => matches!(fault, PrepareFault::Memory),
            PublishFault::Uncommitted { .. } => false,
        }
    }
}

impl<D: Disk> From<PrepareFault<D>> for PublishFault<D> {
    ghost use Rattle.std.specs.Prelude.{◌≡◌};
    ghost use Rattle.krill_top.specs.declared.publish_fault.PublishFault.TheVariants as made;

    ghost from_gives = { λ fault publish. publish ≡ made.Unprepared fault };

    fn from(fault: PrepareFault<D>) -> Self {
        PublishFault::Unprepared { fault }
    }
}

impl<D: Disk> From<CommitFault<D>> for PublishFault<D> {
    ghost use Rattle.std.specs.Prelude.{◌≡◌};
    ghost use Rattle.krill_top.specs.declared.publish_fault.PublishFault.TheVariants as made;

    ghost from_gives = { λ fault publish. publish ≡ made.Uncommitted fault };

    fn from(fault: CommitFault<D>) -> Self {
        PublishFault::Uncommitted { fault }
    }
}
