//! What comes of a publication.

ghost use Rattle.std.specs.Prelude.{◌≡◌};
ghost use Rattle.krill_top.specs.Publishing as spec;
ghost use Rattle.krill_top.specs.Publishing.{outcome_of};

use crate::publish_fault::PublishFault;
use disk_api::Disk;
use editions::PublishedNumbers;
use outlet_api::{ExportFault, Outlet};

/// What comes of a publication.
#[derive(Drop)]
pub enum Publication<D: Disk, O: Outlet> {
    /// An edition was made, and brought to the outlet.
    Published { published: PublishedNumbers },
    /// The edition of that serial stands, made now or before, and couldn't be brought to the outlet. The
    /// next publication tries it again.
    Unexported { serial: u64, fault: ExportFault<O> },
    /// There was nothing to publish, and the last edition was brought to the outlet, which had failed
    /// before.
    Repeated { fault: PublishFault<D> },
    /// No edition was made: that of this serial stands, or none where it is 0, and nothing was exported.
    /// One whose record the press's disk failed to write is in doubt.
    Refused { serial: u64, fault: PublishFault<D> },
}

impl<D: Disk, O: Outlet> Publication<D, O> {
    /// Whether it changed the editions, what is in doubt of them, or what is exported of them.
    pub fn has_changed(&self) -> bool
        ensures { result ≡ spec.has_changed (outcome_of self.now) }
    {
        match self {
            Publication::Published { .. }
            | Publication::Unexported { .. }
            | Publication::Repeated { .. } => true,
            Publication::Refused { fault, .. } => fault.leaves_doubt(),
        }
    }
}
