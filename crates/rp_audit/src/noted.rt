//! What is noted of a walk.

ghost use Rattle.std.specs.Prelude.{◌≡◌, []};
ghost use Rattle.rp_audit.specs.inner.Noted.{Sees};

use crate::visited_uris::VisitedUris;
use rp_rules::{AuditedPoint, YieldedOrigin};
use std::alloc::Global;

/// What was visited, and what it yields.
#[derive(Drop)]
pub struct Noted {
    pub visited_uris: VisitedUris,
    pub origins: Vec<YieldedOrigin>,
    pub points: Vec<AuditedPoint>,
}

impl Noted {
    pub fn new(alloc: Global) -> Noted
        ensures visited_uris { Sees [] result.visited_uris }
        ensures origins { result.origins.items ≡ [] }
        ensures points { result.points.items ≡ [] }
    {
        Noted {
            visited_uris: VisitedUris::new(alloc),
            origins: Vec::new(alloc),
            points: Vec::new(alloc),
        }
    }
}
