//! Which URIs were visited.

ghost use Rattle.std.specs.Prelude.{◌≡◌, ℕ, List, [], ◌∷◌, ◌++◌, OnOk};
ghost use Rattle.std.specs.String.{string_bytes};
ghost use Rattle.rp_rules.specs.Certificates.{is_among};
ghost use Rattle.rp_audit.specs.inner.Noted.{Sees};

use std::alloc::{AllocError, Global};
use std::collections::BTreeSet;

/// The URIs that were visited.
#[derive(Drop)]
pub struct VisitedUris {
    pub uris: BTreeSet<String>,
}

impl VisitedUris {
    pub fn new(alloc: Global) -> VisitedUris
        ensures { Sees [] result }
    {
        VisitedUris {
            uris: BTreeSet::new(alloc),
        }
    }

    /// Whether the URI was visited.
    pub fn has(&self, uri: &str) -> bool
        ensures { (uris : List (List ℕ)) → Sees uris self.now → result ≡ is_among uris uri.now }
    {
        self.uris.contains(uri)
    }

    /// The URI is visited.
    pub fn add(&mut self, uri: String) -> Result<(), AllocError>
        ensures { OnOk result ((uris : List (List ℕ)) → Sees uris self.old
            → Sees (uris ++ string_bytes uri ∷ []) self.new) }
    {
        self.uris.insert(uri)?;
        Ok(())
    }
}
