//! What the files say (RFC 8182 section 3.5).

ghost use Rattle.std.specs.Prelude.{◌≡◌};

use pub_set::{Change, ObjectSet, Uri};
use std::marker::Model;
use uuid::Uuid;

/// A file, and the SHA-256 hash of its bytes (RFC 8182 section 3.5.1.3).
#[derive(Debug, Drop)]
pub struct FileRef {
    pub uri: Uri,
    pub hash: [u8; 32],
}

/// The delta that leads to a serial (RFC 8182 section 3.5.1.3).
#[derive(Debug, Drop)]
pub struct DeltaRef {
    /// The serial of the edition to which it leads.
    pub serial: u64,
    pub file: FileRef,
}

/// What a snapshot says (RFC 8182 section 3.5.2).
#[derive(Debug, Drop)]
pub struct SnapshotFile {
    pub session: Uuid,
    /// The serial of its edition.
    pub serial: u64,
    pub set: ObjectSet,
}

/// What a delta says (RFC 8182 section 3.5.3).
#[derive(Debug, Drop)]
pub struct DeltaFile {
    pub session: Uuid,
    /// The serial of the edition to which it leads.
    pub serial: u64,
    pub changes: Changes,
}

/// Changes in the order of a delta. A clause sees their list.
#[derive(Debug, Drop)]
pub struct Changes {
    changes: Vec<Change>,
}

impl Model for Changes {
    ghost use Rattle.std.specs.Prelude.{List};
    ghost use Rattle.pub_set.specs.declared.steps.Change.{Change};

    ghost Value = { List Change };

    ghost view = { λ changes. changes.changes.items };
}

impl Changes {
    /// These changes. Takes no memory.
    pub fn new(changes: Vec<Change>) -> Changes
        ensures { result ≡ changes.items }
    {
        Changes { changes }
    }

    /// The changes.
    pub fn as_slice(&self) -> &[Change]
        ensures { result.now ≡ self.now }
    {
        self.changes.as_slice()
    }

    /// The changes, given back.
    pub fn into_vec(self) -> Vec<Change>
        ensures { result.items ≡ self }
    {
        self.changes
    }
}
