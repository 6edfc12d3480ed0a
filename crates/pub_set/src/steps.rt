//! Changes of a set (RFC 8181, section 2.2).

ghost use Rattle.std.specs.Prelude.{◌≡◌, IfOk};
ghost use Rattle.pub_set.specs.Changes.{uri_of, left_by};

use crate::parts::{Content, Uri};
use std::alloc::{AllocError, Global};

/// One change of a set (RFC 8181, section 2.2). Hashes are SHA-256.
#[derive(Debug, Drop)]
pub enum Change {
    /// Puts an object at a URI where there is none, or in place of the one with the hash.
    Put {
        uri: Uri,
        bytes: Content,
        replaces: Option<[u8; 32]>,
    },
    /// Takes out the object with the hash.
    Withdraw {
        uri: Uri,
        hash: [u8; 32],
    },
}

impl Change {
    /// The URI whose object is changed.
    pub fn uri(&self) -> &Uri
        ensures { result.now ≡ uri_of self.now }
    {
        match self {
            Change::Put { uri, .. } => uri,
            Change::Withdraw { uri, .. } => uri,
        }
    }

    /// The URI whose object is changed, and what stands there after it.
    pub fn into_end(self) -> (Uri, Option<Content>)
        ensures uri { result.0 ≡ uri_of self }
        ensures left { result.1 ≡ left_by self }
    {
        match self {
            Change::Put { uri, bytes, .. } => (uri, Some(bytes)),
            Change::Withdraw { uri, .. } => (uri, None),
        }
    }

    /// The same change. The bytes that it puts are shared.
    pub fn copy(&self, alloc: Global) -> Result<Change, AllocError>
        ensures { IfOk result (λ copy. copy ≡ self.now) }
    {
        match self {
            Change::Put {
                uri,
                bytes,
                replaces,
            } => Ok(Change::Put {
                uri: uri.copy(alloc)?,
                bytes: bytes.share()?,
                replaces: *replaces,
            }),
            Change::Withdraw { uri, hash } => Ok(Change::Withdraw {
                uri: uri.copy(alloc)?,
                hash: *hash,
            }),
        }
    }
}
