//! Which changes of a query are refused (RFC 8181, sections 2.2 and 2.5).

ghost use Rattle.std.specs.Prelude.{◌≡◌, option_copied};
ghost use Rattle.pub_set.specs.Queries.{code_of, hash_code};
ghost use Rattle.pub_set.specs.declared.refusals.QueryRefused.TheVariants.{Memory};

use crate::parts::Uri;
use crate::steps::Change;
use sha2::{Digest, Sha256};
use std::alloc::{AllocError, AllocFailed};
use thiserror::Error;

/// The URI doesn't begin with the publisher's base (RFC 8181, section 2.5: `permission_failure`).
pub const PERMISSION_FAILURE: u32 = 1;

/// An object is put without a hash, and one is there (RFC 8181, section 2.5:
/// `object_already_present`).
pub const OBJECT_ALREADY_PRESENT: u32 = 2;

/// A hash is given, and no object is there (RFC 8181, section 2.5: `no_object_present`).
pub const NO_OBJECT_PRESENT: u32 = 3;

/// Another hash is given than that of the object that is there (RFC 8181, section 2.5:
/// `no_object_matching_hash`).
pub const NO_OBJECT_MATCHING_HASH: u32 = 4;

/// Why a query is refused (RFC 8181, section 2.5).
#[derive(Debug, Drop, Error)]
pub enum QueryRefused {
    /// The code of the first faulty change, and its URI.
    #[error("refused with code {code} at {uri}")]
    Query { code: u32, uri: Uri },
    #[error("out of memory")]
    Memory,
}

impl From<AllocError> for QueryRefused {
    ghost from_gives = { λ _ refused. refused ≡ Memory };

    fn from(_: AllocError) -> Self {
        QueryRefused::Memory
    }
}

impl<T: Drop> From<AllocFailed<T>> for QueryRefused {
    ghost from_gives = { λ _ refused. refused ≡ Memory };

    fn from(_: AllocFailed<T>) -> Self {
        QueryRefused::Memory
    }
}

/// The code with which the change is refused where these bytes are held at its URI. The base is
/// asked before the hash (RFC 8181, section 2.5).
pub fn refusal_code(base: &str, change: &Change, held: Option<&[u8]>) -> Option<u32>
    ensures { result ≡ code_of base.now (option_copied held.entry) change.now }
{
    if !change
        .uri()
        .as_str()
        .as_bytes()
        .starts_with(base.as_bytes())
    {
        return Some(PERMISSION_FAILURE);
    }
    match change {
        Change::Put { replaces, .. } => unexpected(held, *replaces),
        Change::Withdraw { hash, .. } => unexpected(held, Some(*hash)),
    }
}

// What is wrong with a hash, or with none, where these bytes are held.
fn unexpected(held: Option<&[u8]>, hash: Option<[u8; 32]>) -> Option<u32>
    ensures { result ≡ hash_code (option_copied held.entry) hash }
{
    match (held, hash) {
        (None, None) => None,
        (Some(_), None) => Some(OBJECT_ALREADY_PRESENT),
        (None, Some(_)) => Some(NO_OBJECT_PRESENT),
        (Some(bytes), Some(hash)) => {
            if Sha256::digest(bytes) == hash {
                None
            } else {
                Some(NO_OBJECT_MATCHING_HASH)
            }
        }
    }
}
