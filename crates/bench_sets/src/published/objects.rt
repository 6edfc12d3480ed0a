//! The sets and the queries that are timed.

use pub_set::{Change, Content, Object, ObjectSet, Uri};
use sha2::{Digest, Sha256};
use std::alloc::{AllocError, Global};

/// What every URI begins with.
pub const BASE: &str = "rsync://rpki.example/repo/";

const LEN: usize = 2_000;

/// The URI of the object with this number, of ten. The numbers' order is that of the URIs.
pub fn uri_of(alloc: Global, number: u32) -> Result<Uri, AllocError> {
    Ok(Uri::new(format!(in alloc; "{BASE}{number:08x}.roa")?))
}

/// The bytes of an object, which are others for each number and edition.
pub fn bytes_of(alloc: Global, number: u32, edition: u8) -> Result<Vec<u8>, AllocError> {
    let mut bytes = vec![in alloc; edition; LEN]?;
    for (byte, place) in bytes.iter_mut().zip(number.to_be_bytes()) {
        *byte = place;
    }
    Ok(bytes)
}

/// So many objects with the even numbers. The one with `changed` is of another edition.
pub fn set_of(alloc: Global, count: u32, changed: u32) -> Result<ObjectSet, AllocError> {
    let mut set = ObjectSet::new(alloc);
    for i in 0..count {
        let number = i.saturating_mul(2);
        let uri = uri_of(alloc, number)?;
        let edition = if number == changed { 1 } else { 0 };
        let bytes = Content::new(alloc, bytes_of(alloc, number, edition)?)?;
        if set.is_behind(uri.as_str()) {
            set.push(Object { uri, bytes })?;
        }
    }
    Ok(set)
}

/// The put of an object where there is none.
pub fn put_new(alloc: Global, number: u32) -> Result<Change, AllocError> {
    Ok(Change::Put {
        uri: uri_of(alloc, number)?,
        bytes: Content::new(alloc, bytes_of(alloc, number, 0)?)?,
        replaces: None,
    })
}

/// The put of an object in place of another edition.
pub fn put_over(alloc: Global, number: u32, edition: u8) -> Result<Change, AllocError> {
    let replaced = bytes_of(alloc, number, 1 - edition % 2)?;
    Ok(Change::Put {
        uri: uri_of(alloc, number)?,
        bytes: Content::new(alloc, bytes_of(alloc, number, edition % 2)?)?,
        replaces: Some(Sha256::digest(&replaced)),
    })
}

/// The withdrawal of an object of the first edition.
pub fn withdraw(alloc: Global, number: u32) -> Result<Change, AllocError> {
    let gone = bytes_of(alloc, number, 0)?;
    Ok(Change::Withdraw {
        uri: uri_of(alloc, number)?,
        hash: Sha256::digest(&gone),
    })
}
