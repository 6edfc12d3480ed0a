//! The first record of a press's journal: whose store it is.

ghost use Rattle.std.specs.Prelude.{◌≡◌, length, IfOk};
ghost use Rattle.record_forms.specs.Forms.{read_whole};
ghost use Rattle.record_forms.specs.Outcome.{Gives, IsUnlessMemory};
ghost use Rattle.press_records.specs.Store.{Store, stores, store_value, IsStoreRecord};
ghost use Rattle.press_records.specs.inner.Sites.{IsSiteOf};

use key_ids::{Site, SiteFault};
use record_forms::{ReadFault, behind_byte, front, push_sized, sized};
use std::alloc::{AllocError, Global};

/// Whose store it is.
#[derive(Drop)]
pub struct StoreRecord {
    /// The session identifier of RRDP (RFC 8182 section 3.3.1).
    pub session: [u8; 16],
    /// The bases of the repository.
    pub site: Site,
}

// The session of these 16 bytes.
fn session_of(field: &[u8]) -> [u8; 16]
    requires { length field.now ≡ 16 }
    ensures { result ≡ field.now }
{
    let mut session = [0; 16];
    session.copy_from_slice(field);
    session
}

// The session and the texts of the bases.
#[tactic(auto, unfolding(crate::specs::Store::stores))]
fn fields(bytes: &[u8]) -> Result<([u8; 16], &[u8], &[u8]), ReadFault>
    ensures { Gives (λ x. (x.0, (x.1.now, x.2.now))) result (read_whole stores bytes.now) }
{
    if bytes.len() >= 1 << 32 {
        return Err(ReadFault::Bad);
    }
    let bytes = behind_byte(bytes, 0)?;
    let bytes = behind_byte(bytes, 0)?;
    let bytes = behind_byte(bytes, 1)?;
    let (session, bytes) = front(bytes, 16)?;
    let (rsync, bytes) = sized(bytes)?;
    let (rrdp, bytes) = sized(bytes)?;
    if !bytes.is_empty() {
        return Err(ReadFault::Bad);
    }
    Ok((session_of(session), rsync, rrdp))
}

// The repository with these bases, if they are such.
#[tactic(auto, using(crate::proofs::Bases::base_utf8))]
fn site_of(alloc: Global, rsync: &[u8], rrdp: &[u8]) -> Result<Site, ReadFault>
    ensures { IsSiteOf rsync.now rrdp.now result }
{
    let Ok(rsync_text) = str::from_utf8(rsync) else {
        return Err(ReadFault::Bad);
    };
    let Ok(rrdp_text) = str::from_utf8(rrdp) else {
        return Err(ReadFault::Bad);
    };
    match Site::read(alloc, rsync_text, rrdp_text) {
        Ok(site) => Ok(site),
        Err(SiteFault::BadRsync | SiteFault::BadRrdp) => Err(ReadFault::Bad),
        Err(SiteFault::Memory) => Err(ReadFault::Memory),
    }
}

/// The store whose record this is.
///
/// It answers `Bad` exactly where the bytes are no store's record, and `Memory` where memory runs out.
pub fn read_store(alloc: Global, bytes: &[u8]) -> Result<StoreRecord, ReadFault>
    // What is read is spelled so, each byte of it, and what is spelled so is read.
    ensures found { IfOk result (λ found. IsStoreRecord (store_value found) bytes.now) }
    ensures only { (wanted : Store) → IsStoreRecord wanted bytes.now
        → IsUnlessMemory store_value result wanted }
{
    let (session, rsync, rrdp) = fields(bytes)?;
    let site = site_of(alloc, rsync, rrdp)?;
    Ok(StoreRecord { session, site })
}

impl StoreRecord {
    /// Its bytes.
    #[tactic(auto, unfolding(crate::specs::Store::stores))]
    pub fn write(&self, alloc: Global) -> Result<Vec<u8>, AllocError>
        ensures { IfOk result (λ bytes. bytes.items ≡ stores.spelling (store_value self.now)) }
    {
        let mut bytes = Vec::with_capacity(alloc, 427)?;
        bytes.extend_from_slice(&[0, 0, 1])?;
        bytes.extend_from_slice(&self.session)?;
        push_sized(&mut bytes, self.site.rsync().as_bytes())?;
        push_sized(&mut bytes, self.site.rrdp().as_bytes())?;
        Ok(bytes)
    }
}
