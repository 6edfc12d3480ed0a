//! Where the live keys publish (RFC 6481 section 2.2).

ghost use Rattle.std.specs.Prelude.{◌≡◌, map, IfOk};
ghost use Rattle.std.specs.List.{list_any};
ghost use Rattle.cert_obj.specs.Values.{cert_value};
ghost use Rattle.press_core.specs.Tables.{home_of, homes_of, is_home, is_at_home};
ghost use Rattle.press_core.specs.inner.Rows.{home_value};

use crate::roa_uris::name_of;
use authority_book::NameRow;
use cert_obj::Cert;
use key_ids::Site;
use key_roll::KeyRow;
use signer_api::PublicKey;
use std::alloc::{AllocError, Global};

/// A live key, and the folder of its authority.
#[derive(Drop)]
pub struct Home {
    pub key: PublicKey,
    pub folder: String,
}

fn home_of(alloc: Global, site: &Site, names: &[NameRow], row: &KeyRow) -> Result<Home, AllocError>
    ensures { IfOk result (λ home. home_value home ≡ home_of site.now names.now row.now) }
{
    Ok(Home {
        key: row.key,
        folder: site.folder(alloc, name_of(names, row.desk))?,
    })
}

/// Those of all live keys, at most 128.
pub fn homes_of(
    alloc: Global,
    site: &Site,
    names: &[NameRow],
    rows: &[KeyRow],
) -> Result<Vec<Home>, AllocError>
    ensures { IfOk result (λ homes. map home_value homes.items ≡ homes_of site.now names.now rows.now) }
{
    let mut homes = Vec::with_capacity(alloc, rows.len())?;
    for row in rows {
        homes.push(home_of(alloc, site, names, row)?)?;
    }
    Ok(homes)
}

fn is_home(home: &Home, cert: &Cert) -> bool
    ensures { result ≡ is_home (cert_value cert.now) (home_value home.now) }
{
    home.key.bytes == cert.key.bytes && home.folder.as_bytes() == cert.uris.folder.as_bytes()
}

fn has_home(homes: &[Home], cert: &Cert) -> bool
    ensures { result ≡ list_any (λ home. is_home (cert_value cert.now) (home_value home)) homes.now }
{
    homes.iter().any(|home| is_home(home, cert))
}

/// Whether the certificate names the folder of its key's authority.
pub fn is_at_home(homes: &[Home], cert: &Cert) -> bool
    ensures { result ≡ is_at_home (map home_value homes.now) (cert_value cert.now) }
{
    has_home(homes, cert)
}
