//! What the objects say, made before any time is taken.

use anyhow::{Context, Result};
use cert_obj::{Cert, CertKind, CertUris, Held};
use key_ids::KeyId;
use origins::{Origin, Prefix};
use payloads::{RoaBody, RoaEntry};
use res_sets::{Family, Ranges, Resources};
use signer_api::{PublicKey, Signature};
use std::alloc::Global;

/// 2026-01-01T00:00:00Z.
const FROM: u64 = 1_767_225_600;

/// A year later.
const TO: u64 = 1_798_761_600;

/// The header of a key's SEQUENCE and of its modulus.
const KEY_HEAD: [u8; 9] = [0x30, 0x82, 0x01, 0x0a, 0x02, 0x82, 0x01, 0x01, 0x00];

/// The INTEGER 65,537.
const KEY_END: [u8; 5] = [0x02, 0x03, 0x01, 0x00, 0x01];

/// A ROA, the certificate of the key that signs it, and the two signatures, which nobody made.
#[derive(Drop)]
pub struct Given {
    pub cert: Cert,
    pub body: RoaBody,
    /// When the object is signed.
    pub moment: u64,
    pub signature: Signature,
}

/// A public key of its own for each number.
fn key_of(alloc: Global, number: u32) -> Result<PublicKey> {
    let mut bytes = Vec::new(alloc);
    bytes.extend_from_slice(&KEY_HEAD)?;
    for i in 0..64u32 {
        let word = number.wrapping_mul(2_654_435_761).wrapping_add(i) | 0x8000_0000;
        bytes.extend_from_slice(&word.to_be_bytes())?;
    }
    bytes.extend_from_slice(&KEY_END)?;
    PublicKey::read(&bytes).context("no key")
}

/// The /24 with this number, of AS 64496.
fn origin_of(number: u32) -> Result<Origin> {
    let address = u128::from(number % 65_536) * 256 + 0x0a00_0000;
    let prefix = Prefix::new(false, address, 24).context("no prefix")?;
    Origin::new(prefix, 24, 64_496).context("no origin")
}

/// The resources of just that prefix.
fn held_of(alloc: Global, origin: &Origin) -> Result<Held> {
    let address = origin.prefix.address;
    let text = format!(in alloc;
        "{}.{}.{}.0/24",
        address / 16_777_216 % 256,
        address / 65_536 % 256,
        address / 256 % 256
    )?;
    let mut resources = Resources::empty(alloc);
    resources.v4 = Ranges::read_text(alloc, Family::V4, text.as_str())?;
    Ok(Held::Set { resources })
}

/// The three URIs of the certificate of a ROA's key.
fn uris_of(alloc: Global, issuer: &KeyId, number: u32) -> Result<CertUris> {
    let name = hex::encode(alloc, &issuer.bytes)?;
    Ok(CertUris {
        crl: format!(in alloc; "rsync://rpki.example/repo/isp/0/{name}.crl")?,
        issuer: format!(in alloc; "rsync://rpki.example/repo/ta/0/{name}.cer")?,
        folder: String::new(alloc),
        manifest: String::new(alloc),
        notify: String::new(alloc),
        object: format!(in alloc; "rsync://rpki.example/repo/isp/0/{number:044x}.roa")?,
    })
}

/// What the object with this number says.
pub fn given_of(alloc: Global, number: u32) -> Result<Given> {
    let origin = origin_of(number)?;
    let issuer = KeyId { bytes: [0x6b; 20] };
    let entry = RoaEntry {
        prefix: origin.prefix,
        max: origin.max,
    };
    Ok(Given {
        cert: Cert {
            serial: u64::from(number) + 1,
            issuer,
            not_before: FROM,
            not_after: TO,
            key: key_of(alloc, number)?,
            kind: CertKind::EndEntity,
            held: held_of(alloc, &origin)?,
            uris: uris_of(alloc, &issuer, number)?,
        },
        body: RoaBody {
            asn: origin.asn,
            entries: vec![in alloc; entry]?,
        },
        moment: FROM,
        signature: Signature { bytes: [0x5a; 256] },
    })
}
