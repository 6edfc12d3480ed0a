//! The locator of a trust anchor (RFC 8630 section 2.2).

ghost use Rattle.std.specs.Prelude.{◌≡◌, ◌++◌, map, OnOk, IfOk};
ghost use Rattle.std.specs.String.{string_bytes};
ghost use Rattle.rrdp_text.specs.Locator.{key_info, locator_text, uri_lines};

use base64::encoded_len;
use base64::engine::general_purpose::STANDARD;
use std::alloc::{AllocError, Global};

const SEQUENCE: u8 = 0x30;

/// rsaEncryption with NULL (RFC 7935 section 3).
const KEY_ALGORITHM: &[u8] = &[
    0x30, 0x0d, 0x06, 0x09, 0x2a, 0x86, 0x48, 0x86, 0xf7, 0x0d, 0x01, 0x01, 0x01, 0x05, 0x00,
];

#[tactic(auto, unfolding(crate::specs::Locator::key_info))]
/// The SubjectPublicKeyInfo of an RSA key (RFC 5280 section 4.1.2.7).
fn key_info(alloc: Global, key: &[u8]) -> Result<Vec<u8>, AllocError>
    ensures { IfOk result (λ info. info.items ≡ key_info key.now) }
{
    let mut parts = Vec::from_slice(alloc, KEY_ALGORITHM)?;
    der::bits(alloc, &mut parts, 0, key)?;
    let mut info = Vec::new(alloc);
    der::element(alloc, &mut info, SEQUENCE, &parts)?;
    Ok(info)
}

/// How long the locator is.
fn size(uris: &[String], info: &[u8]) -> Option<usize> {
    let mut size = encoded_len(info.len(), true)?.checked_add(2)?;
    for uri in uris {
        size = size.checked_add(uri.len())?.checked_add(1)?;
    }
    Some(size)
}

/// The URIs, one a line.
fn push_uris(out: &mut String, uris: &[String]) -> Result<(), AllocError>
    ensures { OnOk result (string_bytes out.new ≡ string_bytes out.old ++ uri_lines (map string_bytes uris.now)) }
{
    for uri in uris {
        out.push_str(uri.as_str())?;
        out.push_str("\n")?;
    }
    Ok(())
}

#[tactic(auto, using(std::proofs::Common::append_assoc), unfolding(crate::specs::Locator::locator_text))]
/// The locator: the URIs of the anchor's certificate, one a line, an empty line, and its key (RFC
/// 8630 section 2.2).
pub fn locator_text(alloc: Global, uris: &[String], key: &[u8]) -> Result<String, AllocError>
    ensures { IfOk result (λ text. string_bytes text ≡ locator_text (map string_bytes uris.now) key.now) }
{
    let info = key_info(alloc, key)?;
    let mut out = String::with_capacity(alloc, size(uris, &info).ok_or(AllocError)?)?;
    push_uris(&mut out, uris)?;
    out.push_str("\n")?;
    STANDARD.encode_string(&info, &mut out)?;
    out.push_str("\n")?;
    Ok(out)
}
