//! Writers of CRLs (RFC 5280 section 5.1, RFC 6487 section 5).

ghost use Rattle.std.specs.Prelude.{◌≡◌, ◌<◌, ◌^◌, ◌++◌, length, IfOk, OnOk};
ghost use Rattle.sha2.specs.Sha256.{sha256};
ghost use Rattle.der.specs.Tags as tag;
ghost use Rattle.der.specs.Spelling.{spelled};
ghost use Rattle.der.specs.Forms.{AreAll, many, spelled_some};
ghost use Rattle.der.specs.Object.{Spells};
ghost use Rattle.object_parts.specs.FrameFormats.{signature as signature_form};
ghost use Rattle.crl_obj.specs.Values.{CrlValue, IsEntry, IsCrl, crl_value};
ghost use Rattle.crl_obj.specs.Formats.{entry, listed, list_of, crl_number, extensions, body, parts_of, tbs_content, signed_bytes, signed_crl};

use crate::values::{Crl, CrlEntry};
use der::tags::{CONTEXT_0, INTEGER, OCTET_STRING, SEQUENCE};
use object_parts::identifiers::CRL_NUMBER;
use object_parts::{
    push_identifier, push_issuer_key, push_name, push_signature_algorithm, push_time, write_signed,
};
use signer_api::Signature;
use std::alloc::{AllocError, Global};

/// Appends a revoked certificate.
#[tactic(auto, using(std::proofs::Common::append_assoc), unfolding(crate::specs::Formats::entry, der::specs::Spelling::unsigned_spelling))]
fn push_entry(alloc: Global, out: &mut Vec<u8>, revoked: &CrlEntry) -> Result<(), AllocError>
    requires { IsEntry revoked.now }
    ensures { OnOk result (out.new.items ≡ out.old.items ++ entry.spelling revoked.now) }
{
    let from = out.len();
    der::unsigned(alloc, out, revoked.serial)?;
    push_time(alloc, out, revoked.revoked_at)?;
    der::enclose(alloc, out, from, SEQUENCE)
}

/// Appends entries, one after the other.
fn push_entries(alloc: Global, out: &mut Vec<u8>, entries: &[CrlEntry]) -> Result<(), AllocError>
    requires { AreAll IsEntry entries.now }
    ensures { OnOk result (out.new.items ≡ out.old.items ++ (many entry).spelling entries.now) }
{
    let mut rest = entries;
    while let Some((first, others)) = rest.split_first() {
        push_entry(alloc, out, first)?;
        rest = others;
    }
    Ok(())
}

/// Appends the list of entries.
#[tactic(auto, unfolding(crate::specs::Formats::listed))]
fn push_list(alloc: Global, out: &mut Vec<u8>, entries: &[CrlEntry]) -> Result<(), AllocError>
    requires { AreAll IsEntry entries.now }
    ensures { OnOk result (out.new.items ≡ out.old.items ++ listed.spelling entries.now) }
{
    let from = out.len();
    push_entries(alloc, out, entries)?;
    der::enclose(alloc, out, from, SEQUENCE)
}

/// Appends the list of entries, or nothing where there are none.
fn push_listed(alloc: Global, out: &mut Vec<u8>, entries: &[CrlEntry]) -> Result<(), AllocError>
    requires { AreAll IsEntry entries.now }
    ensures { OnOk result (out.new.items ≡ out.old.items
        ++ spelled_some listed.spelling (list_of entries.now)) }
{
    match entries.split_first() {
        Some(_) => push_list(alloc, out, entries),
        None => Ok(()),
    }
}

/// Appends the number of the CRL.
#[tactic(auto, using(std::proofs::Common::append_assoc), unfolding(der::specs::Spelling::unsigned_spelling))]
fn push_crl_number(alloc: Global, out: &mut Vec<u8>, number: u64) -> Result<(), AllocError>
    ensures { OnOk result (out.new.items ≡ out.old.items ++ crl_number.spelling number) }
{
    let from = out.len();
    push_identifier(alloc, out, &CRL_NUMBER)?;
    let value = out.len();
    der::unsigned(alloc, out, number)?;
    der::enclose(alloc, out, value, OCTET_STRING)?;
    der::enclose(alloc, out, from, SEQUENCE)
}

/// Appends the extensions.
#[tactic(auto, using(std::proofs::Common::append_assoc), unfolding(crate::specs::Formats::extensions))]
fn push_extensions(
    alloc: Global,
    out: &mut Vec<u8>,
    issuer: &[u8; 20],
    number: u64,
) -> Result<(), AllocError>
    ensures { OnOk result (out.new.items ≡ out.old.items
        ++ (extensions issuer.now).spelling number) }
{
    let from = out.len();
    push_issuer_key(alloc, out, issuer)?;
    push_crl_number(alloc, out, number)?;
    der::enclose(alloc, out, from, SEQUENCE)?;
    der::enclose(alloc, out, from, CONTEXT_0)
}

/// Appends what follows the issuer's name.
#[tactic(auto, using(std::proofs::Common::append_assoc), unfolding(crate::specs::Formats::body, crate::specs::Formats::revoked))]
fn push_body(alloc: Global, out: &mut Vec<u8>, crl: &Crl) -> Result<(), AllocError>
    requires { IsCrl (crl_value crl.now) }
    ensures { OnOk result (out.new.items ≡ out.old.items
        ++ (body crl.now.issuer.bytes).spelling (parts_of (crl_value crl.now)).1) }
{
    push_time(alloc, out, crl.this_update)?;
    push_time(alloc, out, crl.next_update)?;
    push_listed(alloc, out, &crl.entries)?;
    push_extensions(alloc, out, &crl.issuer.bytes, crl.number)
}

/// Appends the content of what is signed.
#[tactic(auto, using(std::proofs::Common::append_assoc), unfolding(crate::specs::Formats::tbs_content))]
fn push_content(alloc: Global, out: &mut Vec<u8>, crl: &Crl) -> Result<(), AllocError>
    requires { IsCrl (crl_value crl.now) }
    ensures { OnOk result (out.new.items ≡ out.old.items
        ++ tbs_content.spelling (crl_value crl.now)) }
{
    der::element(alloc, out, INTEGER, &[1])?;
    push_signature_algorithm(alloc, out)?;
    push_name(alloc, out, &crl.issuer.bytes)?;
    push_body(alloc, out, crl)
}

impl Crl {
    /// The bytes that are signed (tbsCertList, RFC 5280 section 5.1.2). Whether there are any,
    /// `has_spelling` says.
    #[tactic(auto, unfolding(crate::specs::Formats::signed_bytes))]
    pub fn tbs(&self, alloc: Global) -> Result<Vec<u8>, AllocError>
        requires { IsCrl (crl_value self.now) }
        ensures { IfOk result (λ bytes. bytes.items ≡ signed_bytes (crl_value self.now)) }
    {
        let mut out = Vec::new(alloc);
        push_content(alloc, &mut out, self)?;
        der::enclose(alloc, &mut out, 0, SEQUENCE)?;
        Ok(out)
    }
}

/// What the type says: a signature is 256 bytes.
fn is_whole(signature: &[u8; 256])
    ensures size { length signature.now ≡ 256 }
{}

/// The CRL of the bytes that are signed, and their signature (RFC 5280 section 5.1.1).
pub fn write(alloc: Global, tbs: &[u8], signature: &Signature) -> Result<Vec<u8>, AllocError>
    // An element around what is signed, the algorithm and the signature.
    ensures bytes { IfOk result (λ out.
        out.items ≡ spelled tag.sequence (tbs.now ++ signature_form.spelling signature.now.bytes)) }

    // So it is the spelling of a CRL that is signed so, and is read back.
    ensures spelled { IfOk result (λ out. (crl : CrlValue) → IsCrl crl → tbs.now ≡ signed_bytes crl
        → length out.items < 2 ^ 32
        → Spells signed_crl
        (record { crl = crl; digest = sha256 tbs.now; signature = signature.now.bytes })
        out.items) }
{
    is_whole(&signature.bytes);
    let out = write_signed(alloc, tbs, &signature.bytes)?;
    Ok(out)
}
