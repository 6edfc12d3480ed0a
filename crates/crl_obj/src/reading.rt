//! Readers of CRLs (RFC 5280 section 5.1, RFC 6487 section 5).

ghost use Rattle.std.specs.Prelude.{◌≡◌, IfOk, IfErr};
ghost use Rattle.der.specs.Part.{place};
ghost use Rattle.der.specs.Outcome.{Gives, GivesUnlessMemory, UnlessMemory};
ghost use Rattle.der.specs.Object.{Spells, read_object, IsTrueFault};
ghost use Rattle.der.specs.Forms.{many as many_form};
ghost use Rattle.der.specs.laws.ListLaws.{front-moves};
ghost use Rattle.crl_obj.specs.declared.values.CrlEntry.{CrlEntry};
ghost use Rattle.crl_obj.specs.Values.{SignedCrl, crl_value, read_value};
ghost use Rattle.crl_obj.specs.Formats.{entry, listed, crl_number, extensions, revoked, body, tbs_content, signed_crl};
ghost use Rattle.crl_obj.specs.laws.CrlLaws.{entry-law, signed_crl-law};

use crate::entries::is_listed;
use crate::values::{Crl, CrlEntry, ReadCrl};
use der::tags::{CONTEXT_0, INTEGER, SEQUENCE};
use der::{FrontReader, Part, ShapeFault, WholeReader, constant, many, number, object};
use key_ids::KeyId;
use object_parts::identifiers::CRL_NUMBER;
use object_parts::{extension, issuer_key, name, signature_algorithm, signed, time};
use signer_api::{Digest, Signature};
use std::alloc::Global;

/// A revoked certificate.
#[tactic(auto, unfolding(crate::specs::Formats::entry))]
fn entry(part: Part<'_>) -> Result<(CrlEntry, Part<'_>), ShapeFault>
    ensures { Gives (λ x. (x.0, place x.1)) result (entry.read (place part.entry)) }
{
    let (content, rest) = part.open(SEQUENCE)?;
    let (serial, content) = number(content)?;
    let (revoked_at, end) = time(content)?;
    end.end()?;
    Ok((CrlEntry { serial, revoked_at }, rest))
}

/// Reads entries.
struct EntryReader;

impl FrontReader for EntryReader {
    type Item = CrlEntry;

    ghost Meaning = { CrlEntry };

    ghost view = { λ e. e };

    ghost format = { λ reader. entry };

    fn read_front<'a>(
        &self,
        _alloc: Global,
        part: Part<'a>,
    ) -> Result<(CrlEntry, Part<'a>), ShapeFault> {
        entry(part)
    }

    ghost moves = { λ reader. front-moves entry entry-law };
}

/// The entries, one after the other.
fn entries(alloc: Global, part: Part<'_>) -> Result<Vec<CrlEntry>, ShapeFault>
    ensures { GivesUnlessMemory (λ v. v.items) result ((many_form entry).read (place part.entry)) }
{
    many(alloc, &EntryReader, part)
}

/// The list of entries.
#[tactic(auto, unfolding(crate::specs::Formats::listed))]
fn listed<'a>(alloc: Global, part: Part<'a>) -> Result<(Vec<CrlEntry>, Part<'a>), ShapeFault>
    ensures { GivesUnlessMemory (λ x. (x.0.items, place x.1))
        result (listed.read (place part.entry)) }
{
    let (content, rest) = part.open(SEQUENCE)?;
    let entries = entries(alloc, content)?;
    if is_listed(&entries) {
        Ok((entries, rest))
    } else {
        Err(content.fault())
    }
}

/// The number of the CRL.
fn crl_number(part: Part<'_>) -> Result<(u64, Part<'_>), ShapeFault>
    ensures { Gives (λ x. (x.0, place x.1)) result (crl_number.read (place part.entry)) }
{
    let (value, rest) = extension(part, &CRL_NUMBER)?;
    let (n, end) = number(value)?;
    end.end()?;
    Ok((n, rest))
}

/// The number, behind the identifier of the issuer's key.
#[tactic(auto, unfolding(crate::specs::Formats::extensions))]
fn extensions(part: Part<'_>, issuer: &[u8; 20]) -> Result<u64, ShapeFault>
    ensures { Gives (λ n. n) result ((extensions issuer.now).read (place part.entry)) }
{
    let rest = issuer_key(part.sole(CONTEXT_0)?.sole(SEQUENCE)?, issuer)?;
    let (n, left) = crl_number(rest)?;
    left.end()?;
    Ok(n)
}

/// The entries, and the number of the CRL.
#[tactic(auto, unfolding(crate::specs::Formats::revoked))]
fn revoked(
    alloc: Global,
    part: Part<'_>,
    issuer: &[u8; 20],
) -> Result<(Vec<CrlEntry>, u64), ShapeFault>
    ensures { GivesUnlessMemory (λ x. (x.0.items, x.1))
        result ((revoked issuer.now).read (place part.entry)) }
{
    if part.begins(SEQUENCE) {
        let (entries, rest) = listed(alloc, part)?;
        let number = extensions(rest, issuer)?;
        return Ok((entries, number));
    }
    let number = extensions(part, issuer)?;
    Ok((Vec::new(alloc), number))
}

/// What follows the name of the issuer.
#[derive(Drop)]
struct Revocations {
    this_update: u64,
    next_update: u64,
    entries: Vec<CrlEntry>,
    number: u64,
}

/// The times, the entries and the number.
#[tactic(auto, unfolding(crate::specs::Formats::body))]
fn body(alloc: Global, part: Part<'_>, issuer: &[u8; 20]) -> Result<Revocations, ShapeFault>
    ensures { GivesUnlessMemory
        (λ b. (b.this_update, (b.next_update, (b.entries.items, b.number))))
        result ((body issuer.now).read (place part.entry)) }
{
    let (this_update, part) = time(part)?;
    let (next_update, part) = time(part)?;
    let (entries, number) = revoked(alloc, part, issuer)?;
    Ok(Revocations {
        this_update,
        next_update,
        entries,
        number,
    })
}

/// What is signed.
#[tactic(auto, unfolding(crate::specs::Formats::tbs_content))]
fn tbs_content(alloc: Global, part: Part<'_>) -> Result<Crl, ShapeFault>
    ensures { GivesUnlessMemory crl_value result (tbs_content.read (place part.entry)) }
{
    let rest = constant(part, INTEGER, &[1])?;
    let rest = signature_algorithm(rest)?;
    let (issuer, rest) = name(rest)?;
    let body = body(alloc, rest, &issuer)?;
    Ok(Crl {
        issuer: KeyId { bytes: issuer },
        this_update: body.this_update,
        next_update: body.next_update,
        number: body.number,
        entries: body.entries,
    })
}

/// What is signed, its digest, and the signature.
#[tactic(auto, unfolding(crate::specs::Formats::signed_crl))]
fn signed_crl(alloc: Global, part: Part<'_>) -> Result<ReadCrl, ShapeFault>
    ensures { GivesUnlessMemory read_value result (signed_crl.read (place part.entry)) }
{
    let parts = signed(part)?;
    let crl = tbs_content(alloc, parts.content)?;
    Ok(ReadCrl {
        crl,
        digest: Digest::of(parts.whole),
        signature: Signature {
            bytes: parts.signature,
        },
    })
}

/// Reads CRLs.
struct CrlReader;

impl<'a> WholeReader<'a> for CrlReader {
    type Item = ReadCrl;

    ghost Meaning = { SignedCrl };

    ghost view = { λ r. read_value r };

    ghost format = { λ reader. signed_crl };

    fn read_whole(&self, alloc: Global, part: Part<'a>) -> Result<ReadCrl, ShapeFault> {
        signed_crl(alloc, part)
    }

    ghost is_whole = { λ reader. signed_crl-law };
}

/// The CRL that the bytes are (RFC 5280 section 5.1, RFC 6487 section 5).
///
/// The place in `Shape` is an offset in bytes. Whether the signature holds and whether the next CRL
/// is due isn't asked here.
pub fn read(alloc: Global, bytes: &[u8]) -> Result<ReadCrl, ShapeFault>
    // What is read is spelled so, each byte of it, and what is spelled so is read.
    ensures found { IfOk result (λ x. Spells signed_crl (read_value x) bytes.now) }
    ensures only { (value : SignedCrl) → Spells signed_crl value bytes.now
        → UnlessMemory (λ x. read_value x ≡ value) result }

    // The very answer, and that the place of a fault is a true one.
    ensures exact { GivesUnlessMemory read_value result (read_object signed_crl bytes.now) }
    ensures fault { IfErr result (IsTrueFault signed_crl bytes.now) }
{
    object(alloc, &CrlReader, bytes)
}
