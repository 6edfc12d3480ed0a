//! What ROAs, CRLs and manifests say (RFC 9582 section 4, RFC 5280 section 5.1.2, RFC 9286 section
//! 4.2.1).

ghost use Rattle.std.specs.Prelude.{◌≡◌, ◌<◌, ◌^◌, map, IfOk};
ghost use Rattle.der.specs.Forms.{AreAll};
ghost use Rattle.crl_obj.specs.Values.{IsCrl, crl_value};
ghost use Rattle.payloads.specs.RoaFormats.{IsRoa};
ghost use Rattle.payloads.specs.RoaReading.{roa_view};
ghost use Rattle.payloads.specs.ManifestFormats.{IsManifest, file_view};
ghost use Rattle.payloads.specs.ManifestReading.{manifest_view};
ghost use Rattle.issue_values.specs.Certificates.{IsEditionMoment};
ghost use Rattle.issue_values.specs.Bodies.{roa_of, crl_entry, crl_value_of, AreRevoked, manifest_value_of, AreListed};

use crate::certificates::POINT_LIFE;
use crate::publishers::Publisher;
use crate::uris::is_identifier;
use crl_obj::{Crl, CrlEntry};
use key_roll::RevokedRow;
use origins::Origin;
use payloads::{ListedFile, ManifestBody, RoaBody, RoaEntry};
use std::alloc::{AllocError, Global};

/// An origin's ROA: its AS may announce its prefix, up to its maximum (RFC 9582 section 4).
pub fn roa_body(alloc: Global, origin: &Origin) -> Result<RoaBody, AllocError>
    ensures value { IfOk result (λ body. roa_view body ≡ roa_of origin.now) }
    ensures spelled { IfOk result (λ body. IsRoa (roa_view body)) }
{
    let mut entries = Vec::with_capacity(alloc, 1)?;
    entries.push(RoaEntry {
        prefix: origin.prefix,
        max: origin.max,
    })?;
    Ok(RoaBody {
        asn: origin.asn,
        entries,
    })
}

/// A revoked certificate, as the CRL has it.
fn crl_entry(row: RevokedRow) -> CrlEntry
    ensures entry { result ≡ crl_entry row }
    ensures serial { result.serial < 2 ^ 64 }
{
    CrlEntry {
        serial: row.serial,
        revoked_at: row.revoked_at,
    }
}

/// Revoked certificates, as the CRL has them.
fn crl_entries(alloc: Global, revoked: &[RevokedRow]) -> Result<Vec<CrlEntry>, AllocError>
    ensures entries { IfOk result (λ entries. entries.items ≡ map crl_entry revoked.now) }
    ensures serials { IfOk result (λ entries. AreAll (λ e. e.serial < 2 ^ 64) entries.items) }
{
    let mut entries = Vec::with_capacity(alloc, revoked.len())?;
    for row in revoked {
        entries.push(crl_entry(*row))?;
    }
    Ok(entries)
}

/// A key's CRL of that number (RFC 5280 section 5.1.2). It is made at `moment`, in seconds since
/// 1970, and good for [`POINT_LIFE`](crate::POINT_LIFE).
pub fn key_crl(
    alloc: Global,
    moment: u64,
    publisher: &Publisher,
    number: u64,
    revoked: &[RevokedRow],
) -> Result<Crl, AllocError>
    requires moment { IsEditionMoment moment }
    requires revoked { AreRevoked moment revoked.now }
    ensures value { IfOk result (λ crl. crl_value crl
        ≡ crl_value_of moment publisher.now.id.bytes number revoked.now) }
    ensures spelled { IfOk result (λ crl. IsCrl (crl_value crl)) }
{
    is_identifier(&publisher.id.bytes);
    Ok(Crl {
        issuer: publisher.id,
        this_update: moment,
        next_update: moment + POINT_LIFE,
        number,
        entries: crl_entries(alloc, revoked)?,
    })
}

/// A key's manifest of that number, which lists these files (RFC 9286 section 4.2.1). It is made at
/// `moment`, in seconds since 1970. The files have to stand by rising name.
pub fn manifest_body(moment: u64, number: u64, files: Vec<ListedFile>) -> ManifestBody
    requires moment { IsEditionMoment moment }
    requires files { AreListed (map file_view files.items) }
    ensures value { manifest_view result ≡ manifest_value_of moment number (map file_view files.items) }
    ensures spelled { IsManifest (manifest_view result) }
{
    ManifestBody {
        number,
        this_update: moment,
        next_update: moment + POINT_LIFE,
        files,
    }
}
