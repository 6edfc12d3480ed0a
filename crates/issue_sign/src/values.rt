//! What is signed first for the objects of an edition (RFC 5280 sections 4.1.2 and 5.1.2, RFC 6488
//! section 2.1.3).

ghost use Rattle.std.specs.Prelude.{◌≡◌, ◌<◌, length, IfOk};
ghost use Rattle.cert_obj.specs.Values.{IsCert, cert_value};
ghost use Rattle.crl_obj.specs.Values.{IsCrl, crl_value};
ghost use Rattle.payloads.specs.RoaFormats.{IsRoa};
ghost use Rattle.issue_values.specs.Certificates.{IsEditionMoment};
ghost use Rattle.issue_values.specs.Bodies.{roa_of};
ghost use Rattle.issue_drafts.specs.IssueInput.{input_of};
ghost use Rattle.issue_drafts.specs.Views.{IsPositioned};
ghost use Rattle.issue_sign.specs.Objects.{certificate_with, roa_content, crl_of};
ghost use Rattle.issue_sign.specs.SignInput.{SignInputValue, IsSignInput, CanSign, CanIssue};

use crate::sign_input::SignInput;
use cert_obj::Cert;
use cms_obj::HashedContent;
use crl_obj::Crl;
use issue_drafts::KeyAt;
use issue_values::{anchor_certificate, authority_certificate, key_crl, roa_body};
use origins::Origin;
use res_sets::Resources;
use std::alloc::{AllocError, Global};

/// The certificate of an authority's key.
pub fn certificate(
    alloc: Global,
    sign_input: &SignInput<'_>,
    issuer: &KeyAt<'_>,
    subject: &KeyAt<'_>,
    held: &Resources,
    serial: u64,
) -> Result<Cert, AllocError>
    requires moment { IsEditionMoment sign_input.now.input.now.work.now.moment }
    requires issuer { CanIssue sign_input.now issuer.now }
    requires subject { subject.now.position < length sign_input.now.publishers.now }
    ensures spelled { IfOk result (λ cert. IsCert (cert_value cert)) }
    ensures value { IfOk result (λ cert. (b : SignInputValue) → IsSignInput sign_input.now b
        → IsPositioned b.rows issuer.now → IsPositioned b.rows subject.now
        → cert_value cert ≡ certificate_with (input_of sign_input.now.input.now) b.keys
        issuer.now.row.now subject.now.row.now held.now serial) }
{
    let (site, moment) = (sign_input.input.site, sign_input.input.work.moment);
    let by = &sign_input.publishers[issuer.position];
    let of = &sign_input.publishers[subject.position];
    if by.id.bytes == of.id.bytes {
        anchor_certificate(alloc, site, moment, by, held, serial)
    } else {
        authority_certificate(alloc, site, moment, by, of, held, serial)
    }
}

/// The CRL of a key.
pub fn crl(alloc: Global, sign_input: &SignInput<'_>, issuer: &KeyAt<'_>) -> Result<Crl, AllocError>
    requires sign { CanSign sign_input.now }
    requires issuer { CanIssue sign_input.now issuer.now }
    requires entries { issuer.now.position < length sign_input.now.revoked.now }
    ensures spelled { IfOk result (λ crl. IsCrl (crl_value crl)) }
    ensures value { IfOk result (λ crl. (b : SignInputValue) → IsSignInput sign_input.now b → IsPositioned b.rows issuer.now
        → crl_value crl ≡ crl_of (input_of sign_input.now.input.now) b.entries issuer.now.row.now) }
{
    let moment = sign_input.input.work.moment;
    let by = &sign_input.publishers[issuer.position];
    let entries = sign_input.revoked[issuer.position].as_slice();
    key_crl(alloc, moment, by, issuer.row.number + 1, entries)
}

/// The content of a ROA.
pub fn roa_content(alloc: Global, origin: &Origin) -> Result<HashedContent, AllocError>
    ensures spelled { IfOk result (λ content. IsRoa (roa_of origin.now)) }
    ensures content { IfOk result (λ content. content.bytes.items ≡ roa_content origin.now) }
{
    let body = roa_body(alloc, origin)?;
    let content = body.write(alloc)?;
    Ok(HashedContent::of(content))
}
