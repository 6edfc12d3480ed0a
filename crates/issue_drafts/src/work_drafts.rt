//! The draft of each object that the work asks for (RFC 6487, RFC 9582, RFC 9286).

ghost use Rattle.std.specs.Prelude.{◌≡◌, IfOk, IfSome, Option, option_map};
ghost use Rattle.issue_drafts.specs.WorkKeys.{Keys, key_named};
ghost use Rattle.issue_drafts.specs.IssueInput.{IssueInput};
ghost use Rattle.issue_drafts.specs.Publishers.{name_at};
ghost use Rattle.issue_drafts.specs.Drafts.{Draft, certificate_draft, roa_draft, crl_draft, manifest_draft};
ghost use Rattle.issue_drafts.specs.Views.{draft_of, manifest_of, IsPositioned, IsDraftPositioned};
ghost use Rattle.issue_drafts.specs.DraftInput.{setting_in, keys_in, CanDraft};

use crate::draft::{Draft, DraftKind, KeyAt, ManifestDraft};
use crate::draft_input::DraftInput;
use crate::key_publishers::{made_uri, name_of};
use crate::placed_keys::key_named;
use key_roll::{CertWork, KeyName, PointWork, RoaWork};
use names::Name;
use pub_set::Uri;
use std::alloc::{AllocError, Global};

/// The key that a name stands for.
fn key_at<'a>(at: &DraftInput<'a>, name: &KeyName) -> Option<KeyAt<'a>>
    requires { CanDraft at.now }
    ensures key { option_map (λ k. k.row.now) result ≡ key_named (keys_in at.now) name.now }
    ensures positioned { IfSome result (IsPositioned at.now.rows.now) }
{
    key_named(at.rows, at.finder, name)
}

/// The name of a key's authority.
fn name_at(at: &DraftInput<'_>, key: &KeyAt<'_>) -> Name
    requires can { CanDraft at.now }
    requires positioned { IsPositioned at.now.rows.now key.now }
    ensures { result ≡ name_at at.now.input.now.names.now key.now.row.now.desk }
{
    name_of(at.input.names, key.row.desk)
}

/// Work that an object is drafted for: a certificate, a ROA, or the CRL of a key's point.
pub trait DraftedWork {
    ghost drafted: { IssueInput → Keys → Self → Option Draft };

    /// The draft, if the work names keys of the edition.
    fn draft<'a>(
        &'a self,
        alloc: Global,
        at: &DraftInput<'a>,
    ) -> Result<Option<Draft<'a>>, AllocError>
        requires { CanDraft at.now }
        ensures draft { IfOk result (λ d. option_map draft_of d
            ≡ drafted (setting_in at.now) (keys_in at.now) self.now) }
        ensures positioned { IfOk result (λ d. IfSome d (IsDraftPositioned at.now.rows.now)) };
}

impl DraftedWork for CertWork {
    ghost drafted = { certificate_draft };

    fn draft<'a>(
        &'a self,
        alloc: Global,
        at: &DraftInput<'a>,
    ) -> Result<Option<Draft<'a>>, AllocError> {
        let (Some(issuer), Some(subject)) = (key_at(at, &self.issuer), key_at(at, &self.subject))
        else {
            return Ok(None);
        };
        let (site, names) = (at.input.site, at.input.names);
        let uri = made_uri(alloc, site, names, &issuer, &subject)?;
        Ok(Some(Draft {
            uri: Uri::new(uri),
            issuer,
            kind: DraftKind::Authority {
                subject,
                held: &self.held,
            },
        }))
    }
}

impl DraftedWork for RoaWork {
    ghost drafted = { roa_draft };

    fn draft<'a>(
        &'a self,
        alloc: Global,
        at: &DraftInput<'a>,
    ) -> Result<Option<Draft<'a>>, AllocError> {
        let Some(issuer) = key_at(at, &self.issuer) else {
            return Ok(None);
        };
        let name = name_at(at, &issuer);
        let file = self.origin.file_name(alloc)?;
        let site = at.input.site;
        let uri = site.file_uri(alloc, name.as_str(), file.as_str())?;
        Ok(Some(Draft {
            uri: Uri::new(uri),
            issuer,
            kind: DraftKind::Route {
                origin: self.origin,
            },
        }))
    }
}

impl DraftedWork for PointWork {
    ghost drafted = { crl_draft };

    fn draft<'a>(
        &'a self,
        alloc: Global,
        at: &DraftInput<'a>,
    ) -> Result<Option<Draft<'a>>, AllocError> {
        let Some(issuer) = key_at(at, &self.key) else {
            return Ok(None);
        };
        let (name, id) = (name_at(at, &issuer), issuer.id());
        let uri = at.input.site.crl_uri(alloc, name.as_str(), &id)?;
        Ok(Some(Draft {
            uri: Uri::new(uri),
            issuer,
            kind: DraftKind::Crl,
        }))
    }
}

/// The draft of the manifest of a key's point.
pub fn manifest_draft<'a>(
    alloc: Global,
    at: &DraftInput<'a>,
    point: &PointWork,
) -> Result<Option<ManifestDraft<'a>>, AllocError>
    requires { CanDraft at.now }
    ensures draft { IfOk result (λ d. option_map manifest_of d
        ≡ manifest_draft (setting_in at.now) (keys_in at.now) point.now) }
    ensures positioned { IfOk result (λ d. IfSome d (λ d. IsPositioned at.now.rows.now d.issuer)) }
{
    let Some(issuer) = key_at(at, &point.key) else {
        return Ok(None);
    };
    let (name, id) = (name_at(at, &issuer), issuer.id());
    let uri = at.input.site.manifest_uri(alloc, name.as_str(), &id)?;
    Ok(Some(ManifestDraft {
        uri: Uri::new(uri),
        issuer,
    }))
}
