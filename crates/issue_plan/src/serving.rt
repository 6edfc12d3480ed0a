//! Whether an object that stands serves for one that is wanted.

ghost use Rattle.std.specs.Prelude.{◌≡◌};
ghost use Rattle.issue_plan.specs.Serves as spec;

use crate::due::is_due;
use crate::keys::is_live;
use key_roll::{CertWork, IssuedRow, KeyName, RoaWork, What};
use origins::Origin;
use res_sets::{Range, Resources};

fn are_same_ranges(a: &[Range], b: &[Range]) -> bool
    ensures { result ≡ spec.are_same_ranges a.now b.now }
{
    a == b
}

// Whether the two have the same numbers of each family.
fn is_same_resources(a: &Resources, b: &Resources) -> bool
    ensures { result ≡ spec.is_same_resources a.now b.now }
{
    are_same_ranges(a.asn.as_slice(), b.asn.as_slice())
        && are_same_ranges(a.v4.as_slice(), b.v4.as_slice())
        && are_same_ranges(a.v6.as_slice(), b.v6.as_slice())
}

/// Whether the two are one origin.
pub fn is_same_origin(a: &Origin, b: &Origin) -> bool
    ensures { result ≡ spec.is_same_origin a.now b.now }
{
    a == b
}

// Whether the object certifies the key and the resources that are to be certified.
fn certifies(cert: &CertWork, what: &What) -> bool
    ensures { result ≡ spec.certifies cert.now what.now }
{
    match what {
        What::Authority { key, held } => {
            is_live(key, &cert.subject) && is_same_resources(held, &cert.held)
        }
        What::Route { .. } | What::Point => false,
    }
}

/// Whether the object is a certificate of the key, with whatever resources.
pub fn is_for(key: &KeyName, what: &What) -> bool
    ensures { result ≡ spec.is_for key.now what.now }
{
    match what {
        What::Authority { key: other, .. } => is_live(other, key),
        What::Route { .. } | What::Point => false,
    }
}

// Whether the object authorizes the origin that is to be authorized.
fn authorizes(roa: &RoaWork, what: &What) -> bool
    ensures { result ≡ spec.authorizes roa.now what.now }
{
    match what {
        What::Route { origin } => is_same_origin(origin, &roa.origin),
        What::Authority { .. } | What::Point => false,
    }
}

/// Whether the object is a CRL or a manifest.
pub fn is_point(what: &What) -> bool
    ensures { result ≡ spec.is_point what.now }
{
    matches!(what, What::Point)
}

/// Whether the object serves for the certificate at the moment, in seconds since 1970.
pub fn serves_certificate(moment: u64, cert: &CertWork, row: &IssuedRow) -> bool
    ensures { result ≡ spec.serves_certificate moment cert.now row.now }
{
    is_live(&row.issuer, &cert.issuer) && certifies(cert, &row.what) && !is_due(moment, row)
}

/// Whether the object serves for the ROA at the moment, in seconds since 1970.
pub fn serves_roa(moment: u64, roa: &RoaWork, row: &IssuedRow) -> bool
    ensures { result ≡ spec.serves_roa moment roa.now row.now }
{
    is_live(&row.issuer, &roa.issuer) && authorizes(roa, &row.what) && !is_due(moment, row)
}

/// Whether the object serves for a CRL or a manifest of the key at the moment, in seconds since 1970.
pub fn serves_point(moment: u64, key: &KeyName, row: &IssuedRow) -> bool
    ensures { result ≡ spec.serves_point moment key.now row.now }
{
    is_live(&row.issuer, key) && is_point(&row.what) && !is_due(moment, row)
}
