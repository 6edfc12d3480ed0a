//! What bytes say, where they are those of a certificate or of a CRL (RFC 6487 sections 4 and 5).

ghost use Rattle.std.specs.Prelude.{◌≡◌, true, IfOk, IfSome};
ghost use Rattle.std.specs.Option.{option_map};
ghost use Rattle.cert_obj.specs.Values.{read_value};
ghost use Rattle.crl_obj.specs.Values.{read_value as read_crl_value, are_rising};
ghost use Rattle.rp_rules.specs.Objects.{such, certificate_in, is_anchors, is_authoritys, entity_in, crl_in};

use cert_obj::{CertKind, ReadCert};
use crl_obj::ReadCrl;
use der::ShapeFault;
use std::alloc::{AllocError, Global};

/// The certificate that the bytes are.
pub fn certificate_in(alloc: Global, bytes: &[u8]) -> Result<Option<ReadCert>, AllocError>
    ensures { IfOk result (λ read. option_map read_value read ≡ certificate_in bytes.now) }
{
    match cert_obj::read(alloc, bytes) {
        Ok(read) => Ok(Some(read)),
        Err(ShapeFault::Shape { .. }) => Ok(None),
        Err(ShapeFault::Memory) => Err(AllocError),
    }
}

/// The anchor's certificate.
pub fn anchors_in(alloc: Global, bytes: &[u8]) -> Result<Option<ReadCert>, AllocError>
    ensures { IfOk result (λ read. option_map read_value read ≡ such is_anchors (certificate_in bytes.now)) }
{
    match certificate_in(alloc, bytes)? {
        Some(read) => match read.cert.kind {
            CertKind::Anchor => Ok(Some(read)),
            CertKind::Authority => Ok(None),
            CertKind::EndEntity => Ok(None),
        },
        None => Ok(None),
    }
}

/// Another authority's certificate.
pub fn authoritys_in(alloc: Global, bytes: &[u8]) -> Result<Option<ReadCert>, AllocError>
    ensures { IfOk result (λ read. option_map read_value read ≡ such is_authoritys (certificate_in bytes.now)) }
{
    match certificate_in(alloc, bytes)? {
        Some(read) => match read.cert.kind {
            CertKind::Anchor => Ok(None),
            CertKind::Authority => Ok(Some(read)),
            CertKind::EndEntity => Ok(None),
        },
        None => Ok(None),
    }
}

/// The certificate of a key that signs one object.
pub fn entity_in(alloc: Global, bytes: &[u8]) -> Result<Option<ReadCert>, AllocError>
    ensures { IfOk result (λ read. option_map read_value read ≡ entity_in bytes.now) }
{
    match certificate_in(alloc, bytes)? {
        Some(read) => match read.cert.kind {
            CertKind::Anchor => Ok(None),
            CertKind::Authority => Ok(None),
            CertKind::EndEntity => Ok(Some(read)),
        },
        None => Ok(None),
    }
}

/// The CRL that the bytes are.
pub fn crl_in(alloc: Global, bytes: &[u8]) -> Result<Option<ReadCrl>, AllocError>
    ensures read { IfOk result (λ read. option_map read_crl_value read ≡ crl_in bytes.now) }
    ensures rises { IfOk result (λ read. IfSome read (λ r. are_rising r.crl.entries.items ≡ true)) }
{
    match crl_obj::read(alloc, bytes) {
        Ok(read) => Ok(Some(read)),
        Err(ShapeFault::Shape { .. }) => Ok(None),
        Err(ShapeFault::Memory) => Err(AllocError),
    }
}
