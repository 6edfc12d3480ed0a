//! Signed objects that were read (RFC 6488 section 2).

ghost use Rattle.std.specs.Prelude.{◌≡◌, true};
ghost use Rattle.crl_obj.specs.Values.{are_rising};
ghost use Rattle.payloads.specs.ManifestFormats.{is_rising_manifest};
ghost use Rattle.payloads.specs.ManifestReading.{manifest_view};

use cert_obj::ReadCert;
use cms_obj::SignedObject;
use crl_obj::Crl;
use payloads::{ManifestBody, RoaBody};

/// A manifest, and the certificate of its key. Names rise.
#[derive(Drop)]
pub struct ReadManifest<'a> {
    pub object: SignedObject<'a>,
    pub certificate: ReadCert,
    pub body: ManifestBody,
    ghost rises: { is_rising_manifest (manifest_view body) ≡ true },
}

/// A ROA, and the certificate of its key.
#[derive(Drop)]
pub struct ReadRoa<'a> {
    pub object: SignedObject<'a>,
    pub certificate: ReadCert,
    pub body: RoaBody,
}

/// A manifest and the CRL that it lists, whose serials rise.
#[derive(Drop)]
pub struct Listing<'a> {
    pub manifest: ReadManifest<'a>,
    pub crl: Crl,
    ghost rises: { are_rising crl.entries.items ≡ true },
}
