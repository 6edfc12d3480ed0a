//! An authority (RFC 6487 section 7).

ghost use Rattle.std.specs.Prelude.{◌≡◌};
ghost use Rattle.sha1.specs.Sha1.{sha1};

use cert_obj::Cert;
use key_ids::KeyId;
use res_sets::Resources;

/// An authority whose certificate is accepted.
#[derive(Drop)]
pub struct Authority {
    /// The URI of its certificate.
    pub uri: String,
    pub cert: Cert,
    /// The identifier of its key.
    pub id: KeyId,
    /// What it holds, inherited or not.
    pub held: Resources,
    ghost key_id: { id.bytes ≡ sha1 cert.key.bytes },
}
