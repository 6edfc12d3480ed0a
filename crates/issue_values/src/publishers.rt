//! Keys and where they publish (RFC 6481 section 2).

ghost use Rattle.std.specs.Prelude.{◌≡◌};
ghost use Rattle.sha1.specs.Sha1.{sha1};

use key_ids::KeyId;
use names::Name;
use pub_set::Uri;
use signer_api::PublicKey;

/// A key of an authority, and where it publishes.
#[derive(Debug, Drop)]
pub struct Publisher {
    pub key: PublicKey,
    /// The key's identifier.
    pub id: KeyId,
    /// The authority's name.
    pub name: Name,
    /// The URI of the key's own certificate.
    pub certificate: Uri,
    pub ghost identified: { id.bytes ≡ sha1 key.bytes },
}

impl Publisher {
    /// The key of that authority whose certificate stands there.
    pub fn new(key: PublicKey, name: Name, certificate: Uri) -> Publisher
        ensures key { result.key ≡ key }
        ensures name { result.name ≡ name }
        ensures certificate { result.certificate ≡ certificate }
    {
        let id = KeyId::of(&key.bytes);
        Publisher {
            key,
            id,
            name,
            certificate,
        }
    }
}
