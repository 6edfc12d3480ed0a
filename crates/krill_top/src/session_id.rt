//! The identifier of a session of RRDP files (RFC 8182 section 3.3.1).

ghost use Rattle.std.specs.Prelude.{◌≡◌};
ghost use Rattle.krill_top.specs.Session.{session_of};

use rand_chacha::ChaCha20Rng;
use rand_core::SeedableRng;
use uuid::Uuid;

/// A random UUID (RFC 9562 section 5.4), drawn from stream 0 of ChaCha20 under this key.
pub(crate) fn session_of(random: [u8; 32]) -> Uuid
    ensures { result ≡ session_of random }
{
    let mut generator = ChaCha20Rng::from_seed(random);
    Uuid::new_v4(&mut generator)
}
