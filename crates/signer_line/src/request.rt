// What is asked of the signer at the other end.
ghost use Rattle.std.specs.Prelude.{◌≡◌, ◌++◌, ◌+◌, ◌*◌, ◌≤◌, length, codes, []};
ghost use Rattle.signer_line.specs.Lines.{request_line, spaced, fed};

use hex::encode_to_slice;
use signer_api::{Digest, PublicKey, Signature};
use std::marker::Model;

#[derive(Clone, Copy)]
pub(crate) enum Request<'a> {
    Make,
    Sign {
        key: &'a PublicKey,
        digest: &'a Digest,
    },
    Once {
        digest: &'a Digest,
    },
    Check {
        key: &'a PublicKey,
        digest: &'a Digest,
        signature: &'a Signature,
    },
    Discard {
        key: &'a PublicKey,
    },
}

// The longest line that is sent, with its line feed: `check`, a key, a digest and a signature.
const LONGEST: usize = 1125;

/// A line that is to be sent. It is sent whole, so that none that was cut off stands before a later one.
#[derive(Drop)]
pub(crate) struct Outgoing {
    bytes: [u8; LONGEST],
    len: usize,
}

impl Model for Outgoing {
    ghost use Rattle.std.specs.Prelude.{◌≤◌, List, ℕ, take};

    ghost Value = { List ℕ };

    ghost view = { λ line. take line.len line.bytes };

    ghost invariant = { λ line. line.len ≤ 1125 };
}

impl Outgoing {
    pub(crate) fn new() -> Self
        ensures { result ≡ [] }
    {
        Outgoing {
            bytes: [0; LONGEST],
            len: 0,
        }
    }

    pub(crate) fn as_bytes(&self) -> &[u8]
        ensures { result.now ≡ self.now }
    {
        &self.bytes[..self.len]
    }

    pub(crate) fn put(&mut self, part: &[u8])
        requires { length self.old + length part.now ≤ 1125 }
        ensures line { self.new ≡ self.old ++ part.now }
        ensures long { length self.new ≡ length self.old + length part.now }
    {
        let end = self.len + part.len();
        self.bytes[self.len..end].copy_from_slice(part);
        self.len = end;
    }

    // A blank and the bytes in lower-case hex.
    pub(crate) fn put_hex(&mut self, bytes: &[u8])
        requires short { length bytes.now ≤ 270 }
        requires room { length self.old + 1 + 2 * length bytes.now ≤ 1125 }
        ensures line { self.new ≡ self.old ++ spaced bytes.now }
        ensures long { length self.new ≡ length self.old + 1 + 2 * length bytes.now }
    {
        let mut digits = [0u8; 540];
        let text = &mut digits[..2 * bytes.len()];
        // It fits.
        let _written = encode_to_slice(bytes, text);
        self.put(b" ");
        self.put(text);
    }
}

/// The line of a request.
pub(crate) fn line_of(request: &Request) -> Outgoing
    ensures { result ≡ fed (request_line request.now) }
{
    let mut line = Outgoing::new();
    match request {
        Request::Make => line.put(b"make"),
        Request::Sign { key, digest } => {
            line.put(b"sign");
            line.put_hex(&key.bytes);
            line.put_hex(&digest.bytes);
        }
        Request::Once { digest } => {
            line.put(b"once");
            line.put_hex(&digest.bytes);
        }
        Request::Check {
            key,
            digest,
            signature,
        } => {
            line.put(b"check");
            line.put_hex(&key.bytes);
            line.put_hex(&digest.bytes);
            line.put_hex(&signature.bytes);
        }
        Request::Discard { key } => {
            line.put(b"drop");
            line.put_hex(&key.bytes);
        }
    }
    line.put(b"\n");
    line
}
