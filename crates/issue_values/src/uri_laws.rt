//! Laws of where a repository's objects stand: no two of them stand at one URI (RFC 6481 section
//! 2).

ghost use Rattle.std.specs.Prelude.{◌≡◌, ◌≢◌, ℕ, List};
ghost use Rattle.std.specs.Str.{IsAscii};
ghost use Rattle.der.specs.Grammar.{AreBytes};
ghost use Rattle.names.specs.Name.{IsName};
ghost use Rattle.key_ids.specs.Uris.{Bases, anchor_uri, file_uri, cert_uri, crl_uri, manifest_uri};
ghost use Rattle.origins.specs.declared.Origin.{Origin};
ghost use Rattle.origins.specs.Origin.{origin_text};
ghost use Rattle.issue_values.specs.Publishers.{roa_uri};
ghost use Rattle.issue_values.specs.UriEndings.{last_byte};

use origins::{reads_origin_once, reads_own_text, same_numbers_same_origin};

/// A law, with nothing to run: a file's URI tells its authority's name and the file's, and isn't that of the trust
/// anchor's certificate.
pub fn files_are_told_apart()
    ensures files { (site : Bases) (a b f g : List ℕ) → IsName a → IsName b
        → file_uri site a f ≡ file_uri site b g → (a ≡ b) × (f ≡ g) }
    ensures anchor { (site : Bases) (a f : List ℕ) → anchor_uri site ≢ file_uri site a f }
{}

/// A law, with nothing to run: the URI of a certificate, of a CRL or of a manifest tells the name of the authority and
/// the identifier of the key.
pub fn keys_are_told_apart()
    ensures certificates { (site : Bases) (a b x y : List ℕ) → IsName a → IsName b → AreBytes x → AreBytes y
        → cert_uri site a x ≡ cert_uri site b y → (a ≡ b) × (x ≡ y) }
    ensures crls { (site : Bases) (a b x y : List ℕ) → IsName a → IsName b → AreBytes x → AreBytes y
        → crl_uri site a x ≡ crl_uri site b y → (a ≡ b) × (x ≡ y) }
    ensures manifests { (site : Bases) (a b x y : List ℕ) → IsName a → IsName b → AreBytes x → AreBytes y
        → manifest_uri site a x ≡ manifest_uri site b y → (a ≡ b) × (x ≡ y) }
{}

/// A law, with nothing to run: the URI of a ROA tells the name of the authority and the origin.
pub fn origins_are_told_apart()
    ensures { (site : Bases) (a b : List ℕ) (o p : Origin) → IsName a → IsName b
        → roa_uri site a o ≡ roa_uri site b p → (a ≡ b) × (o ≡ p) }
{
    reads_own_text();
    reads_origin_once();
    same_numbers_same_origin();
}

/// A law, with nothing to run: the last byte of a URI tells the kind of what stands there, an `r` of `.cer`, an `l` of
/// `.crl`, a `t` of `.mft` and an `a` of `.roa`.
pub fn kinds_are_told_apart()
    ensures anchor { (site : Bases) → last_byte (anchor_uri site) ≡ 114 }
    ensures certificates { (site : Bases) (a x : List ℕ) → last_byte (cert_uri site a x) ≡ 114 }
    ensures crls { (site : Bases) (a x : List ℕ) → last_byte (crl_uri site a x) ≡ 108 }
    ensures manifests { (site : Bases) (a x : List ℕ) → last_byte (manifest_uri site a x) ≡ 116 }
    ensures roas { (site : Bases) (a : List ℕ) (o : Origin) → last_byte (roa_uri site a o) ≡ 97 }
{}

/// A law, with nothing to run: the text of an origin, whose bytes a ROA's file name spells, is ASCII.
pub fn origin_texts_are_ascii()
    ensures { (origin : Origin) → IsAscii (origin_text origin) }
{}
