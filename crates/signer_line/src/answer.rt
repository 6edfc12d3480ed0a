// What a line answers.
ghost use Rattle.std.specs.Prelude.{◌≡◌, ◌↔◌, ◌≤◌, ◌++◌, ◌*◌, ℕ, List, Bool, Some, IsTrue, length, codes, IfSome, IsSomeAnd, option_map};
ghost use Rattle.hex.specs.Hex.{encode_lower, IsBytes};
ghost use Rattle.signer_api.specs.PublicKey.{IsPublicKey};
ghost use Rattle.signer_line.specs.Answers.{Answers, told};
ghost use Rattle.signer_line.specs.Lines.{key_line, signature_line, once_line, check_line};

use hex::{FromHex, encode_to_slice};
use signer_api::{OneUse, PublicKey, Signature};

/// What a signer answers.
#[derive(Clone, Copy)]
pub(crate) enum Answer {
    Key(PublicKey),
    Signature(Signature),
    Once(OneUse),
    Checked(bool),
    Dropped,
}

// Whether these are the bytes' lower-case digits.
fn is_spelled(bytes: &[u8], digits: &[u8]) -> bool
    requires { length bytes.now ≤ 270 }
    ensures { IsTrue result ↔ (digits.now ≡ encode_lower bytes.now) }
{
    let mut again = [0u8; 540];
    let again = &mut again[..2 * bytes.len()];
    // It fits.
    let _written = encode_to_slice(bytes, again);
    &*again == digits
}

// The bytes that lower-case digits spell.
#[tactic(auto, using(crate::proofs::LineLemmas::read_back, crate::proofs::LineLemmas::read_back_same))]
fn read_hex<const N: usize>(digits: &[u8]) -> Option<[u8; N]>
    requires { N ≤ 270 }
    ensures spelled { IfSome result (λ bytes. digits.now ≡ encode_lower bytes) }
    ensures every { (bytes : List ℕ) → length bytes ≡ N → IsBytes bytes → digits.now ≡ encode_lower bytes
        → result ≡ Some bytes }
{
    let bytes = <[u8; N] as FromHex>::from_hex(digits).ok()?;
    if is_spelled(&bytes, digits) {
        Some(bytes)
    } else {
        None
    }
}

fn read_key(line: &[u8]) -> Option<PublicKey>
    ensures spelled { IfSome result (λ key. line.now ≡ key_line key.bytes) }
    ensures every { (key : List ℕ) → IsPublicKey key → IsBytes key → line.now ≡ key_line key
        → IsSomeAnd result (λ k. k.bytes ≡ key) }
{
    let bytes = read_hex::<270>(line.strip_prefix(b"key ")?)?;
    PublicKey::read(&bytes)
}

fn read_signature(line: &[u8]) -> Option<Signature>
    ensures spelled { IfSome result (λ signature. line.now ≡ signature_line signature.bytes) }
    ensures every { (signature : List ℕ) → length signature ≡ 256 → IsBytes signature
        → line.now ≡ signature_line signature → IsSomeAnd result (λ s. s.bytes ≡ signature) }
{
    let bytes = read_hex(line.strip_prefix(b"signature ")?)?;
    Some(Signature { bytes })
}

// The digits of a key and those of a signature.
fn once_parts(line: &[u8]) -> Option<(&[u8], &[u8])>
    ensures spelled { IfSome result (λ parts. line.now ≡ codes "once " ++ parts.0.now ++ codes " " ++ parts.1.now) }
    ensures every { (key signature : List ℕ) → length key ≡ 540 → line.now ≡ codes "once " ++ (key ++ (codes " " ++ signature))
        → IsSomeAnd result (λ parts. (parts.0.now ≡ key) × (parts.1.now ≡ signature)) }
{
    let digits = line.strip_prefix(b"once ")?;
    if digits.len() < 540 {
        return None;
    }
    let (key, rest) = digits.split_at(540);
    let signature = rest.strip_prefix(b" ")?;
    Some((key, signature))
}

fn read_once(line: &[u8]) -> Option<OneUse>
    ensures spelled { IfSome result (λ once. line.now ≡ once_line once.key.bytes once.signature.bytes) }
    ensures every { (key signature : List ℕ) → IsPublicKey key → IsBytes key → length signature ≡ 256 → IsBytes signature
        → line.now ≡ once_line key signature
        → IsSomeAnd result (λ once. (once.key.bytes ≡ key) × (once.signature.bytes ≡ signature)) }
{
    let (key, signature) = once_parts(line)?;
    let key = PublicKey::read(&read_hex::<270>(key)?)?;
    let bytes = read_hex(signature)?;
    Some(OneUse {
        key,
        signature: Signature { bytes },
    })
}

fn read_check(line: &[u8]) -> Option<bool>
    ensures spelled { IfSome result (λ yes. line.now ≡ check_line yes) }
    ensures every { (yes : Bool) → line.now ≡ check_line yes → result ≡ Some yes }
{
    match line {
        b"yes" => Some(true),
        b"no" => Some(false),
        _ => None,
    }
}

/// The answer that a line spells, if it spells one.
pub(crate) fn read_answer(line: &[u8]) -> Option<Answer>
    ensures { Answers line.now (option_map told result) }
{
    if let Some(key) = read_key(line) {
        return Some(Answer::Key(key));
    }
    if let Some(signature) = read_signature(line) {
        return Some(Answer::Signature(signature));
    }
    if let Some(once) = read_once(line) {
        return Some(Answer::Once(once));
    }
    if let Some(yes) = read_check(line) {
        return Some(Answer::Checked(yes));
    }
    if line == b"done".as_slice() {
        return Some(Answer::Dropped);
    }
    None
}
