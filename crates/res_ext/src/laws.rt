//! No two values share a spelling, and what is written is read again.

ghost use Rattle.std.specs.Prelude.{◌≡◌, ◌<◌, ◌^◌, ℕ, List, length, map, Option, Some, None};
ghost use Rattle.der.specs.Grammar.{AreBytes};
ghost use Rattle.res_sets.specs.declared.numbers.Range.{Range};
ghost use Rattle.res_sets.specs.declared.numbers.Family.TheVariants.{Asn, V4, V6};
ghost use Rattle.res_sets.specs.Numbers.{AreCanonical};
ghost use Rattle.res_ext.specs.Formats.{span_of, as_content, as_identifiers, ip_content, ip_blocks};
ghost use Rattle.res_ext.specs.Extensions.{Spans, SpellsIp, SpellsAs, HasBadFamily};

/// Bytes spell one extension of addresses, and then no family in them is refused.
pub fn one_ip()
    ensures value { (a b : Option (Spans × Spans)) (bytes : List ℕ) → AreBytes bytes
        → SpellsIp a bytes → SpellsIp b bytes → a ≡ b }
    ensures no_fault { (value : Option (Spans × Spans)) (bytes : List ℕ) → AreBytes bytes
        → SpellsIp value bytes → ¬ HasBadFamily bytes }
{}

/// Bytes spell one extension of AS numbers.
pub fn one_as()
    ensures { (a b : Option Spans) (bytes : List ℕ) → AreBytes bytes → SpellsAs a bytes → SpellsAs b bytes → a ≡ b }
{}

/// The extension that is written of two sets of addresses is spelled right, unless it is too long for
/// lengths of four bytes, and the one that inherits is. So [`read_ip`](crate::read_ip) reads both again.
pub fn written_ip_is_read()
    ensures listed { (v4 v6 : List Range) → AreCanonical V4 v4 → AreCanonical V6 v6
        → length (ip_content.spelling (Some (map span_of v4, map span_of v6))) < 2 ^ 32
        → SpellsIp (Some (map span_of v4, map span_of v6)) (ip_blocks.spelling (Some (map span_of v4, map span_of v6))) }
    ensures inherited { SpellsIp None (ip_blocks.spelling None) }
{}

/// The same for AS numbers and [`read_as`](crate::read_as).
pub fn written_as_is_read()
    ensures listed { (asn : List Range) → AreCanonical Asn asn
        → length (as_content.spelling (Some (map span_of asn))) < 2 ^ 32
        → SpellsAs (Some (map span_of asn)) (as_identifiers.spelling (Some (map span_of asn))) }
    ensures inherited { SpellsAs None (as_identifiers.spelling None) }
{}
