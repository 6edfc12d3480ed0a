//! No spelling begins another, so what was written is read again, whatever follows it.

ghost use Rattle.std.specs.Prelude.{◌≡◌, ◌+◌, ◌<◌, ◌≤◌, ◌^◌, ◌++◌, ℕ, List, [], Some, length};
ghost use Rattle.der.specs.Grammar.{element_in, unsigned_in, bits_in, AreBytes};
ghost use Rattle.der.specs.Spelling.{spelled, unsigned_spelling, bits_spelling, AreBits};

/// The spelling of an element begins with that of no other.
pub fn one_element()
    ensures { (t u : ℕ) (c d x y : List ℕ)
        → spelled t c ++ x ≡ spelled u d ++ y
        → (t ≡ u) × (c ≡ d) × (x ≡ y) }
{}

/// The spelling of an INTEGER begins with that of no other.
pub fn one_unsigned()
    ensures { (m n : ℕ) (x y : List ℕ)
        → unsigned_spelling m ++ x ≡ unsigned_spelling n ++ y → (m ≡ n) × (x ≡ y) }
{}

/// The spelling of a BIT STRING begins with that of no other.
pub fn one_bits()
    ensures { (u v : ℕ) (a b x y : List ℕ)
        → bits_spelling u a ++ x ≡ bits_spelling v b ++ y → (u ≡ v) × (a ≡ b) × (x ≡ y) }
{}

/// An element is longer than its content, so what stands within fewer than 2 ^ 32 bytes has a
/// content that is read.
pub fn longer_than_content()
    ensures element { (tag : ℕ) (content : List ℕ)
        → length content + 2 ≤ length (spelled tag content) }
    ensures bits { (unused : ℕ) (bytes : List ℕ)
        → length bytes + 3 ≤ length (bits_spelling unused bytes) }
    ensures unsigned { (n : ℕ) → 3 ≤ length (unsigned_spelling n) }
{}

/// What is spelled so is read, whatever follows it.
pub fn spelled_is_read()
    ensures element { (tag : ℕ) (content rest : List ℕ) → length content < 2 ^ 32
        → element_in tag (spelled tag content ++ rest) ≡ Some (content, rest) }
    ensures unsigned { (n : ℕ) (rest : List ℕ) → n < 2 ^ 64
        → unsigned_in (unsigned_spelling n ++ rest) ≡ Some (n, rest) }
    ensures bits { (unused : ℕ) (bytes rest : List ℕ) → AreBits unused bytes → length bytes + 1 < 2 ^ 32
        → bits_in (bits_spelling unused bytes ++ rest) ≡ Some ((unused, bytes), rest) }
{}

/// The same with nothing behind it.
pub fn spelled_alone_is_read()
    ensures element { (tag : ℕ) (content : List ℕ) → length content < 2 ^ 32
        → element_in tag (spelled tag content) ≡ Some (content, []) }
    ensures unsigned { (n : ℕ) → n < 2 ^ 64 → unsigned_in (unsigned_spelling n) ≡ Some (n, []) }
    ensures bits { (unused : ℕ) (bytes : List ℕ) → AreBits unused bytes → length bytes + 1 < 2 ^ 32
        → bits_in (bits_spelling unused bytes) ≡ Some ((unused, bytes), []) }
{}

/// What is read is spelled so.
pub fn read_is_spelled()
    ensures element { (tag : ℕ) (bytes content rest : List ℕ) → AreBytes bytes
        → element_in tag bytes ≡ Some (content, rest)
        → (bytes ≡ spelled tag content ++ rest) × (length content < 2 ^ 32) }
    ensures unsigned { (bytes : List ℕ) (n : ℕ) (rest : List ℕ) → AreBytes bytes
        → unsigned_in bytes ≡ Some (n, rest)
        → (bytes ≡ unsigned_spelling n ++ rest) × (n < 2 ^ 64) }
    ensures bits { (bytes : List ℕ) (unused : ℕ) (content rest : List ℕ) → AreBytes bytes
        → bits_in bytes ≡ Some ((unused, content), rest)
        → (bytes ≡ bits_spelling unused content ++ rest) × AreBits unused content }
{}
