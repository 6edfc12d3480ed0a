//! A reader of one element after another (X.690 section 8.1).

ghost use Rattle.std.specs.Prelude.{◌≡◌, ◌+◌, ◌<◌, ◌≤◌, ◌^◌, ◌↔◌, ◌++◌, [], ℕ, List, length, slice_get, IsTrue, IfOk, OnOk, OnErr, Ok, IsOkAnd};
ghost use Rattle.std.specs.Result.{result_ok, result_err};
ghost use Rattle.std.specs.Option.{option_map};
ghost use Rattle.der.specs.Spelling.{spelled, unsigned_spelling, bits_spelling, AreBits};
ghost use Rattle.der.specs.Position.{Position, Passes};
ghost use Rattle.der.specs.Reading.{element_at, unsigned_at, bits_at};
ghost use Rattle.der.specs.Grammar.{element_in, whole_in, unsigned_in, bits_in};

use crate::fault::DerFault;
use crate::parts::{Bits, Element, bit_string_of, element_of, unsigned_of};
use std::marker::Model;

/// Reads the elements of a slice, one after another, and hands out parts of it.
///
/// A refusal leaves the reader as it was.
#[derive(Debug, Drop)]
pub struct Reader<'a> {
    at: u64,
    left: &'a [u8],
}

impl<'a> Model for Reader<'a> {
    ghost use Rattle.std.specs.Prelude.{◌+◌, ◌<◌, ◌^◌, length};
    ghost use Rattle.der.specs.Position.{Position};

    ghost Value = { Position };

    ghost view = { λ r. record { at = r.at; left = r.left.now } };

    ghost invariant = { λ r. r.at + length r.left.now < 2 ^ 64 };
}

impl<'a> Reader<'a> {
    /// A reader at the start of a slice.
    pub fn new(bytes: &'a [u8]) -> Reader<'a>
        ensures at { result.at ≡ 0 }
        ensures left { result.left ≡ bytes.now }
    {
        Reader { at: 0, left: bytes }
    }

    /// Whether no byte is left.
    pub fn is_empty(&self) -> bool
        ensures { IsTrue result ↔ (self.now.left ≡ []) }
    {
        self.left.is_empty()
    }

    /// The next byte, which is the next element's tag.
    pub fn peek(&self) -> Option<u8>
        ensures { result ≡ slice_get self.now.left 0 }
    {
        self.left.first().copied()
    }

    /// The bytes that are left.
    pub fn rest(&self) -> &'a [u8]
        ensures { result.now ≡ self.now.left }
    {
        self.left
    }

    /// The content of the next element, which is to have that tag (X.690 section 8.1).
    pub fn take(&mut self, tag: u8) -> Result<&'a [u8], DerFault>
        ensures passes { IfOk result (λ content. Passes (spelled tag content.now) self.old self.new) }
        ensures short { IfOk result (λ content. length content.now < 2 ^ 32) }
        // What is spelled so is read, whatever follows.
        ensures only { (content rest : List ℕ) → length content < 2 ^ 32
            → self.old.left ≡ spelled tag content ++ rest
            → IsOkAnd result (λ c. (c.now ≡ content) × (self.new.left ≡ rest)) }

        // The same as one equation.
        ensures read { option_map (λ c. (c.now, self.new.left)) (result_ok result)
            ≡ element_in tag self.old.left }

        ensures fault { result_err result ≡ result_err (element_at self.old.at tag self.old.left) }
        ensures err { OnErr result (self.new ≡ self.old) }
        // A loop over the elements ends.
        ensures shorter { OnOk result (length self.new.left + 2 ≤ length self.old.left) }
    {
        let Element {
            whole,
            content,
            rest,
        } = element_of(self.at, tag, self.left)?;
        self.pass(whole, rest);
        Ok(content)
    }

    /// The header and the content of the next element, which is to have that tag.
    pub fn take_whole(&mut self, tag: u8) -> Result<&'a [u8], DerFault>
        ensures passes { IfOk result (λ whole. Passes whole.now self.old self.new) }
        ensures element { IfOk result (λ whole. (content : List ℕ)
            × (whole.now ≡ spelled tag content) × (length content < 2 ^ 32)) }
        // What is spelled so is read, whatever follows.
        ensures only { (content rest : List ℕ) → length content < 2 ^ 32
            → self.old.left ≡ spelled tag content ++ rest
            → IsOkAnd result (λ whole. (whole.now ≡ spelled tag content) × (self.new.left ≡ rest)) }

        // The same as one equation.
        ensures read { option_map (λ w. (w.now, self.new.left)) (result_ok result)
            ≡ whole_in tag self.old.left }

        ensures fault { result_err result ≡ result_err (element_at self.old.at tag self.old.left) }
        ensures err { OnErr result (self.new ≡ self.old) }
        // A loop over the elements ends.
        ensures shorter { OnOk result (length self.new.left + 2 ≤ length self.old.left) }
    {
        let Element { whole, rest, .. } = element_of(self.at, tag, self.left)?;
        self.pass(whole, rest);
        Ok(whole)
    }

    /// The next element, an INTEGER that isn't negative (X.690 section 8.3).
    pub fn unsigned(&mut self) -> Result<u64, DerFault>
        ensures passes { IfOk result (λ n. Passes (unsigned_spelling n) self.old self.new) }
        // What is spelled so is read, whatever follows.
        ensures only { (n : ℕ) (rest : List ℕ) → n < 2 ^ 64
            → self.old.left ≡ unsigned_spelling n ++ rest
            → (result ≡ Ok n) × (self.new.left ≡ rest) }

        // The same as one equation.
        ensures read { option_map (λ n. (n, self.new.left)) (result_ok result)
            ≡ unsigned_in self.old.left }

        ensures fault { result_err result ≡ result_err (unsigned_at self.old.at self.old.left) }
        ensures err { OnErr result (self.new ≡ self.old) }
        // A loop over the elements ends.
        ensures shorter { OnOk result (length self.new.left + 2 ≤ length self.old.left) }
    {
        let (n, Element { whole, rest, .. }) = unsigned_of(self.at, self.left)?;
        self.pass(whole, rest);
        Ok(n)
    }

    /// The next element, a BIT STRING (X.690 section 8.6).
    pub fn bits(&mut self) -> Result<Bits<'a>, DerFault>
        ensures passes { IfOk result (λ b. Passes (bits_spelling b.unused b.bytes.now) self.old self.new) }
        ensures bits { IfOk result (λ b. AreBits b.unused b.bytes.now) }
        // What is spelled so is read, whatever follows.
        ensures only { (unused : ℕ) (bytes rest : List ℕ) → AreBits unused bytes → length bytes + 1 < 2 ^ 32
            → self.old.left ≡ bits_spelling unused bytes ++ rest
            → IsOkAnd result (λ b. (b.unused ≡ unused) × (b.bytes.now ≡ bytes) × (self.new.left ≡ rest)) }

        // The same as one equation.
        ensures read { option_map (λ b. ((b.unused, b.bytes.now), self.new.left)) (result_ok result)
            ≡ bits_in self.old.left }

        ensures fault { result_err result ≡ result_err (bits_at self.old.at self.old.left) }
        ensures err { OnErr result (self.new ≡ self.old) }
        // A loop over the elements ends.
        ensures shorter { OnOk result (length self.new.left + 2 ≤ length self.old.left) }
    {
        let (bits, Element { whole, rest, .. }) = bit_string_of(self.at, self.left)?;
        self.pass(whole, rest);
        Ok(bits)
    }

    /// Goes on behind the bytes of an element.
    fn pass(&mut self, whole: &[u8], rest: &'a [u8])
        requires { self.old.left ≡ whole.now ++ rest.now }
        ensures passes { Passes whole.now self.old self.new }
        ensures rest { self.new.left ≡ rest.now }
    {
        self.at += whole.len() as u64;
        self.left = rest;
    }
}
