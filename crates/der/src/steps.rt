//! The steps of a reading (X.690 section 8.1).

ghost use Rattle.std.specs.Prelude.{◌≡◌, ◌<◌, ◌^◌, length, SomeIff};
ghost use Rattle.der.specs.declared.shape_fault.ShapeFault.TheVariants.{Shape};
ghost use Rattle.std.specs.Option.{option_map};
ghost use Rattle.der.specs.Part.{place, start, open_at, sole_at, end_at, before, begins, is_empty, is_other};
ghost use Rattle.der.specs.Outcome.{Gives};

use crate::part::Part;
use crate::shape_fault::ShapeFault;

impl<'a> Part<'a> {
    /// The whole of an object, unless it has 2 ^ 32 bytes or more.
    pub fn whole(bytes: &'a [u8]) -> Option<Part<'a>>
        ensures { SomeIff (option_map place result) (length bytes.now < 2 ^ 32) (start bytes.now) }
    {
        if bytes.len() < 1 << 32 {
            Some(Part {
                at: 0,
                bytes,
                last: bytes.len() as u64,
            })
        } else {
            None
        }
    }

    /// Whether nothing is left.
    pub fn is_empty(self) -> bool
        ensures { result ≡ is_empty self.entry.bytes.now }
    {
        self.bytes.is_empty()
    }

    /// Whether the next byte is that tag.
    pub fn begins(self, tag: u8) -> bool
        ensures { result ≡ begins tag self.entry.bytes.now }
    {
        match self.bytes {
            [first, ..] => *first == tag,
            [] => false,
        }
    }

    /// The fault that no earlier byte tells.
    pub fn fault(self) -> ShapeFault
        ensures { result ≡ Shape self.entry.last }
    {
        ShapeFault::Shape { at: self.last }
    }

    /// Nothing is to be left.
    #[tactic(auto, unfolding(crate::specs::Part::end_at))]
    pub fn end(self) -> Result<(), ShapeFault>
        ensures { Gives (λ x. x) result (end_at (place self.entry)) }
    {
        if self.bytes.is_empty() {
            Ok(())
        } else {
            Err(ShapeFault::Shape { at: self.at })
        }
    }

    /// The content of the element of that tag in front, and what stands behind the element (X.690
    /// section 8.1).
    #[tactic(auto, unfolding(crate::specs::Part::open_at))]
    pub fn open(self, tag: u8) -> Result<(Part<'a>, Part<'a>), ShapeFault>
        ensures { Gives (λ x. (place x.0, place x.1)) result (open_at tag (place self.entry)) }
    {
        if self.is_other(tag) {
            return Err(ShapeFault::Shape { at: self.at });
        }
        let Ok((content, rest)) = crate::parts::content_of(self.at, tag, self.bytes) else {
            return Err(self.fault());
        };
        let end = self.at + (self.bytes.len() - rest.len()) as u64;
        let inside = Part {
            at: end - content.len() as u64,
            bytes: content,
            last: end - 1,
        };
        let behind = Part {
            at: end,
            bytes: rest,
            last: self.last,
        };
        Ok((inside, behind))
    }

    /// The content of the element of that tag that is all there is.
    #[tactic(auto, unfolding(crate::specs::Part::sole_at))]
    pub fn sole(self, tag: u8) -> Result<Part<'a>, ShapeFault>
        ensures { Gives place result (sole_at tag (place self.entry)) }
    {
        let (inside, rest) = self.open(tag)?;
        rest.end()?;
        Ok(inside)
    }

    /// Whether a byte is next that isn't that tag.
    fn is_other(self, tag: u8) -> bool
        ensures { result ≡ is_other tag self.entry.bytes.now }
    {
        match self.bytes {
            [first, ..] => *first != tag,
            [] => false,
        }
    }

    /// The bytes in front of a part that ends where this one ends.
    pub fn before(self, rest: Part<'_>) -> &'a [u8]
        ensures { result.now ≡ before (place self.entry) (place rest.entry) }
    {
        &self.bytes[..self.bytes.len().saturating_sub(rest.bytes.len())]
    }
}
