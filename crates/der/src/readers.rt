//! Readers of lists and of whole objects.

ghost use Rattle.std.specs.Prelude.{◌≡◌, map, ℕ, List, length, IfOk, IfErr};
ghost use Rattle.der.specs.Part.{place};
ghost use Rattle.der.specs.Form.{Whole, Front, IsWhole};
ghost use Rattle.der.specs.laws.ListLaws.{IsMoving, placed-moves};
ghost use Rattle.der.specs.Forms.{many, placed};
ghost use Rattle.der.specs.Outcome.{GivesUnlessMemory, UnlessMemory};
ghost use Rattle.der.specs.Object.{Spells, read_object, IsTrueFault};

use crate::part::Part;
use crate::shape_fault::ShapeFault;
use std::alloc::Global;

/// Reads values that stand in front of others.
pub trait FrontReader {
    type Item: Drop;

    /// What contracts see of a value.
    ghost Meaning: { Type 0 };

    ghost view: { Self.Item → Meaning };

    ghost format: { Self → Front Meaning };

    /// The value in front, and what stands behind it.
    fn read_front<'a>(
        &self,
        alloc: Global,
        part: Part<'a>,
    ) -> Result<(Self::Item, Part<'a>), ShapeFault>
        ensures { GivesUnlessMemory (λ x. (view x.0, place x.1)) result ((format self.now).read (place part.entry)) };

    ghost moves: { (reader : Self) → IsMoving (format reader) };
}

/// Reads each value with the place at which it starts.
#[derive(Clone, Copy, Debug)]
pub struct Placed<R>(pub R);

impl<R: FrontReader> FrontReader for Placed<R> {
    type Item = (u64, R::Item);

    ghost Meaning = { ℕ × R.Meaning };

    ghost view = { λ x. (x.0, R.view x.1) };

    ghost format = { λ reader. placed (R.format reader.0) };

    fn read_front<'a>(
        &self,
        alloc: Global,
        part: Part<'a>,
    ) -> Result<((u64, R::Item), Part<'a>), ShapeFault> {
        let (item, rest) = self.0.read_front(alloc, part)?;
        Ok(((part.at, item), rest))
    }

    ghost moves = { λ reader. placed-moves (R.format reader.0) (R.moves reader.0) };
}

/// All values that the part has, in order.
pub fn many<R: FrontReader>(
    alloc: Global,
    reader: &R,
    part: Part<'_>,
) -> Result<Vec<R::Item>, ShapeFault>
    ensures { GivesUnlessMemory (λ v. map R.view v.items) result ((many (R.format reader.now)).read (place part.entry)) }
{
    let mut items = Vec::new(alloc);
    let mut left = part;
    while !left.is_empty() {
        let (item, rest) = reader.read_front(alloc, left)?;
        items.push(item)?;
        left = rest;
    }
    Ok(items)
}

/// Reads values whose spellings are all of a part. They may hold parts of the bytes.
pub trait WholeReader<'a> {
    type Item: Drop;

    /// What contracts see of a value.
    ghost Meaning: { Type 0 };

    ghost view: { Self.Item → Meaning };

    ghost format: { Self → Whole Meaning };

    /// The value that all of the part spells.
    fn read_whole(&self, alloc: Global, part: Part<'a>) -> Result<Self::Item, ShapeFault>
        ensures { GivesUnlessMemory view result ((format self.now).read (place part.entry)) };

    ghost is_whole: { (reader : Self) → IsWhole (format reader) };
}

/// The value that all the bytes of an object spell.
#[tactic(auto, using(crate::specs::laws::ObjectLaws::fault_from))]
pub fn object<'a, R: WholeReader<'a>>(
    alloc: Global,
    reader: &R,
    bytes: &'a [u8],
) -> Result<R::Item, ShapeFault>
    // What is read is spelled so, each byte of it, and what is spelled so is read.
    ensures found { IfOk result (λ x. Spells (R.format reader.now) (R.view x) bytes.now) }
    ensures only { (value : R.Meaning) → Spells (R.format reader.now) value bytes.now
        → UnlessMemory (λ x. R.view x ≡ value) result }

    // The very answer, and that the place of a fault is a true one.
    ensures exact { GivesUnlessMemory R.view result (read_object (R.format reader.now) bytes.now) }
    ensures fault { IfErr result (IsTrueFault (R.format reader.now) bytes.now) }
{
    match Part::whole(bytes) {
        Some(part) => reader.read_whole(alloc, part),
        None => Err(ShapeFault::Shape {
            at: bytes.len() as u64,
        }),
    }
}
