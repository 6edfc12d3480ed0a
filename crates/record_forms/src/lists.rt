//! Lists, read and written.

ghost use Rattle.std.specs.Prelude.{◌≡◌, ◌^◌, ◌-◌, ◌++◌, ℕ, List, length, map, min, OnOk};
ghost use Rattle.std.specs.List.{flat_map};
ghost use Rattle.record_forms.specs.Form.{Form};
ghost use Rattle.record_forms.specs.Forms.{bytes_32, so_many, counted};
ghost use Rattle.record_forms.specs.Outcome.{Gives};

use crate::fault::ReadFault;
use crate::reading::number_32;
use crate::writing::push_count;
use std::alloc::{AllocError, Global};

/// Reads values that stand in front of others.
pub trait ItemReader {
    type Item: Drop;

    /// What contracts see of a value.
    ghost Meaning: { Type 0 };

    ghost view: { Self.Item → Meaning };

    ghost form: { Self → Form Meaning };

    /// The value in front, and the bytes behind it.
    fn read_item<'a>(
        &self,
        alloc: Global,
        bytes: &'a [u8],
    ) -> Result<(Self::Item, &'a [u8]), ReadFault>
        ensures { Gives (λ x. (view x.0, x.1.now)) result ((form self.now).read bytes.now) };
}

/// Writes values one behind another.
pub trait ItemWriter {
    type Item;

    ghost spelling: { Self → Self.Item → List ℕ };

    /// How many bytes the value takes, if a number of 64 bits can tell.
    fn item_len(&self, item: &Self::Item) -> u64
        ensures { result ≡ min (length (spelling self.now item.now)) (2 ^ 64 - 1) };

    /// Appends the value.
    fn push_item(&self, out: &mut Vec<u8>, item: &Self::Item) -> Result<(), AllocError>
        ensures { OnOk result (out.new.items ≡ out.old.items ++ spelling self.now item.now) };
}

/// As many values as the number in front says, and the bytes behind them.
///
/// No memory is taken for a count, only for values that are there.
pub fn counted<'a, R: ItemReader>(
    alloc: Global,
    reader: &R,
    bytes: &'a [u8],
) -> Result<(Vec<R::Item>, &'a [u8]), ReadFault>
    ensures { Gives (λ x. (map R.view x.0.items, x.1.now)) result
        ((counted (R.form reader.now)).read bytes.now) }
{
    let (count, rest) = number_32(bytes)?;
    so_many(alloc, reader, count, rest)
}

// So many values.
fn so_many<'a, R: ItemReader>(
    alloc: Global,
    reader: &R,
    count: u32,
    bytes: &'a [u8],
) -> Result<(Vec<R::Item>, &'a [u8]), ReadFault>
    ensures { Gives (λ x. (map R.view x.0.items, x.1.now)) result
        (so_many (R.form reader.now).read count bytes.now) }
{
    let mut items = Vec::new(alloc);
    let mut left = bytes;
    for _ in 0..count {
        let (item, rest) = reader.read_item(alloc, left)?;
        items.push(item)?;
        left = rest;
    }
    Ok((items, left))
}

/// How many bytes the list takes, with its count, if a number of 64 bits can tell.
pub fn counted_len<W: ItemWriter>(writer: &W, items: &[W::Item]) -> u64
    ensures { result ≡ min
        (length (bytes_32 (length items.now) ++ flat_map (W.spelling writer.now) items.now)) (2 ^ 64 - 1) }
{
    let mut total = 4u64;
    for item in items {
        total = total.saturating_add(writer.item_len(item));
    }
    total
}

/// Appends how many values there are, and the values. Of more than 2^32 values the count says too few.
pub fn push_counted<W: ItemWriter>(
    out: &mut Vec<u8>,
    writer: &W,
    items: &[W::Item],
) -> Result<(), AllocError>
    ensures { OnOk result (out.new.items ≡ out.old.items
        ++ bytes_32 (length items.now) ++ flat_map (W.spelling writer.now) items.now) }
{
    push_count(out, items.len())?;
    push_each(out, writer, items)
}

// Appends the values.
fn push_each<W: ItemWriter>(
    out: &mut Vec<u8>,
    writer: &W,
    items: &[W::Item],
) -> Result<(), AllocError>
    ensures { OnOk result
        (out.new.items ≡ out.old.items ++ flat_map (W.spelling writer.now) items.now) }
{
    for item in items {
        writer.push_item(out, item)?;
    }
    Ok(())
}
