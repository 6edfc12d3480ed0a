//! The files that a manifest lists (RFC 9286 section 4.2.1).

ghost use Rattle.std.specs.Prelude.{◌≡◌, ◌++◌, ℕ, List, map, OnOk};
ghost use Rattle.std.specs.List.{flat_map, list_all};
ghost use Rattle.der.specs.Part.{place};
ghost use Rattle.der.specs.Outcome.{GivesUnlessMemory};
ghost use Rattle.payloads.specs.ManifestFormats.{is_name, file_name, file_content, file, files, placed_name, is_name_below, name_of, file_view, placed_file_view};
ghost use Rattle.payloads.specs.laws.ManifestLaws.{within-moves};
ghost use Rattle.der.specs.Tags as tag;

use crate::names::{file_name, is_name};
use crate::order::Ranked;
use crate::values::ListedFile;
use der::tags::{BIT_STRING, IA5_STRING, SEQUENCE};
use der::{FrontReader, Part, ShapeFault, many, octet_bits};
use object_parts::identifiers::SHA256;
use object_parts::{identifier, push_identifier, push_octet_bits};
use std::alloc::{AllocError, Global};

impl Ranked for ListedFile {
    ghost Meaning = { List ℕ };

    ghost view = { λ f. name_of f };

    ghost below = { λ a b. is_name_below a b };

    /// By the bytes of the names.
    fn is_below(&self, other: &Self) -> bool {
        self.name.as_bytes().cmp(other.name.as_bytes()).is_lt()
    }
}

/// A name and a hash.
fn file_content(alloc: Global, part: Part<'_>) -> Result<(u64, ListedFile), ShapeFault>
    ensures { GivesUnlessMemory (λ x. placed_file_view x)
        result ((file_content placed_name).read (place part.entry)) }
{
    let (name, rest) = file_name(alloc, part)?;
    let hash = octet_bits(rest.sole(BIT_STRING)?)?;
    Ok((part.at, ListedFile { name, hash }))
}

/// Reads files with the places at which their names start.
#[derive(Clone, Copy)]
struct FileReader;

impl FrontReader for FileReader {
    type Item = (u64, ListedFile);

    ghost Meaning = { (ℕ × List ℕ) × List ℕ };

    ghost view = { λ x. placed_file_view x };

    ghost format = { λ reader. file placed_name };

    fn read_front<'a>(
        &self,
        alloc: Global,
        part: Part<'a>,
    ) -> Result<((u64, ListedFile), Part<'a>), ShapeFault> {
        let (content, rest) = part.open(SEQUENCE)?;
        let file = file_content(alloc, content)?;
        Ok((file, rest))
    }

    ghost moves = { λ reader. within-moves tag.sequence (file_content placed_name) };
}

/// The algorithm of the hashes, and the files with the places of their names. A place is the offset
/// in bytes of the name's element in the body (RFC 9286 section 4.2.1).
pub fn files(alloc: Global, part: Part<'_>) -> Result<Vec<(u64, ListedFile)>, ShapeFault>
    ensures { GivesUnlessMemory (λ v. map placed_file_view v.items)
        result ((files placed_name).read (place part.entry)) }
{
    let list = identifier(part, &SHA256)?.sole(SEQUENCE)?;
    many(alloc, &FileReader, list)
}

/// Whether each file's name is one (RFC 9286 section 4.2.2).
pub fn have_names(items: &[ListedFile]) -> bool
    ensures { result ≡ list_all (λ f. is_name (name_of f)) items.now }
{
    items.iter().all(|item| is_name(item.name.as_bytes()))
}

/// Appends a file.
#[tactic(auto, using(std::proofs::Common::append_assoc))]
fn push_file(alloc: Global, out: &mut Vec<u8>, item: &ListedFile) -> Result<(), AllocError>
    ensures { OnOk result (out.new.items ≡ out.old.items
        ++ (file file_name).spelling (file_view item.now)) }
{
    let from = out.len();
    der::element(alloc, out, IA5_STRING, item.name.as_bytes())?;
    push_octet_bits(alloc, out, &item.hash)?;
    der::enclose(alloc, out, from, SEQUENCE)
}

/// Appends files.
fn push_each(alloc: Global, out: &mut Vec<u8>, items: &[ListedFile]) -> Result<(), AllocError>
    ensures { OnOk result (out.new.items ≡ out.old.items
        ++ flat_map (file file_name).spelling (map file_view items.now)) }
{
    for item in items {
        push_file(alloc, out, item)?;
    }
    Ok(())
}

/// Appends the algorithm of the hashes, and the files (RFC 9286 section 4.2.1).
#[tactic(auto, using(std::proofs::Common::append_assoc))]
pub fn push_files(alloc: Global, out: &mut Vec<u8>, items: &[ListedFile]) -> Result<(), AllocError>
    ensures { OnOk result (out.new.items ≡ out.old.items
        ++ (files file_name).spelling (map file_view items.now)) }
{
    push_identifier(alloc, out, &SHA256)?;
    let from = out.len();
    push_each(alloc, out, items)?;
    der::enclose(alloc, out, from, SEQUENCE)
}
