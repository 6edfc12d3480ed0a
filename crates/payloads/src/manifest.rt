//! The body of a manifest (RFC 9286 section 4.2).

ghost use Rattle.std.specs.Prelude.{◌≡◌, ◌↔◌, ◌<◌, ◌^◌, ℕ, List, false, Ok, IsTrue, IfOk, IfErr};
ghost use Rattle.der.specs.Part.{place};
ghost use Rattle.der.specs.Outcome.{GivesUnlessMemory};
ghost use Rattle.der.specs.Object.{Spells, read_object};
ghost use Rattle.payloads.specs.Outcome.{ordered, GivesBody, UnlessNoMemory, IsOrderOrMemory, IsTrueBodyFault};
ghost use Rattle.payloads.specs.ManifestFormats.{Manifest, IsManifest, placed_manifest, unordered_manifest, manifest, is_rising_manifest};
ghost use Rattle.payloads.specs.ManifestReading.{manifest_view, placed_view, manifest_value, unordered_name, manifest_read};

use crate::fault::BodyFault;
use crate::files::{files, have_names, push_files};
use crate::order::{are_rising, first_unordered, without_places};
use crate::values::ListedFile;
use der::tags::SEQUENCE;
use der::{Part, ShapeFault, number};
use moments::is_moment;
use object_parts::{general_time, push_general_time};
use std::alloc::{AllocError, Global};

/// What a manifest says: which files a publication point has (RFC 9286 section 4.2.1).
#[derive(Debug, Drop)]
pub struct ManifestBody {
    /// The manifest number.
    pub number: u64,
    /// Seconds since 1970, from 2000 to 9999.
    pub this_update: u64,
    /// When the next one is due at the latest, in seconds since 1970.
    pub next_update: u64,
    /// Their names rise.
    pub files: Vec<ListedFile>,
}

/// The same with the places at which the names start.
#[derive(Drop)]
struct PlacedBody {
    number: u64,
    this_update: u64,
    next_update: u64,
    files: Vec<(u64, ListedFile)>,
}

/// The body with the places of the names.
#[tactic(auto, unfolding(crate::specs::ManifestFormats::manifest_body))]
fn placed_body(alloc: Global, part: Part<'_>) -> Result<PlacedBody, ShapeFault>
    ensures { GivesUnlessMemory (λ x. placed_view x)
        result (placed_manifest.read (place part.entry)) }
{
    let (number, rest) = number(part.sole(SEQUENCE)?)?;
    let (this_update, rest) = general_time(rest)?;
    let (next_update, rest) = general_time(rest)?;
    let files = files(alloc, rest)?;
    Ok(PlacedBody {
        number,
        this_update,
        next_update,
        files,
    })
}

/// The same of all the bytes.
fn placed(alloc: Global, bytes: &[u8]) -> Result<PlacedBody, ShapeFault>
    ensures { GivesUnlessMemory (λ x. placed_view x)
        result (read_object placed_manifest bytes.now) }
{
    match Part::whole(bytes) {
        Some(part) => placed_body(alloc, part),
        None => Err(ShapeFault::Shape {
            at: bytes.len() as u64,
        }),
    }
}

/// The body, or the place of the first name that isn't above the one before it.
fn body_of(alloc: Global, placed: PlacedBody) -> Result<ManifestBody, BodyFault>
    ensures { GivesBody manifest_view
        result (ordered manifest_value unordered_name (Ok (placed_view placed))) }
{
    match first_unordered(&placed.files) {
        Some(at) => Err(BodyFault::Order { at }),
        None => {
            let files = without_places(alloc, placed.files)?;
            Ok(ManifestBody {
                number: placed.number,
                this_update: placed.this_update,
                next_update: placed.next_update,
                files,
            })
        }
    }
}

/// The body that the bytes spell.
#[tactic(auto, unfolding(crate::specs::ManifestReading::manifest_read))]
fn read_body(alloc: Global, bytes: &[u8]) -> Result<ManifestBody, BodyFault>
    ensures { GivesBody manifest_view result (manifest_read bytes.now) }
{
    let placed = placed(alloc, bytes)?;
    body_of(alloc, placed)
}

impl ManifestBody {
    /// Whether the body has a spelling: its times are moments, its names are such, and they rise.
    pub fn has_spelling(&self) -> bool
        ensures { IsTrue result ↔ IsManifest (manifest_view self.now) }
    {
        let _number = self.number;
        if !is_moment(self.this_update) || !is_moment(self.next_update) {
            return false;
        }
        if !have_names(&self.files) {
            return false;
        }
        are_rising(&self.files)
    }

    /// The one spelling of the body.
    #[tactic(auto, using(std::proofs::Common::append_assoc), unfolding(crate::specs::ManifestFormats::manifest_body))]
    pub fn write(&self, alloc: Global) -> Result<Vec<u8>, AllocError>
        requires { IsManifest (manifest_view self.now) }
        ensures { IfOk result (λ out. out.items ≡ manifest.spelling (manifest_view self.now)) }
    {
        let mut out = Vec::new(alloc);
        der::unsigned(alloc, &mut out, self.number)?;
        push_general_time(alloc, &mut out, self.this_update)?;
        push_general_time(alloc, &mut out, self.next_update)?;
        push_files(alloc, &mut out, &self.files)?;
        der::enclose(alloc, &mut out, 0, SEQUENCE)?;
        Ok(out)
    }

    /// The body that the bytes spell. Its grammar is asked first, and then whether the names rise.
    /// Places in faults are offsets in bytes. Whether this update is before the next one isn't asked
    /// (RFC 9286 section 4.4).
    pub fn read(alloc: Global, bytes: &[u8]) -> Result<ManifestBody, BodyFault>
        // What is read is spelled so, each byte of it, and what is spelled so is read.
        ensures found { IfOk result (λ body. Spells manifest (manifest_view body) bytes.now) }
        ensures only { (value : Manifest) → Spells manifest value bytes.now
            → UnlessNoMemory (λ body. manifest_view body ≡ value) result }

        // Where the bytes spell a body but for the order, that is what is told.
        ensures order { (value : Manifest) → Spells unordered_manifest value bytes.now
            → is_rising_manifest value ≡ false → IsOrderOrMemory result }

        // The very answer, and that a fault is told rightly.
        ensures exact { GivesBody manifest_view result (manifest_read bytes.now) }
        ensures fault { IfErr result (IsTrueBodyFault unordered_manifest is_rising_manifest bytes.now) }
    {
        read_body(alloc, bytes)
    }
}
