//! The body of a ROA (RFC 9582 section 4).

ghost use Rattle.std.specs.Prelude.{◌≡◌, ◌↔◌, ℕ, List, map, false, Ok, IsTrue, IfOk, IfErr};
ghost use Rattle.der.specs.Part.{place};
ghost use Rattle.der.specs.Outcome.{GivesUnlessMemory};
ghost use Rattle.der.specs.Object.{Spells, read_object};
ghost use Rattle.payloads.specs.Outcome.{ordered, GivesBody, UnlessNoMemory, IsOrderOrMemory, IsTrueBodyFault};
ghost use Rattle.payloads.specs.RoaFormats.{Entry, IsRoa, placed_view, placed_roa, unordered_roa, roa, is_rising};
ghost use Rattle.payloads.specs.RoaReading.{roa_view, roa_value, unordered_entry, roa_read};

use crate::families::{blocks, leading_v4, push_families};
use crate::fault::BodyFault;
use crate::order::{are_rising, first_unordered, without_places};
use crate::values::RoaEntry;
use der::tags::SEQUENCE;
use der::{Part, ShapeFault, short_number};
use std::alloc::{AllocError, Global};

/// What a ROA says: an AS, and what it may announce (RFC 9582 section 4).
#[derive(Debug, Drop)]
pub struct RoaBody {
    /// The number of the AS (RFC 9582 section 4.2).
    pub asn: u32,
    /// They rise: by family, IPv4 first, by address, by length, by maximum (RFC 9582 section
    /// 4.3.3).
    pub entries: Vec<RoaEntry>,
}

/// The number of the AS, and the entries with their places.
#[tactic(auto, unfolding(crate::specs::RoaFormats::body))]
fn placed_body(alloc: Global, part: Part<'_>) -> Result<(u32, Vec<(u64, RoaEntry)>), ShapeFault>
    ensures { GivesUnlessMemory (λ x. (x.0, map placed_view x.1.items))
        result (placed_roa.read (place part.entry)) }
{
    let (asn, rest) = short_number(part.sole(SEQUENCE)?)?;
    let entries = blocks(alloc, rest.sole(SEQUENCE)?)?;
    Ok((asn, entries))
}

/// The same of all the bytes.
fn placed(alloc: Global, bytes: &[u8]) -> Result<(u32, Vec<(u64, RoaEntry)>), ShapeFault>
    ensures { GivesUnlessMemory (λ x. (x.0, map placed_view x.1.items))
        result (read_object placed_roa bytes.now) }
{
    match Part::whole(bytes) {
        Some(part) => placed_body(alloc, part),
        None => Err(ShapeFault::Shape {
            at: bytes.len() as u64,
        }),
    }
}

/// The body, or the place of the first entry that isn't above the one before it.
fn body_of(alloc: Global, asn: u32, placed: Vec<(u64, RoaEntry)>) -> Result<RoaBody, BodyFault>
    ensures { GivesBody roa_view
        result (ordered roa_value unordered_entry (Ok (asn, map placed_view placed.items))) }
{
    match first_unordered(&placed) {
        Some(at) => Err(BodyFault::Order { at }),
        None => {
            let entries = without_places(alloc, placed)?;
            Ok(RoaBody { asn, entries })
        }
    }
}

/// The body that the bytes spell.
#[tactic(auto, unfolding(crate::specs::RoaReading::roa_read))]
fn read_body(alloc: Global, bytes: &[u8]) -> Result<RoaBody, BodyFault>
    ensures { GivesBody roa_view result (roa_read bytes.now) }
{
    let (asn, placed) = placed(alloc, bytes)?;
    body_of(alloc, asn, placed)
}

impl RoaBody {
    /// Whether the body has a spelling: it has an entry, and its entries rise.
    pub fn has_spelling(&self) -> bool
        ensures { IsTrue result ↔ IsRoa (roa_view self.now) }
    {
        let _asn = self.asn;
        !self.entries.is_empty() && are_rising(&self.entries)
    }

    /// The one spelling of the body.
    #[tactic(auto, using(std::proofs::Common::append_assoc), unfolding(crate::specs::RoaFormats::body, crate::specs::RoaFormats::blocks))]
    pub fn write(&self, alloc: Global) -> Result<Vec<u8>, AllocError>
        requires { IsRoa (roa_view self.now) }
        ensures { IfOk result (λ out. out.items ≡ roa.spelling (roa_view self.now)) }
    {
        let mut out = Vec::new(alloc);
        der::unsigned(alloc, &mut out, u64::from(self.asn))?;
        let from = out.len();
        let (v4, v6) = self.entries.split_at(leading_v4(&self.entries));
        push_families(alloc, &mut out, v4, v6)?;
        der::enclose(alloc, &mut out, from, SEQUENCE)?;
        der::enclose(alloc, &mut out, 0, SEQUENCE)?;
        Ok(out)
    }

    /// The body that the bytes spell. Its grammar is asked first, and then whether the entries rise
    /// (RFC 9582 section 4.3.3). Places in faults are offsets in bytes.
    pub fn read(alloc: Global, bytes: &[u8]) -> Result<RoaBody, BodyFault>
        // What is read is spelled so, each byte of it, and what is spelled so is read.
        ensures found { IfOk result (λ body. Spells roa (roa_view body) bytes.now) }
        ensures only { (value : ℕ × List Entry) → Spells roa value bytes.now
            → UnlessNoMemory (λ body. roa_view body ≡ value) result }

        // Where the bytes spell a body but for the order, that is what is told.
        ensures order { (value : ℕ × List Entry) → Spells unordered_roa value bytes.now
            → is_rising value ≡ false → IsOrderOrMemory result }

        // The very answer, and that a fault is told rightly.
        ensures exact { GivesBody roa_view result (roa_read bytes.now) }
        ensures fault { IfErr result (IsTrueBodyFault unordered_roa is_rising bytes.now) }
    {
        read_body(alloc, bytes)
    }
}
