//! The set that is audited.
//!
//! Each ROA has one prefix of 24 bits, from 10.0.0.0/24 on. They are below the anchor itself, or in equal
//! parts below authorities that the anchor certifies.

use crate::authorities::Authority;
use crate::maker::{Made, Maker};
use crate::objects::{anchor, below, entity_of, signed_object};
use anyhow::{Context, Result, bail};
use cert_obj::Held;
use cms_obj::ObjectKind;
use key_ids::Site;
use origins::{Origin, Prefix};
use payloads::{RoaBody, RoaEntry};
use res_sets::{Family, Range, Ranges, Resources};
use std::alloc::Global;

/// 2026-01-01T00:00:00Z.
pub const FROM: u64 = 1_767_225_600;

/// A year later.
pub const TO: u64 = 1_798_761_600;

/// How the set is made.
#[derive(Clone, Copy)]
pub struct Shape {
    pub roas: u32,
    /// The authorities below the anchor. Where there are none, the ROAs are the anchor's.
    pub authorities: u32,
    /// The entries of each CRL.
    pub revoked: u32,
}

/// The site of the set.
pub fn site_of(alloc: Global) -> Result<Site> {
    Ok(Site::read(
        alloc,
        "rsync://rpki.example/repo/",
        "https://rpki.example/rrdp/",
    )?)
}

/// The set of that shape, and what is signed in it.
pub fn made(alloc: Global, site: &Site, shape: Shape) -> Result<Made> {
    let mut maker = Maker::new(alloc);
    let mut top = anchor(alloc, site, &mut maker, held_of(alloc, 0, 65_536)?)?;
    let key = top.key;
    if shape.authorities == 0 {
        put_roas(alloc, site, &mut maker, &mut top, 0, shape.roas)?;
    } else {
        put_authorities(alloc, site, &mut maker, &mut top, shape)?;
    }
    top.publish(alloc, site, &mut maker, shape.revoked)?;
    maker.into_made(alloc, key)
}

fn put_authorities(
    alloc: Global,
    site: &Site,
    maker: &mut Maker,
    top: &mut Authority,
    shape: Shape,
) -> Result<()> {
    let count = shape.roas / shape.authorities.max(1);
    for number in 0..shape.authorities {
        let first = number.saturating_mul(count);
        let held = held_of(alloc, first, count)?;
        let name = format!(in alloc; "a{number}")?;
        let mut authority = below(alloc, site, maker, top, name.as_str(), held)?;
        put_roas(alloc, site, maker, &mut authority, first, count)?;
        authority.publish(alloc, site, maker, shape.revoked)?;
    }
    Ok(())
}

// So many ROAs below the authority, the first with that number.
fn put_roas(
    alloc: Global,
    site: &Site,
    maker: &mut Maker,
    authority: &mut Authority,
    first: u32,
    count: u32,
) -> Result<()> {
    for place in 0..count {
        put_roa(alloc, site, maker, authority, first.saturating_add(place))?;
    }
    Ok(())
}

fn put_roa(
    alloc: Global,
    site: &Site,
    maker: &mut Maker,
    authority: &mut Authority,
    number: u32,
) -> Result<()> {
    let origin = origin_of(number)?;
    let file = origin.file_name(alloc)?;
    let uri = site.file_uri(alloc, authority.name.as_str(), file.as_str())?;
    let held = held_of(alloc, number, 1)?;
    let cert = entity_of(alloc, site, maker, authority, uri.as_str(), held)?;
    let content = content_of(alloc, origin)?;
    let bytes = signed_object(alloc, maker, authority, ObjectKind::Roa, &cert, &content)?;
    authority.put(alloc, site, maker, file, bytes)
}

fn content_of(alloc: Global, origin: Origin) -> Result<Vec<u8>> {
    let entry = RoaEntry {
        prefix: origin.prefix,
        max: origin.max,
    };
    let body = RoaBody {
        asn: origin.asn,
        entries: vec![in alloc; entry]?,
    };
    if !body.has_spelling() {
        bail!("no body");
    }
    Ok(body.write(alloc)?)
}

fn address_of(number: u32) -> u128 {
    u128::from(number) * 256 + 0x0a00_0000
}

// The prefix with this number, of AS 64496.
fn origin_of(number: u32) -> Result<Origin> {
    let prefix = Prefix::new(false, address_of(number), 24).context("no prefix")?;
    Origin::new(prefix, 24, 64_496).context("no origin")
}

// So many prefixes, the first with that number, in one range.
fn held_of(alloc: Global, first: u32, count: u32) -> Result<Held> {
    let last = address_of(first.saturating_add(count)).saturating_sub(1);
    let first = address_of(first);
    if last < first {
        bail!("no addresses");
    }
    let range = Range { first, last };
    let mut resources = Resources::empty(alloc);
    resources.v4 = Ranges::from_sorted(Family::V4, vec![in alloc; range]?).context("no addresses")?;
    Ok(Held::Set { resources })
}
