//! Times of exports: an edition's files are made, and put into a folder as the press puts them.

use anyhow::{Context, Result, bail};
use key_ids::Site;
use outlet_api::{FolderOutlet, OutFile, OutFiles, export};
use pub_set::{Change, Content, Object, ObjectSet, Uri, changes};
use rrdp_state::Rrdp;
use std::alloc::{AllocError, Global};
use std::time::{Duration, Instant};
use uuid::Uuid;

/// The objects of an edition and their bytes: as many as 16,384 ROAs of one prefix each have.
const OBJECTS: u32 = 16_384;

const BYTES: u32 = 1_760;

const EDITIONS: u32 = 5;

const RSYNC_BASE: &str = "rsync://rpki.example/repo/";

const RRDP_BASE: &str = "https://rpki.example/rrdp/";

/// The bytes of the anchor's certificate, and those of its locator.
const CERTIFICATE_BYTES: u32 = 1_000;

const LOCATOR_BYTES: u32 = 470;

/// So many bytes: each place has another one, and each variant.
fn filled(alloc: Global, bytes: u32, variant: u32) -> Result<Vec<u8>, AllocError> {
    let mut filled = Vec::with_capacity(alloc, bytes as usize)?;
    for place in 0..bytes {
        filled.push((place.wrapping_mul(7) ^ variant.wrapping_mul(31)).to_le_bytes()[0])?;
    }
    Ok(filled)
}

/// The set of so many objects. That of another variant has the same URIs and other bytes.
fn set_of(alloc: Global, objects: u32, variant: u32) -> Result<ObjectSet> {
    let mut set = ObjectSet::new(alloc);
    for number in 0..objects {
        let object = Object {
            uri: Uri::new(format!(in alloc; "{RSYNC_BASE}isp/0/{number:040}.roa")?),
            bytes: Content::new(
                alloc,
                filled(alloc, BYTES, number.wrapping_mul(2) ^ variant)?,
            )?,
        };
        if !set.is_behind(object.uri.as_str()) {
            bail!("out of order");
        }
        set.push(object)?;
    }
    Ok(set)
}

/// A session of files over a folder, whose editions have the one set and the other in turn.
#[derive(Drop)]
struct Session {
    rrdp: Rrdp,
    outlet: FolderOutlet,
    odd: ObjectSet,
    even: ObjectSet,
}

/// What an edition's export took: its texts with their hashes, and then its calls of the folder.
#[derive(Clone, Copy)]
struct Spent {
    texts: Duration,
    calls: Duration,
    files: usize,
    bytes: usize,
}

impl Session {
    fn open(rt: &HostRuntime, folder: &str, objects: u32) -> Result<Session> {
        let alloc = rt.alloc();
        let site = Site::read(alloc, RSYNC_BASE, RRDP_BASE).context("no site")?;
        Ok(Session {
            rrdp: Rrdp::new(alloc, Uuid::nil(), &site)?,
            outlet: FolderOutlet::new(*rt, String::from_str(alloc, folder)?),
            odd: set_of(alloc, objects, 0)?,
            even: set_of(alloc, objects, 1)?,
        })
    }

    /// Makes the next edition's files, and puts them.
    fn export_next(&mut self, rt: &HostRuntime) -> Result<Spent> {
        let alloc = rt.alloc();
        let serial = self
            .rrdp
            .serial()
            .checked_add(1)
            .context("no serial is left")?;
        let is_even = serial % 2 == 0;
        let set = one_of(is_even, &self.even, &self.odd);
        let other = one_of(!is_even, &self.even, &self.odd);
        let changes = changes_from(alloc, serial, other, set)?;
        let start = Instant::now(rt)?;
        let next = self.rrdp.next(alloc, serial, set, &changes)?;
        self.rrdp.advance(next, set);
        let mut files = self.rrdp.files(alloc, set, serial == 1)?;
        let texts = start.elapsed(rt)?;
        let start = Instant::now(rt)?;
        put_beside(alloc, &mut files)?;
        if export(alloc, &files, &mut self.outlet).is_err() {
            bail!("a call of the folder failed");
        }
        Ok(Spent {
            texts,
            calls: start.elapsed(rt)?,
            files: files.puts.len(),
            bytes: bytes_of(&files.puts),
        })
    }
}

fn one_of<'a>(is_even: bool, even: &'a ObjectSet, odd: &'a ObjectSet) -> &'a ObjectSet {
    if is_even { even } else { odd }
}

/// The changes that lead to an edition, of which the first one has no use.
fn changes_from(
    alloc: Global,
    serial: u64,
    old: &ObjectSet,
    new: &ObjectSet,
) -> Result<Vec<Change>, AllocError> {
    if serial == 1 {
        Ok(Vec::new(alloc))
    } else {
        changes(alloc, old, new)
    }
}

/// Puts the anchor's certificate and its locator just before the notification.
fn put_beside(alloc: Global, files: &mut OutFiles) -> Result<()> {
    let notification = files.puts.pop().context("nothing is put")?;
    for (path, bytes) in [("ta.cer", CERTIFICATE_BYTES), ("ta.tal", LOCATOR_BYTES)] {
        files.puts.push(OutFile {
            path: String::from_str(alloc, path)?,
            bytes: filled(alloc, bytes, 0)?,
        })?;
    }
    files.puts.push(notification)?;
    Ok(())
}

fn bytes_of(puts: &[OutFile]) -> usize {
    let mut bytes = 0usize;
    for file in puts {
        bytes = bytes.saturating_add(file.bytes.len());
    }
    bytes
}

/// Prints for each of some editions what its export into the folder took, and how many bytes it put.
pub fn time_exports(rt: &HostRuntime, folder: &str) -> Result<()> {
    let mut session = Session::open(rt, folder, OBJECTS)?;
    for _ in 0..EDITIONS {
        let spent = session.export_next(rt)?;
        let (texts, calls) = (spent.texts.as_nanos(), spent.calls.as_nanos());
        let bytes = spent.bytes;
        println!(rt; "{texts} {calls} {bytes}")?;
    }
    Ok(())
}

/// Exports small editions, and prints how many files each put and how many bytes.
pub fn small(rt: &HostRuntime) -> Result<()> {
    let mut session = Session::open(rt, "repo", 3)?;
    for _ in 0..3 {
        let Spent { files, bytes, .. } = session.export_next(rt)?;
        println!(rt; "{files} files {bytes}")?;
    }
    Ok(())
}
