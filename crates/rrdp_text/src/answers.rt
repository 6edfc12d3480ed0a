//! What the readers answer (RFC 8182 sections 3.5.2 and 3.5.3).

ghost use Rattle.std.specs.Prelude.{◌≡◌, IfOk, IfErr};
ghost use Rattle.pub_set.specs.declared.objects.Object.{Object};
ghost use Rattle.pub_set.specs.declared.steps.Change.{Change};
ghost use Rattle.rrdp_text.specs.Files.{File, IsSnapshot, snapshot_spelled, snapshot_of, IsDelta, delta_spelled, delta_of};
ghost use Rattle.rrdp_text.specs.Outcome.{IsReadAs, IsTrueFault, IsOkOrMemory, fault_of};
ghost use Rattle.rrdp_text.specs.inner.Parts.{Gives};
ghost use Rattle.rrdp_text.specs.Template.{snapshot_in, delta_in};

use crate::fault::{Stop, XmlFault};
use crate::fields::opening;
use crate::files::{Changes, DeltaFile, SnapshotFile};
use crate::reading::{changes, objects};
use std::alloc::Global;
use uuid::Uuid;

#[tactic(auto, unfolding(crate::specs::Template::snapshot_in, crate::specs::Texts::head))]
/// The snapshot of all bytes.
fn snapshot(alloc: Global, bytes: &[u8]) -> Result<SnapshotFile, Stop>
    ensures { Gives snapshot_of result (snapshot_in bytes.now) }
{
    let (session, serial, rest) = opening(
        b"<snapshot xmlns=\"http://www.ripe.net/rpki/rrdp\" version=\"1\" session_id=\"",
        bytes,
    )?;
    let (set, rest) = objects(alloc, rest)?;
    if rest.is_empty() {
        Ok(SnapshotFile {
            session: Uuid::from_bytes(session),
            serial,
            set,
        })
    } else {
        Err(Stop::Here { left: rest.len() })
    }
}

#[tactic(auto, unfolding(crate::specs::Template::delta_in, crate::specs::Texts::head))]
/// The delta of all bytes.
fn delta(alloc: Global, bytes: &[u8]) -> Result<DeltaFile, Stop>
    ensures { Gives delta_of result (delta_in bytes.now) }
{
    let (session, serial, rest) = opening(
        b"<delta xmlns=\"http://www.ripe.net/rpki/rrdp\" version=\"1\" session_id=\"",
        bytes,
    )?;
    let (changes, rest) = changes(alloc, rest)?;
    if rest.is_empty() {
        Ok(DeltaFile {
            session: Uuid::from_bytes(session),
            serial,
            changes: Changes::new(changes),
        })
    } else {
        Err(Stop::Here { left: rest.len() })
    }
}

/// A fault, by its place in so many bytes.
fn fault(stop: Stop, len: usize) -> XmlFault
    ensures { result ≡ fault_of len stop }
{
    match stop {
        Stop::Here { left } => XmlFault::NotTemplate {
            at: len.saturating_sub(left) as u64,
        },
        Stop::Memory => XmlFault::Memory,
    }
}

/// What a snapshot says, exactly where the bytes are its text (RFC 8182 section 3.5.2).
pub fn read_snapshot(alloc: Global, bytes: &[u8]) -> Result<SnapshotFile, XmlFault>
    // What is read can be said, and the bytes are its text.
    ensures found { IfOk result (λ f. IsSnapshot (snapshot_of f)
        × (bytes.now ≡ snapshot_spelled (snapshot_of f))) }
    // What has this text is read.
    ensures only { (v : File Object) → IsSnapshot v → bytes.now ≡ snapshot_spelled v
        → IsOkOrMemory snapshot_of v result }
    // A fault is where the definition's reading has it, and its place is true.
    ensures read { IsReadAs snapshot_of bytes.now result (snapshot_in bytes.now) }
    ensures fault { IfErr result (IsTrueFault IsSnapshot snapshot_spelled bytes.now) }
{
    match snapshot(alloc, bytes) {
        Ok(file) => Ok(file),
        Err(stop) => Err(fault(stop, bytes.len())),
    }
}

/// What a delta says, exactly where the bytes are its text (RFC 8182 section 3.5.3).
pub fn read_delta(alloc: Global, bytes: &[u8]) -> Result<DeltaFile, XmlFault>
    // What is read can be said, and the bytes are its text.
    ensures found { IfOk result (λ f. IsDelta (delta_of f)
        × (bytes.now ≡ delta_spelled (delta_of f))) }
    // What has this text is read.
    ensures only { (v : File Change) → IsDelta v → bytes.now ≡ delta_spelled v
        → IsOkOrMemory delta_of v result }
    // A fault is where the definition's reading has it, and its place is true.
    ensures read { IsReadAs delta_of bytes.now result (delta_in bytes.now) }
    ensures fault { IfErr result (IsTrueFault IsDelta delta_spelled bytes.now) }
{
    match delta(alloc, bytes) {
        Ok(file) => Ok(file),
        Err(stop) => Err(fault(stop, bytes.len())),
    }
}
