//! Answers of cases.

ghost use Rattle.std.specs.Prelude.{◌≡◌, None, All, length, IfOk};
ghost use Rattle.names.specs.Name.{IsName};
ghost use Rattle.authority_book.specs.Origins.{first_repeated};
ghost use Rattle.issue_drafts.specs.Publishers.{name_at};
ghost use Rattle.issue_values.specs.Certificates.{IsEditionMoment};

use crate::works::anchor::make_anchor;
use crate::works::fields::{is_counted, live_key, moment, origins};
use anyhow::{Result, bail};
use authority_book::NameRow;
use issue_make::{Made, MakeFault};
use issue_values::origins_are_told_apart;
use key_ids::Site;
use key_roll::{IssuedRow, KeyRow, Role, What};
use names::Name;
use origins::Origin;
use pub_set::Change;
use signer_api::{Digest, MemorySigner, PublicKey, Rehearsal, Signer};
use signer_ring::Ring;
use std::alloc::Global;
use std::thread::Threads;
use test_support::{fixed_of, number_of};

/// A signer: its kind, its start, the number of a call that fails or nothing, and how many keys it made before.
#[derive(Clone, Copy)]
pub struct SignerCase<'a> {
    pub kind: &'a str,
    pub start: &'a str,
    pub fails: &'a str,
    pub before: &'a str,
}

/// What is made of the anchor's work by the signer.
pub fn made<R: Threads + Sync>(
    rt: &R,
    alloc: Global,
    at: &str,
    origin: &str,
    live: &str,
    signer: &SignerCase<'_>,
) -> Result<String> {
    let moment = moment(at)?;
    let origins = origins(alloc, origin)?;
    let live = live_key(alloc, live)?;
    let counted = is_counted(origin);
    if signer.kind == "Rehearsal" {
        return answer(
            rt,
            alloc,
            moment,
            &origins,
            live,
            rehearsal(alloc, signer)?,
            counted,
        );
    }
    answer(
        rt,
        alloc,
        moment,
        &origins,
        live,
        in_memory(alloc, signer)?,
        counted,
    )
}

fn rehearsal(alloc: Global, given: &SignerCase<'_>) -> Result<Rehearsal> {
    let mut signer = Rehearsal::new(fixed_of(alloc, given.start)?);
    make_before(alloc, &mut signer, given.before)?;
    Ok(signer)
}

fn in_memory(alloc: Global, given: &SignerCase<'_>) -> Result<MemorySigner> {
    let mut fails = Vec::new(alloc);
    if !given.fails.is_empty() {
        fails.push(number_of(given.fails)?)?;
    }
    let mut signer = MemorySigner::new(alloc, fixed_of(alloc, given.start)?, fails);
    make_before(alloc, &mut signer, given.before)?;
    Ok(signer)
}

/// Uses up so many key numbers.
fn make_before<S: Signer>(alloc: Global, signer: &mut S, count: &str) -> Result<()> {
    for _ in 0..number_of(count)? {
        let _once = signer.sign_once(alloc, &Digest { bytes: [0; 32] })?;
    }
    Ok(())
}

/// One signer alone.
fn ring_of<S: Signer>(alloc: Global, signer: S) -> Result<Ring<S>>
    ensures { IfOk result (λ ring. length ring ≡ 1) }
{
    let mut signers = Vec::new(alloc);
    signers.push(signer)?;
    Ok(Ring::new(signers))
}

fn anchor_name() -> Result<Name>
    ensures { IfOk result IsName }
{
    match Name::read("ta") {
        Some(name) => Ok(name),
        None => bail!("no name"),
    }
}

/// The anchor's name alone.
fn names_of(alloc: Global) -> Result<Vec<NameRow>>
    ensures one { IfOk result (λ names. length names.items ≡ 1) }
    ensures name { IfOk result (λ names. IsName (name_at names.items 0)) }
    ensures plain { IfOk result (λ names. All (λ row. IsName row.name) names.items) }
{
    let mut names = Vec::new(alloc);
    names.push(NameRow {
        name: anchor_name()?,
        signer: 0,
    })?;
    Ok(names)
}

fn answer<S: Signer + Send, R: Threads + Sync>(
    rt: &R,
    alloc: Global,
    moment: u64,
    origins: &[Origin],
    live: Option<PublicKey>,
    signer: S,
    counted: bool,
) -> Result<String>
    requires moment { IsEditionMoment moment }
    requires origins { first_repeated origins.now ≡ None }
{
    origins_are_told_apart();
    let site = Site::read(
        alloc,
        "rsync://rpki.example/repo/",
        "https://rpki.example/rrdp/",
    )?;
    let names = names_of(alloc)?;
    let mut ring = ring_of(alloc, signer)?;
    match make_anchor(rt, alloc, moment, origins, live, &names, &site, &mut ring) {
        Ok(made) if counted => counts_text(alloc, &made),
        Ok(made) => made_text(alloc, &made),
        Err(fault) => fault_text(alloc, fault),
    }
}

fn counts_text(alloc: Global, made: &Made) -> Result<String> {
    let mut bytes: u64 = 0;
    for change in made.changes.as_slice() {
        if let Change::Put { bytes: content, .. } = change {
            bytes = bytes.saturating_add(content.as_slice().len() as u64);
        }
    }
    let (puts, signatures) = (made.changes.len(), made.signatures);
    Ok(format!(in alloc; "{puts} objects of {bytes} bytes, {signatures} signatures")?)
}

fn fault_text(alloc: Global, fault: MakeFault) -> Result<String> {
    match fault {
        MakeFault::SignerFault { signer } => Ok(format!(in alloc; "SignerFault {signer}")?),
        MakeFault::KeyClash { id } => {
            let digits = hex::encode(alloc, id.bytes)?;
            Ok(format!(in alloc; "KeyClash {digits}")?)
        }
        MakeFault::Memory => bail!("out of memory"),
    }
}

fn made_text(alloc: Global, made: &Made) -> Result<String> {
    let mut text = String::new(alloc);
    for change in made.changes.as_slice() {
        push_change(alloc, &mut text, change)?;
    }
    for row in made.rows.as_slice() {
        push_row(alloc, &mut text, row)?;
    }
    for row in made.issued.as_slice() {
        push_issued(alloc, &mut text, row)?;
    }
    write!(text, "{} signatures", made.signatures)?;
    Ok(text)
}

fn push_change(alloc: Global, text: &mut String, change: &Change) -> Result<()> {
    match change {
        Change::Put {
            uri,
            bytes,
            replaces,
        } => {
            let digits = hex::encode(alloc, bytes.as_slice())?;
            write!(text, "put {} {digits}", uri.as_str())?;
            if let Some(hash) = replaces {
                write!(text, " {}", hex::encode(alloc, *hash)?)?;
            }
        }
        Change::Withdraw { uri, hash } => {
            write!(
                text,
                "withdraw {} {}",
                uri.as_str(),
                hex::encode(alloc, *hash)?
            )?;
        }
    }
    text.push_str("\t")?;
    Ok(())
}

fn role_text(role: Role) -> &'static str {
    match role {
        Role::New => "New",
        Role::Current => "Current",
        Role::Old => "Old",
    }
}

fn push_row(alloc: Global, text: &mut String, row: &KeyRow) -> Result<()> {
    let key = hex::encode(alloc, row.key.bytes)?;
    write!(
        text,
        "row {} {} {} {key} {} {} {} {} {}",
        row.desk,
        row.signer,
        role_text(row.role),
        row.next_serial,
        row.number,
        row.this_update,
        row.since,
        row.done
    )?;
    for entry in row.revoked.as_slice() {
        write!(
            text,
            " {},{},{}",
            entry.serial, entry.not_after, entry.revoked_at
        )?;
    }
    text.push_str("\t")?;
    Ok(())
}

fn push_issued(alloc: Global, text: &mut String, row: &IssuedRow) -> Result<()> {
    let issuer = hex::encode(alloc, row.issuer.bytes)?;
    let hash = hex::encode(alloc, row.hash)?;
    write!(
        text,
        "issued {} {issuer} {} {} {hash}",
        row.uri.as_str(),
        row.serial,
        row.not_after
    )?;
    match &row.what {
        What::Authority { key, held } => {
            write!(text, " {}", hex::encode(alloc, key.bytes)?)?;
            for set in [&held.asn, &held.v4, &held.v6] {
                write!(text, " ({})", set.text(alloc)?)?;
            }
        }
        What::Route { origin } => write!(text, " {}", origin.text(alloc)?)?,
        What::Point => {}
    }
    text.push_str("\t")?;
    Ok(())
}
