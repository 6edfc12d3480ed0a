//! Snapshots and deltas read from their texts (RFC 8182 sections 3.5.2 and 3.5.3).

ghost use Rattle.std.specs.Prelude.{◌≡◌, ◌++◌, ◌∷◌, [], IfOk, OnOk, if◌then◌else◌};
ghost use Rattle.std.specs.Str.{IsUtf8};
ghost use Rattle.pub_set.specs.Changes.{uri_of};
ghost use Rattle.rrdp_text.specs.inner.Parts.{Gives};
ghost use Rattle.rrdp_text.specs.Reading.{begins};
ghost use Rattle.rrdp_text.specs.Template.{object_in, replaced_in, placed_in, put_in, withdraw_in, change_in, objects_in, changes_in};

use crate::fault::Stop;
use crate::fields;
use crate::parts::literal;
use pub_set::{Change, Content, Object, ObjectSet, Uri};
use std::alloc::{AllocError, Global};

/// Whether the text goes on with this byte.
fn begins(byte: u8, bytes: &[u8]) -> bool
    ensures { result ≡ begins byte bytes.now }
{
    match bytes {
        [] => false,
        [first, ..] => *first == byte,
    }
}

/// The URI of these bytes, in memory of its own.
fn uri_of(alloc: Global, bytes: &[u8]) -> Result<Uri, AllocError>
    requires { IsUtf8 bytes.now }
    ensures { IfOk result (λ uri. uri ≡ bytes.now) }
{
    Ok(Uri::new(String::from_str(alloc, fields::text_of(bytes))?))
}

#[tactic(auto, unfolding(crate::specs::Template::object_in))]
/// A line of a snapshot, its URI, and what is behind it.
fn object<'a>(
    alloc: Global,
    previous: &[u8],
    bytes: &'a [u8],
) -> Result<(Object, &'a [u8], &'a [u8]), Stop>
    ensures read { Gives (λ p. (p.0, p.2.now)) result (object_in previous.now bytes.now) }
    ensures uri { IfOk result (λ p. p.1.now ≡ p.0.uri) }
{
    let rest = literal(bytes, b"  <publish uri=\"")?;
    let (uri, rest) = fields::uri(previous, rest)?;
    let (content, rest) = fields::content(alloc, rest)?;
    let object = Object {
        uri: uri_of(alloc, uri)?,
        bytes: Content::new(alloc, content)?,
    };
    Ok((object, uri, rest))
}

#[tactic(auto, unfolding(crate::specs::Template::replaced_in, crate::specs::Template::placed_in))]
/// The hash that a put may carry, and its content.
fn put_parts(alloc: Global, bytes: &[u8]) -> Result<(Option<[u8; 32]>, Vec<u8>, &[u8]), Stop>
    ensures { Gives (λ p. ((p.0, p.1.items), p.2.now)) result
        (if begins 32 bytes.now then replaced_in bytes.now else placed_in bytes.now) }
{
    if begins(b' ', bytes) {
        let (hash, rest) = fields::hash(bytes)?;
        let (content, rest) = fields::content(alloc, rest)?;
        Ok((Some(hash), content, rest))
    } else {
        let (content, rest) = fields::content(alloc, bytes)?;
        Ok((None, content, rest))
    }
}

#[tactic(auto, unfolding(crate::specs::Template::put_in))]
/// The line of a put behind its bracket.
fn put<'a>(
    alloc: Global,
    previous: &[u8],
    bytes: &'a [u8],
) -> Result<(Change, &'a [u8], &'a [u8]), Stop>
    ensures read { Gives (λ p. (p.0, p.2.now)) result (put_in previous.now bytes.now) }
    ensures uri { IfOk result (λ p. p.1.now ≡ uri_of p.0) }
{
    let rest = literal(bytes, b"publish uri=\"")?;
    let (uri, rest) = fields::uri(previous, rest)?;
    let (replaces, content, rest) = put_parts(alloc, rest)?;
    let change = Change::Put {
        uri: uri_of(alloc, uri)?,
        bytes: Content::new(alloc, content)?,
        replaces,
    };
    Ok((change, uri, rest))
}

#[tactic(auto, unfolding(crate::specs::Template::withdraw_in))]
/// The line of a withdrawal behind its bracket.
fn withdraw<'a>(
    alloc: Global,
    previous: &[u8],
    bytes: &'a [u8],
) -> Result<(Change, &'a [u8], &'a [u8]), Stop>
    ensures read { Gives (λ p. (p.0, p.2.now)) result (withdraw_in previous.now bytes.now) }
    ensures uri { IfOk result (λ p. p.1.now ≡ uri_of p.0) }
{
    let rest = literal(bytes, b"withdraw uri=\"")?;
    let (uri, rest) = fields::uri(previous, rest)?;
    let (hash, rest) = fields::hash(rest)?;
    let rest = literal(rest, b"/>\n")?;
    let change = Change::Withdraw {
        uri: uri_of(alloc, uri)?,
        hash,
    };
    Ok((change, uri, rest))
}

#[tactic(auto, unfolding(crate::specs::Template::change_in))]
/// A line of a delta, its URI, and what is behind it.
fn change<'a>(
    alloc: Global,
    previous: &[u8],
    bytes: &'a [u8],
) -> Result<(Change, &'a [u8], &'a [u8]), Stop>
    ensures read { Gives (λ p. (p.0, p.2.now)) result (change_in previous.now bytes.now) }
    ensures uri { IfOk result (λ p. p.1.now ≡ uri_of p.0) }
{
    let rest = literal(bytes, b"  <")?;
    if begins(b'p', rest) {
        put(alloc, previous, rest)
    } else {
        withdraw(alloc, previous, rest)
    }
}

/// The lines of a snapshot, and the last one.
pub(crate) fn objects(alloc: Global, bytes: &[u8]) -> Result<(ObjectSet, &[u8]), Stop>
    ensures { Gives (λ p. (p.0, p.1.now)) result (objects_in bytes.now) }
{
    let mut set = ObjectSet::new(alloc);
    let mut previous: &[u8] = &[];
    let mut rest = bytes;
    for _turn in 0..bytes.len() {
        if !begins(b' ', rest) {
            return Ok((set, literal(rest, b"</snapshot>\n")?));
        }
        let (object, uri, more) = object(alloc, previous, rest)?;
        set.push(object)?;
        previous = uri;
        rest = more;
    }
    Err(Stop::Here { left: 0 })
}

/// Puts a change behind the others.
fn keep(changes: &mut Vec<Change>, change: Change) -> Result<(), AllocError>
    ensures { OnOk result (changes.new.items ≡ changes.old.items ++ change ∷ []) }
{
    changes.push(change)?;
    Ok(())
}

/// The lines of a delta, and the last one.
pub(crate) fn changes(alloc: Global, bytes: &[u8]) -> Result<(Vec<Change>, &[u8]), Stop>
    ensures { Gives (λ p. (p.0.items, p.1.now)) result (changes_in bytes.now) }
{
    let mut changes = Vec::new(alloc);
    let mut previous: &[u8] = &[];
    let mut rest = bytes;
    for _turn in 0..bytes.len() {
        if !begins(b' ', rest) {
            return Ok((changes, literal(rest, b"</delta>\n")?));
        }
        let (change, uri, more) = change(alloc, previous, rest)?;
        keep(&mut changes, change)?;
        previous = uri;
        rest = more;
    }
    Err(Stop::Here { left: 0 })
}
