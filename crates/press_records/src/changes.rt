//! The changes of an edition, read and written (RFC 8181 section 2.2).

ghost use Rattle.std.specs.Prelude.{◌≡◌, ◌^◌, ◌-◌, ◌++◌, ◌∷◌, [], true, min, length, Some, OnOk};
ghost use Rattle.std.specs.Option.{option_map};
ghost use Rattle.std.specs.Ordering.{is_lt};
ghost use Rattle.sha2.specs.Sha256.{sha256};
ghost use Rattle.pub_set.specs.declared.steps.Change.{Change};
ghost use Rattle.pub_set.specs.Objects.{uri_cmp, content_at};
ghost use Rattle.pub_set.specs.Changes.{Contents, uri_of};
ghost use Rattle.record_forms.specs.Outcome.{Gives};
ghost use Rattle.record_forms.specs.Forms.{sized};
ghost use Rattle.press_records.specs.inner.Raw.{read_put, read_withdrawal};
ghost use Rattle.press_records.specs.Changes.{text_in, texts, raw_changes, change_raw, changes, uris_rise_behind, uris_rise};

use pub_set::{Change, Content, ObjectSet, Uri};
use record_forms::{ItemReader, ItemWriter, ReadFault, number_8, push_sized, sized};
use sha2::{Digest, Sha256};
use std::alloc::{AllocError, Global};
use std::cmp::Ordering;

// The text of these bytes, if they are UTF-8.
fn text_in(bytes: &[u8]) -> Option<&str>
    ensures { option_map (λ text. text.now) result ≡ text_in bytes.now }
{
    match str::from_utf8(bytes) {
        Ok(text) => Some(text),
        Err(_) => None,
    }
}

// A URI.
fn uri(alloc: Global, bytes: &[u8]) -> Result<(Uri, &[u8]), ReadFault>
    ensures { Gives (λ x. (x.0, x.1.now)) result (texts.read bytes.now) }
{
    let (field, bytes) = sized(bytes)?;
    match text_in(field) {
        Some(text) => Ok((Uri::new(String::from_str(alloc, text)?), bytes)),
        None => Err(ReadFault::Bad),
    }
}

// The SHA-256 of what stands at the URI, if something does.
fn hash_at(set: &ObjectSet, uri: &Uri) -> Option<[u8; 32]>
    ensures { result ≡ option_map sha256 (content_at set.now uri.now) }
{
    match set.get(uri.as_str()) {
        Some(bytes) => Some(Sha256::digest(bytes)),
        None => None,
    }
}

// What is put at a URI.
fn put<'a>(alloc: Global, set: &ObjectSet, bytes: &'a [u8]) -> Result<(Change, &'a [u8]), ReadFault>
    ensures { Gives (λ x. (x.0, x.1.now)) result
        (read_put (content_at set.now) bytes.now) }
{
    let (uri, bytes) = uri(alloc, bytes)?;
    let (content, bytes) = sized(bytes)?;
    let replaces = hash_at(set, &uri);
    let put = Change::Put {
        uri,
        bytes: Content::new(alloc, Vec::from_slice(alloc, content)?)?,
        replaces,
    };
    Ok((put, bytes))
}

// What is withdrawn.
fn withdrawal<'a>(
    alloc: Global,
    set: &ObjectSet,
    bytes: &'a [u8],
) -> Result<(Change, &'a [u8]), ReadFault>
    ensures { Gives (λ x. (x.0, x.1.now)) result
        (read_withdrawal (content_at set.now) bytes.now) }
{
    let (uri, bytes) = uri(alloc, bytes)?;
    match hash_at(set, &uri) {
        Some(hash) => Ok((Change::Withdraw { uri, hash }, bytes)),
        None => Err(ReadFault::Bad),
    }
}

/// A change, over the set as it stands.
#[tactic(auto, using(crate::proofs::Parsing::put_read, crate::proofs::Parsing::withdrawal_read), unfolding(crate::specs::Changes::changes))]
pub(crate) fn change_over<'a>(
    alloc: Global,
    set: &ObjectSet,
    bytes: &'a [u8],
) -> Result<(Change, &'a [u8]), ReadFault>
    ensures { Gives (λ x. (x.0, x.1.now)) result ((changes (content_at set.now)).read bytes.now) }
{
    let (kind, bytes) = number_8(bytes)?;
    match kind {
        1 => put(alloc, set, bytes),
        2 => withdrawal(alloc, set, bytes),
        _ => Err(ReadFault::Bad),
    }
}

/// Reads changes, over the set as it stands.
#[derive(Clone, Copy, Debug)]
pub struct ChangesOver<'b> {
    pub set: &'b ObjectSet,
}

impl<'b> ItemReader for ChangesOver<'b> {
    type Item = Change;

    ghost Meaning = { Change };

    ghost view = { λ change. change };

    ghost form = { λ reader. changes (content_at reader.set.now) };

    fn read_item<'a>(
        &self,
        alloc: Global,
        bytes: &'a [u8],
    ) -> Result<(Change, &'a [u8]), ReadFault> {
        change_over(alloc, self.set, bytes)
    }
}

// How many bytes a change takes, if a number of 64 bits can tell.
#[tactic(auto, using(crate::proofs::Sizes::put_size, crate::proofs::Sizes::withdrawal_size))]
fn change_len(change: &Change) -> u64
    ensures { result ≡ min (length (raw_changes.spelling (change_raw change.now))) (2 ^ 64 - 1) }
{
    match change {
        Change::Put { uri, bytes, .. } => sized_len(uri.as_str().as_bytes())
            .saturating_add(sized_len(bytes.as_slice()))
            .saturating_add(1),
        Change::Withdraw { uri, .. } => sized_len(uri.as_str().as_bytes()).saturating_add(1),
    }
}

fn push_change(out: &mut Vec<u8>, change: &Change) -> Result<(), AllocError>
    ensures { OnOk result (out.new.items ≡ out.old.items ++ raw_changes.spelling (change_raw change.now)) }
{
    match change {
        Change::Put { uri, bytes, .. } => {
            out.push(1)?;
            push_sized(out, uri.as_str().as_bytes())?;
            push_sized(out, bytes.as_slice())
        }
        Change::Withdraw { uri, .. } => {
            out.push(2)?;
            push_sized(out, uri.as_str().as_bytes())
        }
    }
}

/// Writes changes.
#[derive(Clone, Copy, Debug)]
pub struct Changes;

impl ItemWriter for Changes {
    type Item = Change;

    ghost spelling = { λ writer change. raw_changes.spelling (change_raw change) };

    fn item_len(&self, item: &Change) -> u64 {
        change_len(item)
    }

    fn push_item(&self, out: &mut Vec<u8>, item: &Change) -> Result<(), AllocError> {
        push_change(out, item)
    }
}

// How many bytes these take with their length.
#[tactic(auto, using(crate::proofs::Sizes::sized_size))]
fn sized_len(bytes: &[u8]) -> u64
    ensures { result ≡ min (length (sized.spelling bytes.now)) (2 ^ 64 - 1) }
{
    (bytes.len() as u64).saturating_add(4)
}

// Whether the URI of the one change comes before that of the other.
fn comes_before(one: &Change, other: &Change) -> bool
    ensures { result ≡ is_lt (uri_cmp (uri_of one.now) (uri_of other.now)) }
{
    matches!(one.uri().as_str().cmp(other.uri().as_str()), Ordering::Less)
}

/// Whether the URI of the change comes after that of the last of the others, whose URIs rise.
pub(crate) fn rises_behind(changes: &[Change], change: &Change) -> bool
    requires { uris_rise changes.now ≡ true }
    ensures { result ≡ uris_rise (changes.now ++ change.now ∷ []) }
{
    match changes.last() {
        Some(last) => comes_before(last, change),
        None => true,
    }
}

// Whether each URI comes after the one before it, the first after that of a change.
fn uris_rise_behind(change: &Change, changes: &[Change]) -> bool
    ensures { result ≡ uris_rise_behind (uri_of change.now) changes.now }
{
    let mut last = change;
    let mut rest = changes;
    while let Some((first, others)) = rest.split_first() {
        if !comes_before(last, first) {
            return false;
        }
        last = first;
        rest = others;
    }
    true
}

/// Whether each URI comes after the one before it.
pub fn uris_rise(changes: &[Change]) -> bool
    ensures { result ≡ uris_rise changes.now }
{
    match changes.split_first() {
        Some((first, rest)) => uris_rise_behind(first, rest),
        None => true,
    }
}
