//! Overlays carried out on the list of objects (RFC 8181 section 2.2).

ghost use Rattle.std.specs.Prelude.{◌≡◌, ◌+◌, ◌<◌, ◌≤◌, ◌++◌, [], ℕ, List, OnOk, OnErr};
ghost use Rattle.std.specs.Vec.{vec_capacity, vec_len};
ghost use Rattle.std.specs.String.{string_bytes};
ghost use Rattle.std.specs.BTreeMap.{btree_map_len};
ghost use Rattle.std.specs.VecDeque.{deque_len};
ghost use Rattle.pub_set.specs.Objects.{uri_cmp, IsAscending, IsBehind};
ghost use Rattle.pub_set.specs.inner.Overlays.{IsDrafted, IsPut, StartsFrom, PopsIf, IsSkipped};
ghost use Rattle.std.specs.declared.cmp.Ordering.TheVariants.{Less};

use crate::objects::{Object, compare, place_of};
use crate::overlays::Overlay;
use crate::parts::{Content, Uri};
use std::alloc::{AllocError, Global};
use std::cmp::Ordering;
use std::collections::VecDeque;
use std::mem;

// So few changes are made one by one, each at its place. More are merged in, for which each object's URI is compared.
const FEW: usize = 64;

/// Makes what the overlay says stand at each of its URIs.
///
/// What takes memory comes first, and no bytes are copied.
pub fn carry_out(
    alloc: Global,
    objects: &mut Vec<Object>,
    overlay: Overlay,
) -> Result<(), AllocError>
    requires { IsAscending objects.old.items }
    ensures ok { OnOk result (IsDrafted objects.old.items overlay.entries objects.new.items) }
    ensures err { OnErr result (objects.new.items ≡ objects.old.items) }
{
    if overlay.len() <= FEW {
        objects.reserve(overlay.len())?;
        put_each(objects, overlay);
    } else {
        let merged = Vec::with_capacity(alloc, objects.len().saturating_add(overlay.len()))?;
        let rest = VecDeque::from_vec(mem::replace(objects, merged));
        merge(objects, rest, overlay);
    }
    Ok(())
}

// Makes each change at its place, within the room that is there.
fn put_each(objects: &mut Vec<Object>, overlay: Overlay)
    requires ascending { IsAscending objects.old.items }
    requires room { vec_len objects.old + btree_map_len overlay ≤ vec_capacity objects.old }
    ensures { IsDrafted objects.old.items overlay.entries objects.new.items }
{
    for (uri, left) in overlay {
        put(objects, uri, left);
    }
}

// Makes this stand at the URI.
fn put(objects: &mut Vec<Object>, uri: String, left: Option<Content>)
    requires ascending { IsAscending objects.old.items }
    requires room { vec_len objects.old < vec_capacity objects.old }
    ensures put { IsPut objects.old.items (string_bytes uri) left objects.new.items }
    ensures len { vec_len objects.new ≤ vec_len objects.old + 1 }
    ensures capacity { vec_capacity objects.old ≤ vec_capacity objects.new }
{
    match (place_of(objects, uri.as_str()), left) {
        (Ok(place), Some(bytes)) => objects[place].bytes = bytes,
        (Ok(place), None) => {
            objects.remove(place);
        }
        (Err(place), Some(bytes)) => {
            let uri = Uri::new(uri);
            objects.insert(place, Object { uri, bytes }).unwrap();
        }
        (Err(_), None) => {}
    }
}

// Moves the objects over, and makes each change where its URI comes.
fn merge(merged: &mut Vec<Object>, mut rest: VecDeque<Object>, overlay: Overlay)
    requires ascending { IsAscending rest.items }
    requires empty { merged.old.items ≡ [] }
    requires room { deque_len rest + btree_map_len overlay ≤ vec_capacity merged.old }
    ensures { IsDrafted rest.items overlay.entries merged.new.items }
{
    for (uri, left) in overlay {
        merge_one(merged, &mut rest, uri, left);
    }
    move_all(merged, rest);
}

// Moves the objects below the URI, and makes this stand there behind them.
fn merge_one(
    merged: &mut Vec<Object>,
    rest: &mut VecDeque<Object>,
    uri: String,
    left: Option<Content>,
)
    requires ascending { IsAscending (merged.old.items ++ rest.old.items) }
    requires behind { IsBehind merged.old.items (string_bytes uri) }
    requires room { vec_len merged.old + deque_len rest.old < vec_capacity merged.old }
    ensures put { IsPut (merged.old.items ++ rest.old.items) (string_bytes uri) left
        (merged.new.items ++ rest.new.items) }
    ensures behind { (later : List ℕ) → uri_cmp (string_bytes uri) later ≡ Less
        → IsBehind merged.new.items later }
    ensures len { vec_len merged.new + deque_len rest.new
        ≤ vec_len merged.old + deque_len rest.old + 1 }
    ensures capacity { vec_capacity merged.old ≤ vec_capacity merged.new }
{
    let at = uri.as_str();
    move_below(merged, rest, at);
    skip_at(rest, at);
    if let Some(bytes) = left {
        let uri = Uri::new(uri);
        merged.push(Object { uri, bytes }).unwrap();
    }
}

// Moves all objects.
fn move_all(merged: &mut Vec<Object>, rest: VecDeque<Object>)
    requires room { vec_len merged.old + deque_len rest ≤ vec_capacity merged.old }
    ensures items { merged.new.items ≡ merged.old.items ++ rest.items }
{
    for object in rest {
        merged.push(object).unwrap();
    }
}

// Moves the objects below the URI.
fn move_below(merged: &mut Vec<Object>, rest: &mut VecDeque<Object>, uri: &str)
    requires behind { IsBehind merged.old.items uri.now }
    requires room { vec_len merged.old + deque_len rest.old ≤ vec_capacity merged.old }
    ensures items { merged.new.items ++ rest.new.items ≡ merged.old.items ++ rest.old.items }
    ensures behind { IsBehind merged.new.items uri.now }
    ensures rest { StartsFrom rest.new.items uri.now }
    ensures len { vec_len merged.new + deque_len rest.new ≡ vec_len merged.old + deque_len rest.old }
    ensures capacity { vec_capacity merged.old ≤ vec_capacity merged.new }
{
    while let Some(object) = pop_if(rest, uri, Ordering::Less) {
        merged.push(object).unwrap();
    }
}

// Leaves out the object at the URI, from which the rest goes on.
fn skip_at(rest: &mut VecDeque<Object>, uri: &str)
    requires ascending { IsAscending rest.old.items }
    requires starts { StartsFrom rest.old.items uri.now }
    ensures skipped { IsSkipped rest.old.items uri.now rest.new.items }
    ensures len { deque_len rest.new ≤ deque_len rest.old }
{
    pop_if(rest, uri, Ordering::Equal);
}

// Takes the first object if its URI compares so to another.
fn pop_if(rest: &mut VecDeque<Object>, uri: &str, order: Ordering) -> Option<Object>
    ensures { PopsIf rest.old.items uri.now order result rest.new.items }
{
    if compare(rest.front()?, uri) == order {
        rest.pop_front()
    } else {
        None
    }
}
