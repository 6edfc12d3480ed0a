//! Sets of objects by URI. A query of changes is RFC 8181's (section 2.2).

ghost use Rattle.std.specs.Prelude.{◌≡◌, ◌↔◌, ◌++◌, ◌∷◌, [], length, option_copied, None, IsTrue, IfOk, IfErr, OnOk, OnErr};
ghost use Rattle.pub_set.specs.Objects.{content_at, uri_cmp, IsAscending, IsBehind, IsPlace};
ghost use Rattle.pub_set.specs.Changes.{IsApplied};
ghost use Rattle.pub_set.specs.Queries.{first_refusal, IsRefusal};

use crate::merging::carry_out;
use crate::overlays::{overlay_of, overlay_query};
use crate::parts::{Content, Uri};
use crate::refusals::QueryRefused;
use crate::steps::Change;
use std::alloc::{AllocError, Global};
use std::cmp::Ordering;
use std::marker::Model;

/// An object and the URI at which it is published.
#[derive(Debug, Drop)]
pub struct Object {
    pub uri: Uri,
    pub bytes: Content,
}

impl Object {
    /// The same object. Its bytes are shared.
    pub fn copy(&self, alloc: Global) -> Result<Object, AllocError>
        ensures { IfOk result (λ copy. copy ≡ self.now) }
    {
        Ok(Object {
            uri: self.uri.copy(alloc)?,
            bytes: self.bytes.share()?,
        })
    }
}

/// Objects by URI, at most one at each.
///
/// A clause sees the list of the objects by rising URI, which are compared byte by byte.
#[derive(Debug, Drop)]
pub struct ObjectSet {
    objects: Vec<Object>,
}

impl Model for ObjectSet {
    ghost use Rattle.std.specs.Prelude.{List};
    ghost use Rattle.pub_set.specs.declared.objects.Object.{Object};

    ghost Value = { List Object };

    ghost use Rattle.pub_set.specs.Objects.{IsAscending};

    ghost view = { λ set. set.objects.items };

    ghost invariant = { λ set. IsAscending set.objects.items };
}

impl ObjectSet {
    /// The set without an object. Takes no memory.
    pub fn new(alloc: Global) -> ObjectSet
        ensures { result ≡ [] }
    {
        ObjectSet {
            objects: Vec::new(alloc),
        }
    }

    /// How many objects the set has.
    pub fn len(&self) -> usize
        ensures { result ≡ length self.now }
    {
        self.objects.len()
    }

    /// Whether the set has no object.
    pub fn is_empty(&self) -> bool
        ensures { IsTrue result ↔ (self.now ≡ []) }
    {
        self.objects.is_empty()
    }

    /// The objects by rising URI.
    pub fn as_slice(&self) -> &[Object]
        ensures objects { result.now ≡ self.now }
        ensures ascending { IsAscending self.now }
    {
        self.objects.as_slice()
    }

    /// The bytes at the URI, found in logarithmic time.
    pub fn get(&self, uri: &str) -> Option<&[u8]>
        ensures { option_copied result ≡ content_at self.now uri.now }
    {
        content_of(&self.objects, uri)
    }

    /// Whether the URI comes after those of all objects, so that an object can be pushed there.
    pub fn is_behind(&self, uri: &str) -> bool
        ensures { IsTrue result ↔ IsBehind self.now uri.now }
    {
        match self.objects.last() {
            Some(object) => object.uri.as_str() < uri,
            None => true,
        }
    }

    /// Puts an object behind all others.
    pub fn push(&mut self, object: Object) -> Result<(), AllocError>
        requires { IsBehind self.old object.uri }
        ensures ok { OnOk result (self.new ≡ self.old ++ object ∷ []) }
        ensures err { OnErr result (self.new ≡ self.old) }
    {
        self.objects.push(object)?;
        Ok(())
    }

    /// Carries the changes out one after another, or none of them.
    ///
    /// The first change that is faulty after those before it refuses the query (RFC 8181, section
    /// 2.2): its URI has to begin with the base. A refusal has the code of section 2.5.
    pub fn query(
        &mut self,
        alloc: Global,
        base: &str,
        changes: Vec<Change>,
    ) -> Result<(), QueryRefused>
        ensures sound { OnOk result
            (first_refusal base.now (content_at self.old) changes.items ≡ None) }
        ensures applied { OnOk result (IsApplied self.old changes.items self.new) }
        ensures ascending { IsAscending self.new }
        ensures refused { IfErr result (IsRefusal base.now (content_at self.old) changes.items) }
        ensures kept { OnErr result (self.new ≡ self.old) }
    {
        let overlay = overlay_query(alloc, &self.objects, base, changes)?;
        carry_out(alloc, &mut self.objects, overlay)?;
        Ok(())
    }

    /// Makes of the set what the changes make of it, one after another, whatever stands at their URIs: nothing is
    /// hashed.
    pub fn apply(&mut self, alloc: Global, changes: Vec<Change>) -> Result<(), AllocError>
        ensures applied { OnOk result (IsApplied self.old changes.items self.new) }
        ensures kept { OnErr result (self.new ≡ self.old) }
    {
        let overlay = overlay_of(alloc, &self.objects, changes)?;
        carry_out(alloc, &mut self.objects, overlay)?;
        Ok(())
    }

    /// The same set, whose objects' bytes are shared.
    pub fn copy(&self, alloc: Global) -> Result<ObjectSet, AllocError>
        ensures { IfOk result (λ copy. copy ≡ self.now) }
    {
        Ok(ObjectSet {
            objects: copy_all(alloc, &self.objects)?,
        })
    }
}

// The objects once more.
fn copy_all(alloc: Global, objects: &[Object]) -> Result<Vec<Object>, AllocError>
    ensures { IfOk result (λ copies. copies.items ≡ objects.now) }
{
    let mut copies = Vec::with_capacity(alloc, objects.len())?;
    for object in objects {
        copies.push(object.copy(alloc)?)?;
    }
    Ok(copies)
}

/// The bytes at the URI, found in logarithmic time.
pub fn content_of<'a>(objects: &'a [Object], uri: &str) -> Option<&'a [u8]>
    requires { IsAscending objects.now }
    ensures { option_copied result ≡ content_at objects.now uri.now }
{
    match place_of(objects, uri) {
        Ok(place) => Some(objects[place].bytes.as_slice()),
        Err(_) => None,
    }
}

/// The place of the object at the URI, or the place where it would stand. Both are indexes in the
/// list.
pub fn place_of(objects: &[Object], uri: &str) -> Result<usize, usize>
    requires { IsAscending objects.now }
    ensures { IsPlace objects.now uri.now result }
{
    objects.binary_search_by(|object: &Object| compare(object, uri))
}

/// How the object's URI compares to another.
pub fn compare(object: &Object, uri: &str) -> Ordering
    ensures { result ≡ uri_cmp object.now.uri uri.now }
{
    object.uri.as_str().cmp(uri)
}
