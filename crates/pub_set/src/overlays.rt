//! What a query comes to at each URI that it changes (RFC 8181 section 2.2).

ghost use Rattle.std.specs.Prelude.{◌≡◌, None, option_copied, OnOk, IfOk, IfErr};
ghost use Rattle.pub_set.specs.Objects.{content_at, IsAscending};
ghost use Rattle.pub_set.specs.Changes.{after_all};
ghost use Rattle.pub_set.specs.Queries.{first_refusal, IsRefusal};
ghost use Rattle.pub_set.specs.inner.Overlays.{overlaid, Overlays, IsNoted};

use crate::objects::{Object, content_of};
use crate::parts::{Content, Uri};
use crate::refusals::{QueryRefused, refusal_code};
use crate::steps::Change;
use std::alloc::{AllocError, Global};
use std::collections::BTreeMap;

/// At each URI that is changed, what stands there in the end: bytes, or nothing.
pub type Overlay = BTreeMap<String, Option<Content>>;

/// The overlay of a query over these objects, or the refusal of its first faulty change.
pub fn overlay_query(
    alloc: Global,
    objects: &[Object],
    base: &str,
    changes: Vec<Change>,
) -> Result<Overlay, QueryRefused>
    requires { IsAscending objects.now }
    ensures sound { OnOk result
        (first_refusal base.now (content_at objects.now) changes.items ≡ None) }
    ensures overlay { IfOk result (Overlays (content_at objects.now) changes.items) }
    ensures refused { IfErr result (IsRefusal base.now (content_at objects.now) changes.items) }
{
    let mut overlay = BTreeMap::new(alloc);
    for change in changes {
        let held = overlaid_at(objects, &overlay, change.uri().as_str());
        if let Some(code) = refusal_code(base, &change, held) {
            let (uri, _) = change.into_end();
            return Err(QueryRefused::Query { code, uri });
        }
        let (uri, left) = change.into_end();
        note(&mut overlay, uri, left)?;
    }
    Ok(overlay)
}

/// The overlay of these changes over the objects, whatever stands at their URIs.
pub fn overlay_of(
    alloc: Global,
    objects: &[Object],
    changes: Vec<Change>,
) -> Result<Overlay, AllocError>
    ensures { IfOk result (Overlays (content_at objects.now) changes.items) }
{
    let mut overlay = BTreeMap::new(alloc);
    for change in changes {
        let (uri, left) = change.into_end();
        note(&mut overlay, uri, left)?;
    }
    Ok(overlay)
}

// Notes what stands at the URI in the end.
fn note(overlay: &mut Overlay, uri: Uri, left: Option<Content>) -> Result<(), AllocError>
    ensures { OnOk result (IsNoted overlay.old.entries uri left overlay.new.entries) }
{
    match overlay.insert(uri.into_string(), left) {
        Ok(_) => Ok(()),
        Err(_) => Err(AllocError),
    }
}

// What stands at the URI once the overlay is carried out.
fn overlaid_at<'a>(objects: &'a [Object], overlay: &'a Overlay, uri: &str) -> Option<&'a [u8]>
    requires { IsAscending objects.now }
    ensures { option_copied result ≡ overlaid (content_at objects.now) overlay.now.entries uri.now }
{
    match overlay.get(uri) {
        Some(Some(content)) => Some(content.as_slice()),
        Some(None) => None,
        None => content_of(objects, uri),
    }
}
