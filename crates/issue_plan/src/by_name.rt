//! Whether ROAs stand at places of names (RFC 6481 section 2.2).

ghost use Rattle.std.specs.Prelude.{◌≡◌, true, IfOk};
ghost use Rattle.origins.specs.declared.Origin.{Origin};
ghost use Rattle.key_roll.specs.declared.issued.What.TheVariants.{Route};
ghost use Rattle.issue_plan.specs.ByName.{IsRoaUri, StandByName};

use crate::spellings::is_roa_in;
use key_ids::Site;
use key_roll::{IssuedRow, What};
use names::Name;
use origins::Origin;
use pub_set::Uri;
use std::alloc::{AllocError, Global};

// The name whose folder the URI is likely to be in: what stands before the first slash behind the base.
fn guessed_name(site: &Site, uri: &str) -> Option<Name> {
    let path = uri.as_bytes().strip_prefix(site.rsync().as_bytes())?;
    let end = path.iter().position(|byte| *byte == b'/')?;
    Name::of_bytes(path.get(..end)?)
}

// Whether the URI is that of the origin's ROA in the folder of a name.
fn is_roa_uri(alloc: Global, site: &Site, origin: &Origin, uri: &Uri) -> Result<bool, AllocError>
    ensures { IfOk result (λ is. is ≡ true → IsRoaUri site.now origin.now uri.now) }
{
    let Some(name) = guessed_name(site, uri.as_str()) else {
        return Ok(false);
    };
    let _named = name.as_bytes();
    let folder = site.folder(alloc, name.as_str())?;
    is_roa_in(alloc, folder.as_str(), origin, uri.as_str())
}

// Whether the object is no ROA, or stands at such a URI.
fn stands_by_name(alloc: Global, site: &Site, row: &IssuedRow) -> Result<bool, AllocError>
    ensures { IfOk result (λ stands. stands ≡ true
        → (origin : Origin) → row.now.what ≡ Route origin → IsRoaUri site.now origin row.now.uri) }
{
    match &row.what {
        What::Route { origin } => is_roa_uri(alloc, site, origin, &row.uri),
        What::Authority { .. } | What::Point => Ok(true),
    }
}

/// Whether it is found of each ROA that it stands at the place of its origin in the folder of some name, as `plan` asks
/// where it is told so.
pub fn stand_by_name(alloc: Global, site: &Site, issued: &[IssuedRow]) -> Result<bool, AllocError>
    ensures { IfOk result (λ stand. stand ≡ true → StandByName site.now issued.now) }
{
    for row in issued {
        if !stands_by_name(alloc, site, row)? {
            return Ok(false);
        }
    }
    Ok(true)
}
