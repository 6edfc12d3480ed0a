//! What stands at a URI.

ghost use Rattle.std.specs.Prelude.{◌≡◌, length};
ghost use Rattle.std.specs.List.Sorted.{IsBinarySearchResult, IsSearchInRange};
ghost use Rattle.pub_set.specs.Objects.{uri_cmp, Rise};
ghost use Rattle.issue_make.specs.inner.Putting.{hash_in};

use key_roll::IssuedRow;
use pub_set::Uri;
use std::cmp::Ordering;

/// How two URIs compare, byte by byte.
pub fn compare(a: &Uri, b: &Uri) -> Ordering
    ensures { result ≡ uri_cmp a.now b.now }
{
    a.as_str().cmp(b.as_str())
}

/// Where a URI stands among rows, or else where it would stand.
fn position_of(issued: &[IssuedRow], uri: &Uri) -> Result<usize, usize>
    ensures bound { IsSearchInRange result (length issued.now) }
    ensures found { IsBinarySearchResult (λ row. uri_cmp row.uri uri.now) issued.now result }
{
    issued.binary_search_by(|row| compare(&row.uri, uri))
}

/// The hash of what stands at a URI.
pub fn hash_at(issued: &[IssuedRow], uri: &Uri) -> Option<[u8; 32]>
    requires { Rise (λ row. row.uri) issued.now }
    ensures { result ≡ hash_in issued.now uri.now }
{
    match position_of(issued, uri) {
        Ok(position) => Some(issued[position].hash),
        Err(_) => None,
    }
}
