//! The identifiers of the kinds of content (RFC 6488 section 2.1.3.1).

ghost use Rattle.std.specs.Prelude.{◌≡◌};
ghost use Rattle.cms_obj.specs.Formats.{kind_identifier, kind_in};

use crate::values::ObjectKind;
use der::are_same;
use object_parts::identifiers::{MANIFEST_CONTENT, ROA_CONTENT};

impl ObjectKind {
    /// The identifier of the kind.
    pub(crate) fn identifier(self) -> [u8; 11]
        ensures { result ≡ kind_identifier self }
    {
        match self {
            ObjectKind::Manifest => MANIFEST_CONTENT,
            ObjectKind::Roa => ROA_CONTENT,
        }
    }
}

/// The kind that has that identifier.
pub fn kind_in(bytes: &[u8]) -> Option<ObjectKind>
    ensures { result ≡ kind_in bytes.now }
{
    if are_same(bytes, &MANIFEST_CONTENT) {
        Some(ObjectKind::Manifest)
    } else if are_same(bytes, &ROA_CONTENT) {
        Some(ObjectKind::Roa)
    } else {
        None
    }
}
