//! The element that is all the bytes (X.690 section 8.1).

ghost use Rattle.std.specs.Prelude.{◌≡◌};
ghost use Rattle.std.specs.Option.{option_map};
ghost use Rattle.der.specs.Part.{place};
ghost use Rattle.res_ext.specs.Answers.{content_in};

use der::Part;
use der::tags::SEQUENCE;

/// The content of the SEQUENCE that is all the bytes.
pub fn content_of(bytes: &[u8]) -> Option<Part<'_>>
    ensures { option_map place result ≡ content_in bytes.now }
{
    let Ok((content, rest)) = der::content_of(0, SEQUENCE, bytes) else {
        return None;
    };
    if !rest.is_empty() {
        return None;
    }
    Part::whole(content)
}
