// The paths of published files.
ghost use Rattle.std.specs.Prelude.{◌≡◌};
ghost use Rattle.outlet_api.specs.Paths as rule;

/// Whether this is the path of a file below a folder: parts with slashes between them, each of letters,
/// digits, `-`, `_` and `.`, and none that is empty or begins with a dot. So no path leads out of the
/// folder.
pub fn is_file_path(path: &str) -> bool
    ensures { result ≡ rule.is_file_path path.now }
{
    let bytes = path.as_bytes();
    let mut at_start = true;
    for &byte in bytes {
        if !may_stand(at_start, byte) {
            return false;
        }
        at_start = byte == b'/';
    }
    !at_start
}

fn may_stand(at_start: bool, byte: u8) -> bool
    ensures { result ≡ rule.may_stand at_start byte }
{
    if at_start {
        is_name_byte(byte) && byte != b'.'
    } else {
        is_name_byte(byte) || byte == b'/'
    }
}

fn is_name_byte(byte: u8) -> bool
    ensures { result ≡ rule.is_name_byte byte }
{
    matches!(byte, b'a'..=b'z' | b'A'..=b'Z' | b'0'..=b'9' | b'-' | b'_' | b'.')
}
