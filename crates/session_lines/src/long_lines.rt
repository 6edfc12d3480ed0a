//! Lines whose answers take long.
ghost use Rattle.std.specs.Prelude.{◌↔◌, ◌⊎◌, IsTrue, codes};
ghost use Rattle.session_lines.specs.LongLines.{HasWord, IsLong, IsLongAlone};

// How long a line is at most that is looked at: what takes long has few other members.
const LONGEST_TO_LOOK_AT: usize = 96;

// The same in a run of one session: a publication has no other member.
const LONGEST_PUBLICATION: usize = 32;

/// Whether a short line has the word of a publication, which makes many signatures, or of looks at the board, which
/// may be many. One that says it with escapes or among many blanks is missed, and another line may have it.
pub(crate) fn takes_long(line: &[u8]) -> bool
    ensures { IsTrue result ↔ IsLong line.now }
{
    line.len() <= LONGEST_TO_LOOK_AT && has_word_of_long(line)
}

/// The same in a run of one session, where `await` looks once, at the last edition: a publication alone takes long.
pub fn takes_long_alone(line: &[u8]) -> bool
    ensures { IsTrue result ↔ IsLongAlone line.now }
{
    line.len() <= LONGEST_PUBLICATION && has(line, b"\"publish\"")
}

fn has_word_of_long(line: &[u8]) -> bool
    ensures { IsTrue result ↔ (HasWord line.now (codes "\"publish\"") ⊎ HasWord line.now (codes "\"await\"")) }
{
    has(line, b"\"publish\"") || has(line, b"\"await\"")
}

// Whether the word stands somewhere in the line.
fn has(line: &[u8], word: &[u8]) -> bool
    ensures { IsTrue result ↔ HasWord line.now word.now }
{
    for at in 0..line.len() {
        if line[at..].starts_with(word) {
            return true;
        }
    }
    false
}
