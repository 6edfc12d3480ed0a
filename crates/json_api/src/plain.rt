//! A line's tokens, taken from the line itself, where each text stands as it is (RFC 8259 sections 2 and 7).

ghost use Rattle.std.specs.Prelude.{◌≡◌, ◌≤◌, [], ◌∷◌, true, not, length, IfSome, IsTrue};
ghost use Rattle.std.specs.Bool.{OnTrue, OnFalse};
ghost use Rattle.std.specs.List.{position, AllPass};
ghost use Rattle.json.specs.Token.{begin_object, end_object, begin_array, end_array, key, string as string_token};
ghost use Rattle.json.specs.Lex.{lex, between, tokens};
ghost use Rattle.json_api.specs.inner.Plain.{IsTextAt, EndsValue, is_plain, is_blank, left_at, begins_at, closes_at};

use std::marker::Model;
use std::str;

/// What stands before the next token.
#[derive(Clone, Copy, Debug, PartialEq, Eq)]
pub(crate) enum Place {
    /// Nothing, an opening bracket or a colon.
    Fresh,
    AfterValue,
    AfterComma,
}

impl Place {
    fn may_begin(self) -> bool
        ensures { result ≡ begins_at self }
    {
        !matches!(self, Place::AfterValue)
    }

    fn may_close(self) -> bool
        ensures { result ≡ closes_at self }
    {
        !matches!(self, Place::AfterComma)
    }
}

/// Reads tokens one after another. A clause sees those that are still to come.
///
/// What it doesn't read may be JSON all the same: texts with escapes or beyond ASCII, numbers and words.
#[derive(Drop)]
pub(crate) struct PlainReader<'a> {
    left: &'a [u8],
    place: Place,
}

impl<'a> Model for PlainReader<'a> {
    ghost use Rattle.std.specs.Prelude.{List};
    ghost use Rattle.json.specs.Token.{Token};
    ghost use Rattle.json_api.specs.inner.Plain.{left_at};

    ghost Value = { List Token };

    ghost view = { λ r. left_at r.place r.left.now };
}

// Whether each byte stands for itself in a text: those of ASCII that are printed, but for `"` and `\`.
static PLAIN: [bool; 256] = [
    false, false, false, false, false, false, false, false, false, false, false, false, false,
    false, false, false, false, false, false, false, false, false, false, false, false, false,
    false, false, false, false, false, false, true, true, false, true, true, true, true, true,
    true, true, true, true, true, true, true, true, true, true, true, true, true, true, true, true,
    true, true, true, true, true, true, true, true, true, true, true, true, true, true, true, true,
    true, true, true, true, true, true, true, true, true, true, true, true, true, true, true, true,
    true, true, true, true, false, true, true, true, true, true, true, true, true, true, true,
    true, true, true, true, true, true, true, true, true, true, true, true, true, true, true, true,
    true, true, true, true, true, true, true, true, false, false, false, false, false, false,
    false, false, false, false, false, false, false, false, false, false, false, false, false,
    false, false, false, false, false, false, false, false, false, false, false, false, false,
    false, false, false, false, false, false, false, false, false, false, false, false, false,
    false, false, false, false, false, false, false, false, false, false, false, false, false,
    false, false, false, false, false, false, false, false, false, false, false, false, false,
    false, false, false, false, false, false, false, false, false, false, false, false, false,
    false, false, false, false, false, false, false, false, false, false, false, false, false,
    false, false, false, false, false, false, false, false, false, false, false, false, false,
    false, false, false, false, false, false, false, false, false, false, false, false, false,
    false, false, false, false, false, false,
];

// A byte that stands for itself in a text, of ASCII.
fn is_plain(byte: u8) -> bool
    ensures { result ≡ is_plain byte }
{
    PLAIN[byte as usize]
}

fn is_blank(byte: u8) -> bool
    ensures { result ≡ is_blank byte }
{
    // Most bytes are above a blank, and one comparison tells that.
    byte <= b' ' && matches!(byte, b' ' | b'\t' | b'\r' | b'\n')
}

// What comes behind that byte, where it comes first.
fn after(bytes: &[u8], byte: u8) -> Option<&[u8]>
    ensures { IfSome result (λ behind. bytes.now ≡ byte ∷ behind.now) }
{
    match bytes.split_first() {
        Some((first, behind)) if *first == byte => Some(behind),
        _ => None,
    }
}

// What comes behind blanks.
#[tactic(auto, using(crate::proofs::Taken::blank_skipped))]
fn skip_blanks(bytes: &[u8]) -> &[u8]
    ensures { lex between result.now ≡ lex between bytes.now }
{
    let mut left = bytes;
    'blanks: while let Some((first, behind)) = left.split_first() {
        if !is_blank(*first) {
            break;
        }
        left = behind;
    }
    left
}

// How many bytes stand before the first that doesn't stand for itself in a text.
fn plain_len(bytes: &[u8]) -> Option<usize>
    ensures { result ≡ position (λ b. not (is_plain b)) bytes.now }
{
    bytes.iter().position(|byte| !is_plain(*byte))
}

// The text of these bytes.
#[tactic(auto, using(crate::proofs::Taken::utf8_plain))]
fn text_of(bytes: &[u8]) -> &str
    requires { AllPass is_plain bytes.now }
    ensures { result.now ≡ bytes.now }
{
    // They are ASCII.
    unsafe { str::from_utf8_unchecked(bytes) }
}

// The text that stands here between quotation marks as it is, and what comes behind it.
#[tactic(auto, using(crate::proofs::Taken::front_plain, crate::proofs::Taken::text_taken))]
fn text_at(left: &[u8]) -> Option<(&str, &[u8])>
    ensures { IfSome result (λ found. IsTextAt left.now found.0.now found.1.now) }
{
    let rest = after(left, b'"')?;
    let len = plain_len(rest)?;
    let behind = after(&rest[len..], b'"')?;
    Some((text_of(&rest[..len]), behind))
}

// What comes behind the bracket, where it comes first and may open something.
fn opened(left: &[u8], place: Place, bracket: u8) -> Option<&[u8]>
    ensures place { IfSome result (λ _. begins_at place ≡ true) }
    ensures behind { IfSome result (λ behind. left.now ≡ bracket ∷ behind.now) }
{
    if place.may_begin() {
        after(left, bracket)
    } else {
        None
    }
}

// What comes behind the bracket, where it comes first and may close something.
fn closed(left: &[u8], place: Place, bracket: u8) -> Option<&[u8]>
    ensures place { IfSome result (λ _. closes_at place ≡ true) }
    ensures behind { IfSome result (λ behind. left.now ≡ bracket ∷ behind.now) }
{
    if place.may_close() {
        after(left, bracket)
    } else {
        None
    }
}

// Whether a comma or a closing bracket comes, so that a text before it is no key.
fn ends_value(behind: &[u8]) -> bool
    ensures { IsTrue result → EndsValue behind.now }
{
    matches!(behind, [b',' | b']' | b'}', ..])
}

impl<'a> PlainReader<'a> {
    /// The tokens of the text.
    #[tactic(auto, using(crate::proofs::Taken::same_left))]
    pub(crate) fn new(text: &'a str) -> PlainReader<'a>
        ensures { result ≡ tokens text.now }
    {
        PlainReader {
            left: skip_blanks(text.as_bytes()),
            place: Place::Fresh,
        }
    }

    // Goes on behind a value, where a comma may stand.
    #[tactic(auto, using(crate::proofs::Taken::comma_taken, crate::proofs::Taken::same_left))]
    fn pass_value(&mut self, behind: &'a [u8])
        ensures { self.new ≡ left_at Place.AfterValue behind.now }
    {
        let left = skip_blanks(behind);
        match after(left, b',') {
            Some(rest) => {
                self.left = skip_blanks(rest);
                self.place = Place::AfterComma;
            }
            None => {
                self.left = left;
                self.place = Place::AfterValue;
            }
        }
    }

    // Goes on where a value or a closing bracket may stand.
    #[tactic(auto, using(crate::proofs::Taken::same_left))]
    fn begin_anew(&mut self, behind: &'a [u8])
        ensures { self.new ≡ left_at Place.Fresh behind.now }
    {
        self.left = skip_blanks(behind);
        self.place = Place::Fresh;
    }

    /// Takes the next text, where a value may stand and one does.
    #[tactic(auto, using(crate::proofs::Taken::text_first, crate::proofs::Taken::fewer_left))]
    pub(crate) fn next_text(&mut self) -> Option<&'a str>
        ensures good { IfSome result (λ text. self.old ≡ string_token text.now ∷ self.new) }
        ensures shorter { length self.new ≤ length self.old }
    {
        if !self.place.may_begin() {
            return None;
        }
        let (text, behind) = text_at(self.left)?;
        let left = skip_blanks(behind);
        if !ends_value(left) {
            return None;
        }
        self.pass_value(left);
        Some(text)
    }

    /// Takes the next key and its colon, where a key may stand and one does.
    #[tactic(auto, using(crate::proofs::Taken::key_first, crate::proofs::Taken::fewer_left))]
    pub(crate) fn next_key(&mut self) -> Option<&'a str>
        ensures good { IfSome result (λ name. self.old ≡ key name.now ∷ self.new) }
        ensures shorter { length self.new ≤ length self.old }
    {
        if !self.place.may_begin() {
            return None;
        }
        let (name, behind) = text_at(self.left)?;
        let left = after(skip_blanks(behind), b':')?;
        self.begin_anew(left);
        Some(name)
    }

    /// Takes the brace that opens an object, and says whether it was next.
    #[tactic(auto, using(crate::proofs::Taken::object_begins))]
    pub(crate) fn begins_object(&mut self) -> bool
        ensures taken { OnTrue result (self.old ≡ begin_object ∷ self.new) }
        ensures left { OnFalse result (self.new ≡ self.old) }
    {
        let Some(behind) = opened(self.left, self.place, b'{') else {
            return false;
        };
        self.begin_anew(behind);
        true
    }

    /// Takes the brace that closes an object, and says whether it was next.
    #[tactic(auto, using(crate::proofs::Taken::object_ends))]
    pub(crate) fn ends_object(&mut self) -> bool
        ensures taken { OnTrue result (self.old ≡ end_object ∷ self.new) }
        ensures left { OnFalse result (self.new ≡ self.old) }
    {
        let Some(behind) = closed(self.left, self.place, b'}') else {
            return false;
        };
        self.pass_value(behind);
        true
    }

    /// Takes the bracket that opens a list, and says whether it was next.
    #[tactic(auto, using(crate::proofs::Taken::list_begins))]
    pub(crate) fn begins_list(&mut self) -> bool
        ensures taken { OnTrue result (self.old ≡ begin_array ∷ self.new) }
        ensures left { OnFalse result (self.new ≡ self.old) }
    {
        let Some(behind) = opened(self.left, self.place, b'[') else {
            return false;
        };
        self.begin_anew(behind);
        true
    }

    /// Takes the bracket that closes a list, and says whether it was next.
    #[tactic(auto, using(crate::proofs::Taken::list_ends))]
    pub(crate) fn ends_list(&mut self) -> bool
        ensures taken { OnTrue result (self.old ≡ end_array ∷ self.new) }
        ensures left { OnFalse result (self.new ≡ self.old) }
    {
        let Some(behind) = closed(self.left, self.place, b']') else {
            return false;
        };
        self.pass_value(behind);
        true
    }

    /// Whether a value has ended and nothing comes behind it.
    #[tactic(auto, using(crate::proofs::Taken::over))]
    pub(crate) fn is_over(&self) -> bool
        ensures { IsTrue result → self.now ≡ [] }
    {
        self.left.is_empty() && self.place.may_close()
    }
}
