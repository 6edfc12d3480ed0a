// The front of a text, and what follows it.
ghost use Rattle.std.specs.Prelude.{◌≡◌, ◌≢◌, ◌++◌, ℕ, List, take, drop, MatchOption};
ghost use Rattle.std.specs.List.{prefix_len};
ghost use Rattle.origins.specs.inner.Fronts.{is_blank, is_none_of};

// The text from its first byte that is neither space nor tab.
pub(crate) fn skip_blanks(text: &[u8]) -> &[u8]
    ensures { result.now ≡ drop (prefix_len is_blank text.now) text.now }
{
    let blanks = text
        .iter()
        .take_while(|byte| **byte == b' ' || **byte == b'\t')
        .count();
    &text[blanks..]
}

// The text before the first of these bytes, and the text from there.
pub(crate) fn split_before<'a>(text: &'a [u8], stops: &[u8]) -> (&'a [u8], &'a [u8])
    ensures front { result.0.now ≡ take (prefix_len (is_none_of stops.now) text.now) text.now }
    ensures back { result.1.now ≡ drop (prefix_len (is_none_of stops.now) text.now) text.now }
{
    let front = text.iter().take_while(|byte| !stops.contains(byte)).count();
    text.split_at(front)
}

// What follows the mark at the front.
pub(crate) fn after<'a>(text: &'a [u8], mark: &[u8]) -> Option<&'a [u8]>
    ensures { MatchOption result
        ((rest : List ℕ) → text.now ≢ mark.now ++ rest)
        (λ rest. text.now ≡ mark.now ++ rest.now) }
{
    text.strip_prefix(mark)
}
