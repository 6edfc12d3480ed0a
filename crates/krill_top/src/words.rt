//! The words of a command line.

ghost use Rattle.std.specs.Prelude.{◌≡◌, ◌≤◌, IfSome};
ghost use Rattle.std.specs.Option.{option_map};
ghost use Rattle.krill_top.specs.Words as spec;
ghost use Rattle.krill_top.specs.Words.{asked_of, texts};
ghost use Rattle.krill_top.specs.inner.Asking.{asked_value, said_value};

/// How many authorities a workload has at most.
const MOST_AUTHORITIES: u8 = 63;

/// What a run does.
#[derive(Clone, Copy, Debug, PartialEq, Eq)]
pub enum Doing {
    /// It serves the sessions.
    Run,
    /// It tells what an audit found of the last edition.
    Audit,
    /// It gives the commands of a tree of so many authorities, and publishes them.
    Workload { authorities: u8 },
}

/// What the words ask for, with the values of the options that stand there.
#[derive(Clone, Copy, Debug)]
pub struct Asked<'w> {
    pub doing: Doing,
    pub rsync: Option<&'w str>,
    pub rrdp: Option<&'w str>,
}

/// The command that the first word names.
#[derive(Clone, Copy, Debug)]
pub(crate) enum Named {
    Run,
    Audit,
    Workload,
}

/// A command, with the values of the options that stand behind it.
#[derive(Clone, Copy, Debug)]
pub(crate) struct Said<'w> {
    pub(crate) named: Named,
    pub(crate) number: Option<&'w str>,
    pub(crate) rsync: Option<&'w str>,
    pub(crate) rrdp: Option<&'w str>,
}

/// Reads the words behind the program's name, if they are those of a run: a command, `run`, `audit` or
/// `workload`, and behind it the options `--rsync` and `--rrdp` in any order, each at most once, as two words
/// or as one with a `=`; among them, with `workload` alone, `--number` with a number from 1 to 63. A value isn't
/// empty and doesn't begin with `-`.
pub fn read_words(words: &[String]) -> Option<Asked<'_>>
    ensures { option_map asked_value result ≡ asked_of words.now }
{
    let [command, options @ ..] = words else {
        return None;
    };
    let said = Said {
        named: named_by(command.as_str())?,
        number: None,
        rsync: None,
        rrdp: None,
    };
    asked_by(with_options(said, options)?)
}

fn named_by(command: &str) -> Option<Named>
    ensures { result ≡ spec.named_by command.now }
{
    match command {
        "run" => Some(Named::Run),
        "audit" => Some(Named::Audit),
        "workload" => Some(Named::Workload),
        _ => None,
    }
}

// What is asked for, if the command has the options that it needs and no other.
fn asked_by(said: Said<'_>) -> Option<Asked<'_>>
    ensures { option_map asked_value result ≡ spec.asked_for (said_value said.entry) }
{
    Some(Asked {
        doing: doing_of(said)?,
        rsync: said.rsync,
        rrdp: said.rrdp,
    })
}

fn doing_of(said: Said<'_>) -> Option<Doing>
    ensures { result ≡ spec.doing_of (said_value said.entry) }
{
    match said.number {
        None => match said.named {
            Named::Run => Some(Doing::Run),
            Named::Audit => Some(Doing::Audit),
            Named::Workload => None,
        },
        Some(number) => match said.named {
            Named::Run | Named::Audit => None,
            Named::Workload => workload_of(number),
        },
    }
}

fn workload_of(number: &str) -> Option<Doing>
    ensures { result ≡ spec.workload_of number.now }
{
    match number_of(number.as_bytes()) {
        Some(authorities) => Some(Doing::Workload { authorities }),
        None => None,
    }
}

// The number from 1 to 63 of one or two decimal digits, the first of which isn't 0.
fn number_of(text: &[u8]) -> Option<u8>
    ensures { result ≡ spec.number_of text.now }
{
    match text {
        [units] => in_range(digit_of(*units)?),
        [tens, units] => {
            let tens = digit_of(*tens)?;
            if tens == 0 {
                return None;
            }
            in_range(tens * 10 + digit_of(*units)?)
        }
        _ => None,
    }
}

fn digit_of(byte: u8) -> Option<u8>
    ensures digit { result ≡ spec.digit_of byte }
    ensures small { IfSome result (λ digit. digit ≤ 9) }
{
    if byte < b'0' || byte > b'9' {
        return None;
    }
    Some(byte - b'0')
}

fn in_range(number: u8) -> Option<u8>
    ensures { result ≡ spec.in_range number }
{
    if number < 1 || number > MOST_AUTHORITIES {
        return None;
    }
    Some(number)
}

// The words behind the command. No option stands twice, so it calls itself three times at most.
fn with_options<'w>(said: Said<'w>, words: &'w [String]) -> Option<Said<'w>>
    ensures { option_map said_value result ≡ spec.with_options (said_value said.entry) (texts words.now) }
{
    match words {
        [] => Some(said),
        [word] => with_joined(said, word.as_str()),
        [word, next, rest @ ..] => {
            if is_option(word.as_str()) {
                with_options(with_next(said, word.as_str(), next.as_str())?, rest)
            } else {
                with_options(with_joined(said, word.as_str())?, &words[1..])
            }
        }
    }
}

fn is_option(word: &str) -> bool
    ensures { result ≡ spec.is_option word.now }
{
    word == "--number" || word == "--rsync" || word == "--rrdp"
}

// An option whose value is the next word.
fn with_next<'w>(said: Said<'w>, word: &str, value: &'w str) -> Option<Said<'w>>
    ensures { option_map said_value result ≡ spec.with_next (said_value said.entry) word.now value.now }
{
    match word {
        "--number" => with_number(said, value),
        "--rsync" => with_rsync(said, value),
        "--rrdp" => with_rrdp(said, value),
        _ => None,
    }
}

// An option in one word with its value.
fn with_joined<'w>(said: Said<'w>, word: &'w str) -> Option<Said<'w>>
    ensures { option_map said_value result ≡ spec.with_joined (said_value said.entry) word.now }
{
    if let Some(value) = word.strip_prefix("--number=") {
        return with_number(said, value);
    }
    if let Some(value) = word.strip_prefix("--rsync=") {
        return with_rsync(said, value);
    }
    if let Some(value) = word.strip_prefix("--rrdp=") {
        return with_rrdp(said, value);
    }
    None
}

// The value for an option that has none yet.
fn with_number<'w>(said: Said<'w>, value: &'w str) -> Option<Said<'w>>
    ensures { option_map said_value result ≡ spec.with_number (said_value said.entry) value.now }
{
    if !is_value(value) || said.number.is_some() {
        return None;
    }
    Some(Said {
        named: said.named,
        number: Some(value),
        rsync: said.rsync,
        rrdp: said.rrdp,
    })
}

fn with_rsync<'w>(said: Said<'w>, value: &'w str) -> Option<Said<'w>>
    ensures { option_map said_value result ≡ spec.with_rsync (said_value said.entry) value.now }
{
    if !is_value(value) || said.rsync.is_some() {
        return None;
    }
    Some(Said {
        named: said.named,
        number: said.number,
        rsync: Some(value),
        rrdp: said.rrdp,
    })
}

fn with_rrdp<'w>(said: Said<'w>, value: &'w str) -> Option<Said<'w>>
    ensures { option_map said_value result ≡ spec.with_rrdp (said_value said.entry) value.now }
{
    if !is_value(value) || said.rrdp.is_some() {
        return None;
    }
    Some(Said {
        named: said.named,
        number: said.number,
        rsync: said.rsync,
        rrdp: Some(value),
    })
}

fn is_value(text: &str) -> bool
    ensures { result ≡ spec.is_value text.now }
{
    match text.as_bytes() {
        [] => false,
        [first, ..] => *first != b'-',
    }
}
