//! The text of a moment (RFC 5280 section 4.1.2.5).

ghost use Rattle.std.specs.Prelude.{◌≡◌, ◌+◌, ◌/◌, ◌%◌, ◌<◌, ◌≤◌, ◌↔◌, Bool, true, false, take, drop, [], ◌∷◌, IsTrue, if◌then◌else◌};
ghost use Rattle.moments.specs.Civil.{IsCivil, IsMoment};
ghost use Rattle.moments.specs.Days.{civil_of};
ghost use Rattle.moments.specs.Text.{is_general, time_text};

use crate::civil::Civil;
use crate::text::TimeText;
use jiff_core::civil::Date;

/// 2050-01-01T00:00:00Z.
const FROM_2050: u64 = 2_524_608_000;

const DAY: u64 = 86_400;

/// 2000-01-01T00:00:00Z.
const FIRST_MOMENT: u64 = 946_684_800;

/// 9999-12-31T23:59:59Z.
const LAST_MOMENT: u64 = 253_402_300_799;

/// Whether a time, in seconds since 1970, has a spelling here: it lies in the years 2000 to 9999.
pub fn is_moment(seconds: u64) -> bool
    ensures { IsTrue result ↔ IsMoment seconds }
{
    seconds >= FIRST_MOMENT && seconds <= LAST_MOMENT
}

/// What the calendar and the clock show at a moment.
fn civil_of(seconds: u64) -> Civil
    requires { IsMoment seconds }
    ensures is { result ≡ civil_of seconds }
    ensures civil { IsCivil result }
{
    let date = Date::from_unix_epoch_day((seconds / DAY) as i64).unwrap();
    let clock = seconds % DAY;
    Civil {
        year: date.year as u16,
        month: date.month,
        day: date.day,
        hour: (clock / 3600) as u8,
        minute: (clock / 60 % 60) as u8,
        second: (clock % 60) as u8,
    }
}

/// The first of two digits.
fn tens(n: u8) -> u8
    requires { n < 100 }
    ensures { result ≡ 48 + n / 10 }
{
    b'0' + n / 10
}

/// The second of two digits.
fn ones(n: u8) -> u8
    ensures { result ≡ 48 + n % 10 }
{
    b'0' + n % 10
}

#[tactic(auto, unfolding(crate::specs::Text::time_text, crate::specs::Text::civil_text, crate::specs::Text::after_year))]
fn general_text(seconds: u64) -> TimeText
    requires { IsMoment seconds }
    ensures general { result.general ≡ true }
    ensures text { take result.len result.bytes ≡ time_text true seconds }
{
    let c = civil_of(seconds);
    let century = (c.year / 100) as u8;
    let year = (c.year % 100) as u8;
    TimeText {
        general: true,
        bytes: [
            tens(century),
            ones(century),
            tens(year),
            ones(year),
            tens(c.month),
            ones(c.month),
            tens(c.day),
            ones(c.day),
            tens(c.hour),
            ones(c.hour),
            tens(c.minute),
            ones(c.minute),
            tens(c.second),
            ones(c.second),
            b'Z',
        ],
        len: 15,
    }
}

#[tactic(auto, unfolding(crate::specs::Text::time_text, crate::specs::Text::civil_text, crate::specs::Text::after_year))]
fn utc_text(seconds: u64) -> TimeText
    requires { IsMoment seconds }
    ensures general { result.general ≡ false }
    ensures text { take result.len result.bytes ≡ time_text false seconds }
    ensures rest { drop result.len result.bytes ≡ 0 ∷ 0 ∷ [] }
{
    let c = civil_of(seconds);
    let year = (c.year % 100) as u8;
    TimeText {
        general: false,
        bytes: [
            tens(year),
            ones(year),
            tens(c.month),
            ones(c.month),
            tens(c.day),
            ones(c.day),
            tens(c.hour),
            ones(c.hour),
            tens(c.minute),
            ones(c.minute),
            tens(c.second),
            ones(c.second),
            b'Z',
            0,
            0,
        ],
        len: 13,
    }
}

/// The time of a certificate or a CRL: UTCTime through 2049, and GeneralizedTime later (RFC 5280
/// section 4.1.2.5). The moment is in seconds since 1970.
pub fn cert_time(seconds: u64) -> TimeText
    requires { IsMoment seconds }
    ensures general { result.general ≡ is_general seconds }
    ensures text { take result.len result.bytes ≡ time_text result.general seconds }
    ensures rest { drop result.len result.bytes ≡ (if result.general then [] else 0 ∷ 0 ∷ []) }
{
    if seconds < FROM_2050 {
        utc_text(seconds)
    } else {
        general_text(seconds)
    }
}

/// The moment, in seconds since 1970, as a GeneralizedTime (RFC 5280 section 4.1.2.5.2).
pub fn general(seconds: u64) -> TimeText
    requires { IsMoment seconds }
    ensures general { IsTrue result.general }
    ensures text { take result.len result.bytes ≡ time_text true seconds }
{
    general_text(seconds)
}
