//! The moment of a text (RFC 5280 section 4.1.2.5).

ghost use Rattle.std.specs.Prelude.{◌≡◌, ◌+◌, ◌<◌, ◌≤◌, ◌↔◌, ℕ, false, pos, IfOk, Ok, Err, IsErrOf, IfSome, OnSome, IsNone, IsTrue};
ghost use Rattle.std.specs.Option.{option_map};
ghost use Rattle.std.specs.Result.{result_ok};
ghost use Rattle.moments.specs.declared.civil.Civil.{Civil};
ghost use Rattle.moments.specs.Civil.{IsCivil, IsAt, IsMoment, IsDateOf};
ghost use Rattle.moments.specs.Text.{civil_text, time_text, HasText};
ghost use Rattle.moments.specs.Reading.{moment_in, pair_at, is_z, after_year_at, utc_year, civil_at};

use crate::civil::Civil;
use crate::fault::TimeFault;
use jiff_core::civil::Date;

/// The number of the two digits at the front, and the bytes behind them.
#[tactic(auto, unfolding(crate::specs::Reading::pair_at))]
fn pair(bytes: &[u8]) -> Option<(u8, &[u8])>
    ensures { option_map (λ x. (x.0, x.1.now)) result ≡ pair_at bytes.now }
{
    match bytes {
        [a @ b'0'..=b'9', b @ b'0'..=b'9', rest @ ..] => {
            Some(((*a - b'0') * 10 + (*b - b'0'), rest))
        }
        _ => None,
    }
}

/// Whether the bytes are a Z.
fn is_z(bytes: &[u8]) -> bool
    ensures { result ≡ is_z bytes.now }
{
    match bytes {
        [b] => *b == b'Z',
        _ => false,
    }
}

/// The civil time of that year whose month, day and time of day are digits before a Z.
#[tactic(auto, unfolding(crate::specs::Reading::after_year_at))]
fn after_year(year: u16, bytes: &[u8]) -> Option<Civil>
    ensures { result ≡ after_year_at year bytes.now }
{
    let (month, rest) = pair(bytes)?;
    let (day, rest) = pair(rest)?;
    let (hour, rest) = pair(rest)?;
    let (minute, rest) = pair(rest)?;
    let (second, rest) = pair(rest)?;
    if is_z(rest) {
        Some(Civil {
            year,
            month,
            day,
            hour,
            minute,
            second,
        })
    } else {
        None
    }
}

/// The year that the digits of a UTCTime mean.
fn utc_year(digits: u8) -> u16
    ensures { result ≡ utc_year digits }
{
    if digits < 50 {
        2000 + u16::from(digits)
    } else {
        1900 + u16::from(digits)
    }
}

/// The civil time that the bytes show, whether or not the calendar has it.
#[tactic(auto, unfolding(crate::specs::Reading::civil_at))]
fn civil(general: bool, bytes: &[u8]) -> Option<Civil>
    ensures { result ≡ civil_at general bytes.now }
{
    if general {
        let (century, rest) = pair(bytes)?;
        let (year, rest) = pair(rest)?;
        after_year(u16::from(century) * 100 + u16::from(year), rest)
    } else {
        let (year, rest) = pair(bytes)?;
        after_year(utc_year(year), rest)
    }
}

/// Whether the clock has the time of day.
fn has_time_of_day(civil: Civil) -> bool
    ensures { IsTrue result ↔ ((civil.hour < 24) × (civil.minute < 60) × (civil.second < 60)) }
{
    civil.hour < 24 && civil.minute < 60 && civil.second < 60
}

/// The date, if the calendar has it and the clock the time of day.
fn date_of(civil: Civil) -> Option<Date>
    requires { (civil.year < 10000) × (civil.month < 100) × (civil.day < 100) }
    ensures none { IsNone result → IsCivil civil → ⊥ }
    ensures civil { OnSome result (IsCivil civil) }
    ensures date { IfSome result (IsDateOf civil) }
{
    if !has_time_of_day(civil) {
        return None;
    }
    Date::new(civil.year as i16, civil.month as i8, civil.day as i8).ok()
}

/// The moment of a civil time from 2000 on, whose date is given.
fn moment_of(civil: Civil, date: Date) -> u64
    requires civil { IsCivil civil }
    requires year { 2000 ≤ civil.year }
    requires date { IsDateOf civil date }
    ensures { IsAt civil result }
{
    let day = date.to_unix_epoch_day() as u64;
    let hours = day * 24 + u64::from(civil.hour);
    let minutes = hours * 60 + u64::from(civil.minute);
    minutes * 60 + u64::from(civil.second)
}

/// The moment that the bytes spell.
fn moment(general: bool, bytes: &[u8]) -> Result<u64, TimeFault>
    ensures found { IfOk result (λ n. IsMoment n × (bytes.now ≡ time_text general n)) }
    ensures years { IfOk result (λ n. general ≡ false → n < 2_524_608_000) }
    ensures only { (n : ℕ) → IsMoment n → (general ≡ false → n < 2_524_608_000)
        → bytes.now ≡ time_text general n → result ≡ Ok n }

    ensures bad { IsErrOf result TimeFault.BadTime
        ↔ ((c : Civil) → HasText general c → bytes.now ≡ civil_text general c → ⊥) }
    ensures early { IsErrOf result TimeFault.TimeRange
        ↔ ((c : Civil) × HasText general c × (bytes.now ≡ civil_text general c) × (c.year < 2000)) }
{
    let Some(civil) = civil(general, bytes) else {
        return Err(TimeFault::BadTime);
    };
    let Some(date) = date_of(civil) else {
        return Err(TimeFault::BadTime);
    };
    if civil.year < 2000 {
        return Err(TimeFault::TimeRange);
    }
    Ok(moment_of(civil, date))
}

/// The moment that a GeneralizedTime or a UTCTime spells: digits and `Z`, with seconds and no fraction.
///
/// The year digits of a UTCTime from 50 on mean 1950 to 1999, the others 2000 to 2049. The moment
/// is in seconds since 1970 (RFC 5280 sections 4.1.2.5.1 and 4.1.2.5.2).
pub fn read(general: bool, bytes: &[u8]) -> Result<u64, TimeFault>
    ensures found { IfOk result (λ n. IsMoment n × (bytes.now ≡ time_text general n)) }
    ensures years { IfOk result (λ n. general ≡ false → n < 2_524_608_000) }
    // What is spelled so is read.
    ensures only { (n : ℕ) → IsMoment n → (general ≡ false → n < 2_524_608_000)
        → bytes.now ≡ time_text general n → result ≡ Ok n }
    // The same as one equation.
    ensures read { result_ok result ≡ moment_in general bytes.now }

    ensures bad { IsErrOf result TimeFault.BadTime
        ↔ ((c : Civil) → HasText general c → bytes.now ≡ civil_text general c → ⊥) }
    ensures early { IsErrOf result TimeFault.TimeRange
        ↔ ((c : Civil) × HasText general c × (bytes.now ≡ civil_text general c) × (c.year < 2000)) }
{
    moment(general, bytes)
}
