//! Times of certificates (RFC 5280 section 4.1.2.5).

ghost use Rattle.der.specs.Part.{place};
ghost use Rattle.der.specs.Outcome.{Gives};
ghost use Rattle.object_parts.specs.TimeFormats.{utc_content, general_content, general_time, time, period};

use der::tags::{GENERALIZED_TIME, SEQUENCE, UTC_TIME};
use der::{Part, ShapeFault};

/// 2050-01-01T00:00:00Z.
const FROM_2050: u64 = 2_524_608_000;

/// The moment of a UTCTime.
fn utc_content(part: Part<'_>) -> Result<u64, ShapeFault>
    ensures { Gives (λ n. n) result (utc_content.read (place part.entry)) }
{
    match moments::read(false, part.bytes) {
        Ok(seconds) => Ok(seconds),
        Err(_) => Err(part.fault()),
    }
}

/// The moment of a GeneralizedTime.
fn general_content(part: Part<'_>) -> Result<u64, ShapeFault>
    ensures { Gives (λ n. n) result (general_content.read (place part.entry)) }
{
    match moments::read(true, part.bytes) {
        Ok(seconds) => Ok(seconds),
        Err(_) => Err(part.fault()),
    }
}

/// A GeneralizedTime (RFC 5280 section 4.1.2.5.2). It is given in seconds since 1970.
pub fn general_time(part: Part<'_>) -> Result<(u64, Part<'_>), ShapeFault>
    ensures { Gives (λ x. (x.0, place x.1)) result (general_time.read (place part.entry)) }
{
    let (content, rest) = part.open(GENERALIZED_TIME)?;
    let seconds = general_content(content)?;
    Ok((seconds, rest))
}

/// A UTCTime through 2049, and a GeneralizedTime from 2050 on (RFC 5280 section 4.1.2.5). It is
/// given in seconds since 1970.
pub fn time(part: Part<'_>) -> Result<(u64, Part<'_>), ShapeFault>
    ensures { Gives (λ x. (x.0, place x.1)) result (time.read (place part.entry)) }
{
    if part.begins(UTC_TIME) {
        let (content, rest) = part.open(UTC_TIME)?;
        let seconds = utc_content(content)?;
        return Ok((seconds, rest));
    }
    let (content, rest) = part.open(GENERALIZED_TIME)?;
    let seconds = general_content(content)?;
    if seconds >= FROM_2050 {
        Ok((seconds, rest))
    } else {
        Err(content.fault())
    }
}

/// From a time to another (the validity of a certificate, RFC 5280 section 4.1.2.5). Both are in
/// seconds since 1970, and either may be the later one.
#[tactic(auto, unfolding(crate::specs::TimeFormats::period))]
pub fn period(part: Part<'_>) -> Result<((u64, u64), Part<'_>), ShapeFault>
    ensures { Gives (λ x. (x.0, place x.1)) result (period.read (place part.entry)) }
{
    let (content, rest) = part.open(SEQUENCE)?;
    let (from, content) = time(content)?;
    let (to, end) = time(content)?;
    end.end()?;
    Ok(((from, to), rest))
}
