//! Times, read and written.

ghost use Rattle.std.specs.Prelude.{IfOk};
ghost use Rattle.moments.specs.Civil.{IsMoment};

use anyhow::{Result, bail};
use moments::TimeText;
use std::alloc::Global;
use test_support::number_of;

/// The answer to a call.
pub fn answer(alloc: Global, call: &str, first: &str, second: &str) -> Result<String> {
    match call {
        "cert_time" => cert_time(alloc, first),
        "general" => general(alloc, first),
        "read" => read(alloc, first, second),
        _ => bail!("an unknown call: {call}"),
    }
}

/// A time's text, with a word for its kind.
fn printed(alloc: Global, time: TimeText) -> Result<String> {
    let mut out = String::new(alloc);
    out.push_str(if time.general { "general " } else { "utc " })?;
    for b in time.as_bytes() {
        out.push(char::from(*b))?;
    }
    Ok(out)
}

/// A moment that has a text.
pub fn moment_of(digits: &str) -> Result<u64>
    ensures { IfOk result IsMoment }
{
    let seconds = number_of(digits)?;
    if !moments::is_moment(seconds) {
        bail!("no moment: {seconds}");
    }
    Ok(seconds)
}

/// The text of a certificate's time.
pub fn cert_time(alloc: Global, digits: &str) -> Result<String> {
    printed(alloc, moments::cert_time(moment_of(digits)?))
}

/// The text as a GeneralizedTime.
pub fn general(alloc: Global, digits: &str) -> Result<String> {
    printed(alloc, moments::general(moment_of(digits)?))
}

/// The moment of a text.
pub fn read(alloc: Global, kind: &str, text: &str) -> Result<String> {
    let general = match kind {
        "general" => true,
        "utc" => false,
        _ => bail!("no kind of time: {kind}"),
    };
    match moments::read(general, text.as_bytes()) {
        Ok(seconds) => Ok(format!(in alloc; "{seconds}")?),
        Err(fault) => Ok(format!(in alloc; "{fault:?}")?),
    }
}
