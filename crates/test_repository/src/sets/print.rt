//! Answers to queries as a case prints them.

use anyhow::{Result, bail};
use pub_set::QueryRefused;
use std::alloc::Global;

/// The answer to a query: `ok`, or the code and the URI.
pub fn reply_text(alloc: Global, answer: Result<(), QueryRefused>) -> Result<String> {
    match answer {
        Ok(()) => Ok(String::from_str(alloc, "ok")?),
        Err(QueryRefused::Query { code, uri }) => Ok(format!(in alloc; "{code}:{uri}")?),
        Err(QueryRefused::Memory) => bail!("out of memory"),
    }
}
