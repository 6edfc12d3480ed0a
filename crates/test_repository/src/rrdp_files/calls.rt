//! The steps of a case.

use crate::rrdp_files::editions::Editions;
use crate::rrdp_files::print::{files_text, lengths_text};
use anyhow::{Context, Result, bail};
use key_ids::Site;
use std::alloc::Global;
use uuid::Uuid;

const RSYNC: &str = "rsync://rpki.example/repo/";

/// What a line comes to.
pub fn answer(alloc: Global, line: &str) -> Result<String> {
    let mut fields = line.split('\t');
    let mut told = String::from_str(alloc, fields.next().context("no name")?)?;
    let session = Uuid::parse_str(fields.next().context("no session")?).ok();
    let site = Site::read(alloc, RSYNC, fields.next().context("no base")?)?;
    let mut editions = Editions::new(alloc, session.context("a bad session")?, &site)?;
    for step in fields {
        told.push('\t')?;
        told.push_str(step_text(alloc, &mut editions, &site, step)?.as_str())?;
    }
    Ok(told)
}

fn step_text(alloc: Global, editions: &mut Editions, site: &Site, step: &str) -> Result<String> {
    match step {
        "newest" => files_text(alloc, &editions.files(alloc, false)?),
        "all" => files_text(alloc, &editions.files(alloc, true)?),
        "resume" => {
            let told = editions.resume(alloc, site)?;
            Ok(format!(in alloc; "{told}")?)
        }
        _ => {
            let (word, parts) = step.split_once(' ').unwrap_or((step, ""));
            if word != "e" {
                bail!("an unknown step: {word}");
            }
            let lengths = editions.publish(alloc, parts)?;
            lengths_text(alloc, lengths)
        }
    }
}
