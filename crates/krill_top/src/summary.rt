//! The line that tells of the last edition.

ghost use Rattle.std.specs.Prelude.{◌≡◌, ◌≤◌, ◌++◌, ℕ, List, None, Some, Err, length, IfOk, OnOk, OnErr, string_bytes};
ghost use Rattle.std.specs.Option.{option_map};
ghost use Rattle.std.specs.Io.KnownBytes.{Appends};
ghost use Rattle.host_calls.specs.Rise.{HasRisen};
ghost use Rattle.krill_top.specs.Summaries.{summary_line};
ghost use Rattle.krill_top.specs.inner.Summing.{summed};

use disk_api::Disk;
use line_loop::{Sink, SinkStop};
use press_core::Loaded;
use rp_rules::Audited;
use std::alloc::{AllocError, Global};

/// What an audit found of the last edition: its serial and moment, how many objects and publication points
/// were visited, and how many origins they yield. All are 0 where there is no edition.
#[derive(Clone, Copy, Debug)]
pub struct Summary {
    pub serial: u64,
    /// In seconds since 1970.
    pub moment: u64,
    pub objects: u64,
    pub points: u64,
    pub origins: u64,
}

impl Summary {
    /// Of what was loaded and then audited.
    pub(crate) fn of<D: Disk>(loaded: &Loaded<D>, audited: Option<&Audited>) -> Summary
        ensures { result ≡ summed loaded.now.serial loaded.now.moment (option_map (λ a. a.now) audited.entry) }
    {
        let mut summary = Summary {
            serial: loaded.serial(),
            moment: loaded.moment(),
            objects: 0,
            points: 0,
            origins: 0,
        };
        if let Some(audited) = audited {
            summary.objects = audited.objects();
            summary.points = audited.points().len() as u64;
            summary.origins = audited.origins().len() as u64;
        }
        summary
    }

    /// Its line, with the line feed.
    pub(crate) fn text(&self, alloc: Global) -> Result<String, AllocError>
        ensures { IfOk result (λ text. string_bytes text ≡ summary_line self.now) }
    {
        let Summary {
            serial,
            moment,
            objects,
            points,
            origins,
        } = *self;
        format!(in alloc;
            "{{\"moment\":{moment},\"objects\":{objects},\"origins\":{origins},\"points\":{points},\"serial\":{serial}}}\n"
        )
    }
}

/// Gives the sink all of the bytes.
pub(crate) fn give_all<K: Sink>(alloc: Global, sink: &mut K, bytes: &[u8]) -> Result<(), SinkStop>
    ensures ok { OnOk result (Appends (K.taken sink.old) (K.taken sink.new) bytes.now) }
    ensures err { OnErr result ((written : List ℕ) × (cut_off : List ℕ)
        × Appends (K.taken sink.old) (K.taken sink.new) written
        × (bytes.now ≡ written ++ cut_off)) }
    ensures later { K.fault_count sink.old ≤ K.fault_count sink.new }
    ensures fault { result ≡ Err SinkStop.Fault → HasRisen (K.fault_count sink.old) (K.fault_count sink.new) }
{
    let mut at = 0;
    while at < bytes.len() {
        at += sink.give(alloc, &bytes[at..])?;
    }
    Ok(())
}
