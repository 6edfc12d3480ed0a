//! Texts that a sink is told, and which of two faults a run's status is by.

ghost use Rattle.std.specs.Prelude.{◌≡◌};
ghost use Rattle.krill_top.specs.Statuses as spec;
ghost use Rattle.krill_top.specs.Telling.{Tells};

use crate::faults::RunFault;
use crate::summary::give_all;
use line_loop::{Sink, SinkStop};
use std::alloc::Global;

/// Why the text couldn't be given whole, if it couldn't.
pub(crate) fn told<K: Sink>(alloc: Global, sink: &mut K, text: &[u8]) -> Option<RunFault>
    ensures { Tells K.Sink text.now result sink.old sink.new }
{
    match give_all(alloc, sink, text) {
        Ok(()) => None,
        Err(stop) => Some(stop_fault(stop)),
    }
}

// Why a text isn't given whole.
fn stop_fault(stop: SinkStop) -> RunFault
    ensures { result ≡ spec.stop_fault stop }
{
    match stop {
        SinkStop::Fault => RunFault::Device,
        SinkStop::Memory => RunFault::Memory,
    }
}

/// A device that failed goes before want of memory, and that before a budget that is spent.
pub(crate) fn graver(session: Option<RunFault>, export: Option<RunFault>) -> Option<RunFault>
    ensures { result ≡ spec.graver session export }
{
    match export {
        None => session,
        Some(fault) => match (session, fault) {
            (Some(RunFault::Device), _) => Some(RunFault::Device),
            (Some(RunFault::Memory), RunFault::Spent { .. }) => Some(RunFault::Memory),
            (_, fault) => Some(fault),
        },
    }
}
