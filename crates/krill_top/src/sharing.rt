//! Several sessions over what was opened: desks and press behind their locks, and each session in a thread of its own.

ghost use Rattle.std.specs.Prelude.{◌≡◌, ◌≤◌, [], ℕ, List, None, Some, length, map, vec_len, vec_capacity};
ghost use Rattle.key_ids.specs.Uris.{Bases};
ghost use Rattle.manager.specs.Ready.{desk_in};
ghost use Rattle.session_lines.specs.Keeping.{nothing_kept};
ghost use Rattle.session_lines.specs.Runs as runs;
ghost use Rattle.krill_top.specs.DeskStates.{most_desks, most_sessions};
ghost use Rattle.krill_top.specs.Session.{session_of};
ghost use Rattle.krill_top.specs.SharedRuns.{ended_fault, gravest_from, kept_from, ServesMany};
ghost use Rattle.krill_top.specs.declared.faults.RunFault.TheVariants as faults;
ghost use Rattle.krill_top.specs.Statuses.{export_fault, graver, run_status};
ghost use Rattle.krill_top.specs.inner.Opened.{AreClosed};
ghost use Rattle.krill_top.specs.inner.Shared.{IsShareable, IsUnservedRun, RunsReady, worst_of};
ghost use Rattle.krill_top.specs.InstanceState.{InstanceState};
ghost use Rattle.krill_top.specs.inner.Started.{IsResumedIn, IsStarted};

use crate::ends::Ends;
use crate::faults::RunFault;
use crate::instance::InstanceParts;
use crate::laws::laws_of_runs;
use crate::opening::{Opened, close_desks};
use crate::running::{RunEnd, export_fault, fault_of, run_end};
use crate::sinks::graver;
use crate::starting::Started;
use desk_core::Desk;
use disk_api::Disk;
use line_loop::{Clock, SessionEnd, Sink, Source};
use manager::{
    ClosedStore, ReadyStore, StoreParts, UnreadyStore, UnstartedStore, make_store_ready,
    ready_stores_can_start,
};
use outlet_api::Outlet;
use press_core::{more_commands_stand, more_commands_stay_published};
use session_lines::{
    Kept, ServedStore, SessionEnds, SessionOutcome, serve_store, sessions_make_what_is_accepted,
};
use signer_api::Signer;
use std::alloc::Global;
use std::marker::Brand;
use std::sync::Wait;
use std::thread::Threads;

/// Serves the sessions at the same time, exports the last edition again where it couldn't be before, and closes all.
/// Where there is no memory for the locks none is served.
pub(crate) fn serve_many<
    R: Threads + Wait + Sync,
    D: Disk + Send,
    G: Signer + Send,
    S: Source + Send,
    K: Sink + Send,
    O: Outlet + Send,
    C: Clock + Send,
>(
    rt: &R,
    alloc: Global,
    started: Started<D, G, O>,
    sessions: Vec<SessionEnds<S, K, C>>,
) -> RunEnd<D, G, S, K, O, C>
    requires empty { started.disks.items ≡ [] }
    requires room { most_desks ≤ vec_capacity started.disks }
    requires sessions { length sessions.items ≤ most_sessions }
    requires resumed { (begun : InstanceState) × IsResumedIn O.Outlet started.instance begun }
    ensures { (bases : Bases) (random : List ℕ) (ends : Ends D G O)
        → IsStarted D.Disk G.state O.Outlet bases (session_of random) ends started
        → ServesMany D.Disk G.state O.Outlet S.Source K.Sink C.Clock bases random ends sessions.items result }
{
    laws_of_runs();
    more_commands_stand();
    more_commands_stay_published();
    ready_stores_can_start::<D, O>();
    sessions_make_what_is_accepted::<D, O, S, K>();
    let Started {
        instance,
        disks,
        ..
    } = started;
    let InstanceParts {
        desks,
        press,
        signers,
        outlet,
    } = instance.into_parts();
    match make_store_ready(rt, alloc, desks.into_inner(), press, outlet) {
        Ok(ready) => serve_ready(rt, alloc, ready, signers, disks, sessions),
        Err(
            UnreadyStore {
                desks,
                press,
                outlet,
                ..
            },
        ) => {
            let parts = StoreParts {
                desks,
                press,
                outlet,
            };
            unserved(RunFault::Memory, parts, disks, sessions)
        }
    }
}

// Serves the sessions over a store that was made ready.
fn serve_ready<
    R: Threads + Wait + Sync,
    D: Disk + Send,
    G: Signer + Send,
    S: Source + Send,
    K: Sink + Send,
    O: Outlet + Send,
    C: Clock + Send,
>(
    rt: &R,
    alloc: Global,
    ready: ReadyStore<D, G, O>,
    signers: u32,
    disks: Vec<D>,
    sessions: Vec<SessionEnds<S, K, C>>,
) -> RunEnd<D, G, S, K, O, C>
    requires ready { IsShareable O.Outlet ready signers }
    requires sessions { length sessions.items ≤ most_sessions }
    requires empty { disks.items ≡ [] }
    requires room { most_desks ≤ vec_capacity disks }
    ensures { RunsReady D.Disk G.state O.Outlet S.Source K.Sink C.Clock ready sessions.items result }
{
    ready_stores_can_start::<D, O>();
    let ReadyStore {
        opened,
        viewers,
        room,
    } = ready;
    let mut desks = room;
    let mut sessions = sessions;
    let ready = ReadyStore {
        opened,
        viewers,
        room: Vec::new(alloc),
    };
    let served = serve_store::<Brand, D, G, O, S, K, C, R>(
        rt,
        alloc,
        ready,
        signers,
        &mut sessions,
        &mut desks,
    );
    match served {
        Ok(served) => close_served(served, desks, disks, sessions),
        Err(
            UnstartedStore {
                opened,
                fault: _fault,
            },
        ) => {
            let ready = ReadyStore {
                opened,
                viewers: Vec::new(alloc),
                room: desks,
            };
            unserved(RunFault::Memory, ready.into_parts(rt), disks, sessions)
        }
    }
}

// Hands back what came out of the locks.
fn close_served<D: Disk, G: Signer, S: Source, K: Sink, O: Outlet, C: Clock>(
    served: ServedStore<D, G, O>,
    desks: Vec<Desk<D>>,
    disks: Vec<D>,
    sessions: Vec<SessionEnds<S, K, C>>,
) -> RunEnd<D, G, S, K, O, C>
    requires empty { disks.items ≡ [] }
    requires room { vec_len desks ≤ vec_capacity disks }
    ensures sessions { result.sessions.items ≡ sessions.items }
    ensures desks { AreClosed D.Disk desks.items result.ends.desks.items }
    ensures press { result.ends.press ≡ served.store.disk }
    ensures signers { map G.state result.ends.signers.items ≡ served.store.ring }
    ensures outlet { result.ends.outlet ≡ served.store.outlet }
    ensures kept { result.kept ≡ kept_from nothing_kept served.outcomes.items }
    ensures fault { result.fault ≡ graver (worst_of (length sessions.items) served.outcomes.items) (export_fault served.store.repeated) }
    ensures status { result.status ≡ run_status result.fault }
{
    let ServedStore {
        store: ClosedStore {
            disk,
            ring,
            outlet,
            repeated,
        },
        outcomes,
    } = served;
    let Ended { fault, kept } = come_to(sessions.len(), outcomes);
    let ends = Ends {
        desks: close_desks(Opened { desks, disks }),
        press: disk,
        signers: ring.take_back(),
        outlet,
    };
    run_end(graver(fault, export_fault(&repeated)), ends, sessions, kept)
}

// Why the sessions ended that didn't end well, the gravest cause, and what they kept.
#[derive(Drop)]
struct Ended<D: Disk, O: Outlet> {
    fault: Option<RunFault>,
    kept: Kept<D, O>,
}

// Of so many sessions. Where there are fewer outcomes, there was no memory to serve them.
fn come_to<D: Disk, O: Outlet>(sessions: usize, outcomes: Vec<SessionOutcome<D, O>>) -> Ended<D, O>
    ensures fault { result.fault ≡ worst_of sessions outcomes.items }
    ensures kept { result.kept ≡ kept_from nothing_kept outcomes.items }
{
    if outcomes.len() < sessions {
        let Ended { kept, .. } = sum_up(outcomes);
        return Ended {
            fault: Some(RunFault::Memory),
            kept,
        };
    }
    sum_up(outcomes)
}

fn sum_up<D: Disk, O: Outlet>(outcomes: Vec<SessionOutcome<D, O>>) -> Ended<D, O>
    ensures fault { result.fault ≡ gravest_from None outcomes.items }
    ensures kept { result.kept ≡ kept_from nothing_kept outcomes.items }
{
    let mut fault = None;
    let mut kept = Kept::new();
    for outcome in outcomes {
        let SessionOutcome { kept: more, ended } = outcome;
        fault = graver(fault, ended_fault(ended));
        kept = kept.merge(more);
    }
    Ended { fault, kept }
}

// Why a session ended otherwise than by the end of its source. One that has no end wasn't served.
fn ended_fault(ended: Option<SessionEnd>) -> Option<RunFault>
    ensures { result ≡ ended_fault ended }
{
    match ended {
        Some(end) => fault_of(end),
        None => Some(RunFault::Memory),
    }
}

// Hands back a store over which no session was served, for want of memory.
fn unserved<D: Disk, G: Signer, S: Source, K: Sink, O: Outlet, C: Clock>(
    fault: RunFault,
    parts: StoreParts<D, G, O>,
    disks: Vec<D>,
    sessions: Vec<SessionEnds<S, K, C>>,
) -> RunEnd<D, G, S, K, O, C>
    requires memory { fault ≡ faults.Memory }
    requires empty { disks.items ≡ [] }
    requires room { vec_len parts.desks ≤ vec_capacity disks }
    ensures { IsUnservedRun D.Disk G.state parts.desks.items parts.press parts.outlet sessions.items result }
{
    let StoreParts {
        desks,
        press,
        outlet,
    } = parts;
    let (disk, ring) = press.close();
    let ends = Ends {
        desks: close_desks(Opened { desks, disks }),
        press: disk,
        signers: ring.take_back(),
        outlet,
    };
    run_end(Some(fault), ends, sessions, Kept::new())
}
