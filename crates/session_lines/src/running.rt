//! Sessions over one store: what was opened is put behind its locks, each session is served in a thread of its own with
//! a pass of its own, and all is taken out of its locks again.
ghost use Rattle.std.specs.Prelude.{◌≡◌, ◌⊎◌, ◌≤◌, ◌<◌, ◌+◌, ℕ, [], All, map, length, reverse, slice_index_or, vec_capacity, IfOk, IfErr};
ghost use Rattle.authority_book.specs.Verdict.{most_authorities};
ghost use Rattle.notice_board.specs.Seats.{viewer_seat};
ghost use Rattle.manager.specs.Opening.{IsOpened};
ghost use Rattle.manager.specs.Ready.{desk_in};
ghost use Rattle.manager.specs.Risen.{AreRisenDesks, IsRisenPress};
ghost use Rattle.manager.specs.Starting.{AreOpenedDesks, first_seat, first_places};
ghost use Rattle.session_lines.specs.Sessions.{IsServed};
ghost use Rattle.session_lines.specs.Runs.{AreServedWith, AllServed, NoneServed, IsRun};
ghost use Rattle.session_lines.specs.inner.Seats.{IsSeated, AreSeated, IsRisen, AreRisen};

use crate::{Handler, Kept, ServedSession, SessionParts, serve_all};
use desk_core::Desk;
use disk_api::Disk;
use line_loop::{Clock, SessionEnd, Sink, Source};
use manager::{ClosedStore, Manager, Names, Pass, ReadyStore, UnstartedStore, start};
use outlet_api::Outlet;
use signer_api::Signer;
use std::alloc::{AllocError, Global};
use std::sync::Wait;
use std::thread::Threads;

/// The ends of a session.
#[derive(Drop)]
pub struct SessionEnds<S: Source, K: Sink, C: Clock> {
    /// Where its lines come from.
    pub source: S,
    /// Where its replies go.
    pub sink: K,
    /// What its publications take the time from.
    pub clock: C,
}

/// What a session kept of its refusals, and how it ended.
#[derive(Drop)]
pub struct SessionOutcome<D: Disk, O: Outlet> {
    pub kept: Kept<D, O>,
    pub ended: Option<SessionEnd>,
}

/// What is left of a run over a store, beside its desks. There is an outcome of each session, or none where there was
/// no memory for their passes, and none was served.
#[derive(Drop)]
pub struct ServedStore<D: Disk, G: Signer, O: Outlet> {
    pub store: ClosedStore<D, G, O>,
    pub outcomes: Vec<SessionOutcome<D, O>>,
}

// Room for sessions that are served.
#[derive(Drop)]
struct Room<N: Names, D: Disk, O: Outlet, S: Source, K: Sink, C: Clock> {
    seats: Vec<ServedSession<N, D, O, S, K, C>>,
    outcomes: Vec<SessionOutcome<D, O>>,
}

// The passes of sessions, with what they made, and what the sessions came to.
#[derive(Drop)]
struct Served<N: Names, D: Disk, O: Outlet> {
    passes: Vec<Pass<N>>,
    outcomes: Vec<SessionOutcome<D, O>>,
}

/// Serves each session in a thread of its own over what was opened. In the end the desks are put into an empty list with
/// room for them, by their numbers, and the sessions' ends stand where they stood.
pub fn serve_store<
    N: Names + Sync + Send,
    D: Disk + Send,
    G: Signer + Send,
    O: Outlet + Send,
    S: Source + Send,
    K: Sink + Send,
    C: Clock + Send,
    R: Threads + Wait + Sync,
>(
    rt: &R,
    alloc: Global,
    ready: ReadyStore<D, G, O>,
    signers: u32,
    sessions: &mut Vec<SessionEnds<S, K, C>>,
    into: &mut Vec<Desk<D>>,
) -> Result<ServedStore<D, G, O>, UnstartedStore<D, G, O>>
    requires desks { (length ready.opened.desks.items ≡ most_authorities) × AreOpenedDesks N.words N.named 0 ready.opened.desks.items }
    requires press { IsOpened O.Outlet N.named (record { press = ready.opened.press; seats = map first_seat ready.opened.desks.items; board = ready.opened.board; outlet = ready.opened.outlet }) }
    requires desk_faults { AreRisenDesks D.Disk N.named (map desk_in ready.opened.desks.items) }
    requires press_faults { IsRisenPress D.Disk O.Outlet N.named ready.opened.press.journal ready.opened.outlet }
    requires signers { signers ≡ length N.named.signers }
    requires viewers { (length ready.viewers.items ≡ first_places + 1) × All (λ viewer. viewer ≡ viewer_seat ready.opened.board) ready.viewers.items }
    requires sessions { length sessions.old.items ≤ first_places }
    requires empty { into.old.items ≡ [] }
    requires room { most_authorities ≤ vec_capacity into.old }
    ensures run { IfOk result (IsRun D.Disk O.Outlet S.Source K.Sink C.Clock N.named ready.opened.board.shown sessions.old.items sessions.new.items into.new.items) }
    ensures desks { IfErr result (λ refused. refused.opened.desks.items ≡ ready.opened.desks.items) }
    ensures rest { IfErr result (λ refused. (refused.opened.press ≡ ready.opened.press) × (refused.opened.board ≡ ready.opened.board) × (refused.opened.outlet ≡ ready.opened.outlet)) }
    ensures unserved { IfErr result (λ refused. (sessions.new ≡ sessions.old) × (into.new ≡ into.old)) }
{
    let ReadyStore {
        opened,
        viewers,
        room: _room,
    } = ready;
    let room = match room_for(alloc, sessions.len()) {
        Ok(room) => room,
        Err(fault) => return Err(UnstartedStore { opened, fault }),
    };
    let (manager, mut pass) = match start::<N, D, G, O>(alloc, opened, signers, viewers) {
        Ok(started) => started,
        Err(refused) => return Err(refused),
    };
    let Served { passes, outcomes } = serve_passes(rt, alloc, &manager, &mut pass, sessions, room);
    let store = manager.close_all(rt, alloc, pass, passes, into);
    Ok(ServedStore { store, outcomes })
}

fn room_for<N: Names, D: Disk, O: Outlet, S: Source, K: Sink, C: Clock>(
    alloc: Global,
    count: usize,
) -> Result<Room<N, D, O, S, K, C>, AllocError>
    ensures seats { IfOk result (λ room. (room.seats.items ≡ []) × (count ≤ vec_capacity room.seats)) }
    ensures outcomes { IfOk result (λ room. (room.outcomes.items ≡ []) × (count ≤ vec_capacity room.outcomes)) }
{
    Ok(Room {
        seats: Vec::with_capacity(alloc, count)?,
        outcomes: Vec::with_capacity(alloc, count)?,
    })
}

// Serves the sessions, each with a pass that is split off this one.
fn serve_passes<
    N: Names + Sync + Send,
    D: Disk + Send,
    G: Signer + Send,
    O: Outlet + Send,
    S: Source + Send,
    K: Sink + Send,
    C: Clock + Send,
    R: Threads + Wait + Sync,
>(
    rt: &R,
    alloc: Global,
    manager: &Manager<N, D, G, O>,
    pass: &mut Pass<N>,
    sessions: &mut Vec<SessionEnds<S, K, C>>,
    room: Room<N, D, O, S, K, C>,
) -> Served<N, D, O>
    requires places { length sessions.old.items ≤ pass.old.places }
    requires seats { (room.seats.items ≡ []) × (length sessions.old.items ≤ vec_capacity room.seats) }
    requires outcomes { (room.outcomes.items ≡ []) × (length sessions.old.items ≤ vec_capacity room.outcomes) }
    ensures rest { pass.new ≡ record pass.old { places = pass.new.places } }
    ensures served { AllServed D.Disk (length N.named.signers) S.Source K.Sink C.Clock pass.old result.passes.items sessions.old.items sessions.new.items result.outcomes.items
        ⊎ NoneServed result.passes.items sessions.old.items sessions.new.items result.outcomes.items }
{
    let Room {
        seats,
        mut outcomes,
    } = room;
    let Ok(passes) = manager.split_passes(alloc, pass, sessions.len()) else {
        return Served {
            passes: Vec::new(alloc),
            outcomes,
        };
    };
    let passes = serve_seats(rt, alloc, manager, passes, sessions, seats, &mut outcomes);
    Served { passes, outcomes }
}

// A session that was served: its pass, its ends, and what it came to.
#[derive(Drop)]
struct Risen<N: Names, D: Disk, O: Outlet, S: Source, K: Sink, C: Clock> {
    pass: Pass<N>,
    ends: SessionEnds<S, K, C>,
    outcome: SessionOutcome<D, O>,
}

// Serves the sessions, each with the pass of its place, and hands the passes back.
fn serve_seats<
    N: Names + Sync + Send,
    D: Disk + Send,
    G: Signer + Send,
    O: Outlet + Send,
    S: Source + Send,
    K: Sink + Send,
    C: Clock + Send,
    R: Threads + Wait + Sync,
>(
    rt: &R,
    alloc: Global,
    manager: &Manager<N, D, G, O>,
    passes: Vec<Pass<N>>,
    sessions: &mut Vec<SessionEnds<S, K, C>>,
    seats: Vec<ServedSession<N, D, O, S, K, C>>,
    outcomes: &mut Vec<SessionOutcome<D, O>>,
) -> Vec<Pass<N>>
    requires count { length passes.items ≡ length sessions.old.items }
    requires seats { (seats.items ≡ []) × (length sessions.old.items ≤ vec_capacity seats) }
    requires outcomes { (outcomes.old.items ≡ []) × (length sessions.old.items ≤ vec_capacity outcomes.old) }
    ensures { AreServedWith D.Disk (length N.named.signers) S.Source K.Sink C.Clock passes.items result.items sessions.old.items sessions.new.items outcomes.new.items }
{
    let mut passes = passes;
    let mut seats = seats;
    seat_all(alloc, &mut passes, sessions, &mut seats);
    let seats = serve_each(rt, alloc, manager, seats);
    rise_all(&mut passes, sessions, seats, outcomes);
    passes
}

// The sessions at their seats, when they were served.
fn serve_each<
    N: Names + Sync + Send,
    D: Disk + Send,
    G: Signer + Send,
    O: Outlet + Send,
    S: Source + Send,
    K: Sink + Send,
    C: Clock + Send,
    R: Threads + Wait + Sync,
>(
    rt: &R,
    alloc: Global,
    manager: &Manager<N, D, G, O>,
    seats: Vec<ServedSession<N, D, O, S, K, C>>,
) -> Vec<ServedSession<N, D, O, S, K, C>>
    ensures count { length result.items ≡ length seats.items }
    ensures each { (n : ℕ) (d : _) → n < length seats.items → IsServed D.Disk (length N.named.signers) S.Source K.Sink C.Clock
        (slice_index_or seats.items n d) (slice_index_or result.items n d) }
{
    let mut seats = seats;
    serve_all(rt, alloc, manager, seats.as_mut_slice());
    seats
}

// Seats each session with the pass of its place, the last first.
fn seat_all<N: Names, D: Disk, O: Outlet, S: Source, K: Sink, C: Clock>(
    alloc: Global,
    passes: &mut Vec<Pass<N>>,
    sessions: &mut Vec<SessionEnds<S, K, C>>,
    seats: &mut Vec<ServedSession<N, D, O, S, K, C>>,
)
    requires count { length passes.old.items ≡ length sessions.old.items }
    requires seats { (seats.old.items ≡ []) × (length sessions.old.items ≤ vec_capacity seats.old) }
    ensures passes { (passes.new.items ≡ []) × (length passes.old.items ≤ vec_capacity passes.new) }
    ensures sessions { (sessions.new.items ≡ []) × (length sessions.old.items ≤ vec_capacity sessions.new) }
    ensures seats { AreSeated passes.old.items sessions.old.items (reverse seats.new.items) }
    ensures each { length seats.new.items ≡ length sessions.old.items }
{
    for _ in 0..sessions.len() {
        let Some(ends) = sessions.pop() else {
            unreachable!()
        };
        let Some(pass) = passes.pop() else {
            unreachable!()
        };
        seats.push_reserved(seated(alloc, pass, ends));
    }
}

fn seated<N: Names, D: Disk, O: Outlet, S: Source, K: Sink, C: Clock>(
    alloc: Global,
    pass: Pass<N>,
    ends: SessionEnds<S, K, C>,
) -> ServedSession<N, D, O, S, K, C>
    ensures { IsSeated pass ends result }
{
    let SessionEnds {
        source,
        sink,
        clock,
    } = ends;
    ServedSession::new(Handler::new(alloc, pass, clock), source, sink)
}

// Puts the passes, the sessions' ends and what came of them back, in their order.
fn rise_all<N: Names, D: Disk, O: Outlet, S: Source, K: Sink, C: Clock>(
    passes: &mut Vec<Pass<N>>,
    sessions: &mut Vec<SessionEnds<S, K, C>>,
    seats: Vec<ServedSession<N, D, O, S, K, C>>,
    outcomes: &mut Vec<SessionOutcome<D, O>>,
)
    requires passes { (passes.old.items ≡ []) × (length seats.items ≤ vec_capacity passes.old) }
    requires sessions { (sessions.old.items ≡ []) × (length seats.items ≤ vec_capacity sessions.old) }
    requires outcomes { (outcomes.old.items ≡ []) × (length seats.items ≤ vec_capacity outcomes.old) }
    ensures { AreRisen (reverse seats.items) passes.new.items sessions.new.items outcomes.new.items }
{
    let mut seats = seats;
    for _ in 0..seats.len() {
        let Some(seat) = seats.pop() else {
            unreachable!()
        };
        let risen = rise(seat);
        passes.push_reserved(risen.pass);
        sessions.push_reserved(risen.ends);
        outcomes.push_reserved(risen.outcome);
    }
}

fn rise<N: Names, D: Disk, O: Outlet, S: Source, K: Sink, C: Clock>(
    seat: ServedSession<N, D, O, S, K, C>,
) -> Risen<N, D, O, S, K, C>
    ensures { IsRisen seat result.pass result.ends result.outcome }
{
    let SessionParts {
        pass,
        source,
        sink,
        clock,
        kept,
        ended,
    } = seat.into_parts();
    Risen {
        pass,
        ends: SessionEnds {
            source,
            sink,
            clock,
        },
        outcome: SessionOutcome { kept, ended },
    }
}
