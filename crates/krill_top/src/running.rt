//! The top call.

ghost use Rattle.std.specs.Prelude.{◌≡◌, ◌≢◌, ◌⊎◌, ◌<◌, ◌≤◌, [], ◌∷◌, ℕ, List, Some, None, length, vec_capacity, IfOk, IfErr};
ghost use Rattle.key_ids.specs.Base.{IsBase, rsync_scheme, https_scheme};
ghost use Rattle.key_ids.specs.Uris.{Bases};
ghost use Rattle.key_ids.specs.declared.site.SiteFault.TheVariants as site;
ghost use Rattle.krill_top.specs.Words.{AskedValue, asked_of, bases_of};
ghost use Rattle.krill_top.specs.Summaries.{summary_line};
ghost use Rattle.krill_top.specs.Statuses.{run_status, fault_of, export_fault, opening_fault};
ghost use Rattle.krill_top.specs.Session.{session_of};
ghost use Rattle.krill_top.specs.DeskStates.{most_desks, most_sessions};
ghost use Rattle.krill_top.specs.InstanceState.{InstanceState};
ghost use Rattle.krill_top.specs.Telling.{Tells};
ghost use Rattle.krill_top.specs.inner.Instances.{IsInState};
ghost use Rattle.krill_top.specs.inner.Started.{IsResumedIn, IsStarted};
ghost use Rattle.krill_top.specs.Run.{AreBases, IsUnwanted, ends_of, IsRefusedRun, IsRefusedAtOpening, ServesOne, TellsOne, IsFirstHeld, FindsHeld, WorksOne, DoesWork, wrong_sessions, wrong_devices, miscounted};
ghost use Rattle.krill_top.specs.Runs.{DoesOne, Does, RunsAs};
ghost use Rattle.session_lines.specs.Keeping.{KeptValue, nothing_kept};
ghost use Rattle.krill_top.specs.declared.faults.RunFault.TheVariants as faults;
ghost use Rattle.krill_top.specs.declared.faults.OpenFault.TheVariants as opening;

use crate::bases::read_bases;
use crate::desks::DESKS;
use crate::ends::Ends;
use crate::faults::{OpenFault, RunFault};
use crate::fronts::{put_in_front, take_first};
use crate::handler::Handler;
use crate::laws::laws_of_runs;
use crate::serving::Session;
use crate::session_id::session_of;
use crate::sharing::serve_many;
use crate::sinks::{graver, told};
use crate::starting::{NotStarted, SIGNERS_WRONG, Started, start, stop};
use crate::summary::Summary;
use crate::words::{Asked, Doing, read_words};
use crate::working::{ended_by, work};
use disk_api::Disk;
use key_ids::Site;
use line_loop::{Clock, SessionEnd, Sink, Source};
use manager::MOST_SESSIONS;
use outlet_api::{ExportFault, Outlet};
use session_lines::{Kept, SessionEnds};
use signer_api::Signer;
use std::alloc::Global;
use std::sync::Wait;
use std::thread::Threads;

/// What `WrongCount` says is wrong in number.
const DISKS_WRONG: u32 = 0;

const SESSIONS_WRONG: u32 = 2;

/// How many signers there are at most.
const MOST_SIGNERS: usize = 8;

/// The base of the published objects' URIs, and that of the files that tell of them, where the words name no
/// other.
const RSYNC_BASE: &str = "rsync://rpki.example/repo/";

const RRDP_BASE: &str = "https://rpki.example/rrdp/";

/// What a run leaves: its status, why it isn't 0, the devices, and the sessions' ends, as they stand. It has of each kind
/// of refusal the last value that one of its sessions kept, or its workload.
#[derive(Drop)]
pub struct RunEnd<D: Disk, G: Signer, S: Source, K: Sink, O: Outlet, C: Clock> {
    /// 0, or that of its fault.
    pub status: u8,
    /// None where the run ended well.
    pub fault: Option<RunFault>,
    pub ends: Ends<D, G, O>,
    pub sessions: Vec<SessionEnds<S, K, C>>,
    pub kept: Kept<D, O>,
}

/// Why a session ended otherwise than by the end of its source.
pub(crate) fn fault_of(ended: SessionEnd) -> Option<RunFault>
    ensures { result ≡ fault_of ended }
{
    match ended {
        SessionEnd::End => None,
        SessionEnd::SourceFault | SessionEnd::SinkFault => Some(RunFault::Device),
        SessionEnd::Spent { bytes } => Some(RunFault::Spent { bytes }),
        SessionEnd::Memory => Some(RunFault::Memory),
    }
}

/// Why the export at the end didn't end well.
pub(crate) fn export_fault<O: Outlet>(closing: &Result<bool, ExportFault<O>>) -> Option<RunFault>
    ensures { result ≡ export_fault closing.now }
{
    match closing {
        Ok(_) => None,
        Err(ExportFault::OutletFault { .. }) => Some(RunFault::Device),
        Err(ExportFault::Memory) => Some(RunFault::Memory),
    }
}

/// Why a run ended whose opening was refused.
fn opening_fault(fault: OpenFault) -> RunFault
    ensures { result ≡ opening_fault fault }
{
    match fault {
        OpenFault::DiskFault { .. } | OpenFault::SignerFault { .. } | OpenFault::OutletFault => {
            RunFault::Device
        }
        OpenFault::Memory => RunFault::Memory,
        fault => RunFault::Refused { fault },
    }
}

// Serves the one session over the instance, exports the last edition again where it couldn't be before,
// and closes it.
fn serve_one<R: Threads + Sync, D: Disk, G: Signer + Send, S: Source, K: Sink, O: Outlet, C: Clock>(
    rt: &R,
    alloc: Global,
    started: Started<D, G, O>,
    sessions: Vec<SessionEnds<S, K, C>>,
) -> RunEnd<D, G, S, K, O, C>
    requires empty { started.disks.items ≡ [] }
    requires room { most_desks ≤ vec_capacity started.disks }
    requires session { length sessions.items ≡ 1 }
    ensures { (bases : Bases) (random : List ℕ) (ends : Ends D G O) (before : SessionEnds S K C)
        → IsStarted D.Disk G.state O.Outlet bases (session_of random) ends started → sessions.items ≡ before ∷ []
        → ServesOne D.Disk G.state O.Outlet S.Source K.Sink C.Clock bases random ends before result }
{
    laws_of_runs();
    let Started {
        instance,
        summary,
        disks,
    } = started;
    let mut sessions = sessions;
    let SessionEnds {
        mut source,
        mut sink,
        clock,
    } = take_first(&mut sessions);
    let mut handler = Handler::new(alloc, instance, clock);
    let ended = Session::serve(rt, alloc, &mut handler, &mut source, &mut sink);
    let (mut instance, clock, kept) = handler.into_parts();
    let closing = instance.repeat_export(alloc);
    let ends = SessionEnds {
        source,
        sink,
        clock,
    };
    put_in_front(&mut sessions, ends);
    let fault = graver(fault_of(ended), export_fault(&closing));
    let started = Started {
        instance,
        summary,
        disks,
    };
    run_end(fault, stop(started), sessions, kept)
}

// Tells the one session what was found of the last edition, and closes the instance.
fn tell_one<D: Disk, G: Signer, S: Source, K: Sink, O: Outlet, C: Clock>(
    alloc: Global,
    started: Started<D, G, O>,
    sessions: Vec<SessionEnds<S, K, C>>,
) -> RunEnd<D, G, S, K, O, C>
    requires empty { started.disks.items ≡ [] }
    requires room { most_desks ≤ vec_capacity started.disks }
    requires session { length sessions.items ≡ 1 }
    ensures { (bases : Bases) (random : List ℕ) (ends : Ends D G O) (before : SessionEnds S K C)
        → IsStarted D.Disk G.state O.Outlet bases (session_of random) ends started → sessions.items ≡ before ∷ []
        → TellsOne D.Disk G.state O.Outlet K.Sink bases random ends before result }
{
    laws_of_runs();
    let mut sessions = sessions;
    let SessionEnds {
        source,
        mut sink,
        clock,
    } = take_first(&mut sessions);
    let fault = tell(alloc, &started.summary, &mut sink);
    let ends = SessionEnds {
        source,
        sink,
        clock,
    };
    put_in_front(&mut sessions, ends);
    run_end(fault, stop(started), sessions, Kept::new())
}

// Why the summary's line couldn't be given whole, if it couldn't.
fn tell<K: Sink>(alloc: Global, summary: &Summary, sink: &mut K) -> Option<RunFault>
    ensures { Tells K.Sink (summary_line summary.now) result sink.old sink.new }
{
    let Ok(line) = summary.text(alloc) else {
        return Some(RunFault::Memory);
    };
    told(alloc, sink, line.as_bytes())
}

// Gives a workload's commands where no desk holds any, publishes them and tells of that, and closes the
// instance.
fn work_one<R: Threads + Sync, D: Disk, G: Signer + Send, S: Source, K: Sink, O: Outlet, C: Clock>(
    rt: &R,
    alloc: Global,
    authorities: u8,
    started: Started<D, G, O>,
    sessions: Vec<SessionEnds<S, K, C>>,
) -> RunEnd<D, G, S, K, O, C>
    requires empty { started.disks.items ≡ [] }
    requires room { most_desks ≤ vec_capacity started.disks }
    requires session { length sessions.items ≡ 1 }
    ensures { (bases : Bases) (random : List ℕ) (ends : Ends D G O) (before : SessionEnds S K C)
        → IsStarted D.Disk G.state O.Outlet bases (session_of random) ends started → sessions.items ≡ before ∷ []
        → DoesWork D.Disk G.state O.Outlet K.Sink C.Clock authorities bases random ends before result }
{
    match started.instance.first_held() {
        Some(found) => refuse_held(found, started, sessions),
        None => work_over(rt, alloc, authorities, started, sessions),
    }
}

// Closes the instance, a desk of which holds commands.
fn refuse_held<D: Disk, G: Signer, S: Source, K: Sink, O: Outlet, C: Clock>(
    found: (u32, u64),
    started: Started<D, G, O>,
    sessions: Vec<SessionEnds<S, K, C>>,
) -> RunEnd<D, G, S, K, O, C>
    requires empty { started.disks.items ≡ [] }
    requires room { most_desks ≤ vec_capacity started.disks }
    requires held { (state : InstanceState) → IsInState O.Outlet started.instance state → IsFirstHeld state.desk_states (Some found) }
    ensures { (bases : Bases) (random : List ℕ) (ends : Ends D G O) (before : SessionEnds S K C)
        → IsStarted D.Disk G.state O.Outlet bases (session_of random) ends started → sessions.items ≡ before ∷ []
        → FindsHeld D.Disk G.state O.Outlet bases random ends before result }
{
    laws_of_runs();
    let (desk, held) = found;
    let fault = RunFault::NotEmpty { desk, held };
    run_end(Some(fault), stop(started), sessions, Kept::new())
}

// Gives the commands to the instance, no desk of which holds any, and closes it.
fn work_over<R: Threads + Sync, D: Disk, G: Signer + Send, S: Source, K: Sink, O: Outlet, C: Clock>(
    rt: &R,
    alloc: Global,
    authorities: u8,
    started: Started<D, G, O>,
    sessions: Vec<SessionEnds<S, K, C>>,
) -> RunEnd<D, G, S, K, O, C>
    requires empty { started.disks.items ≡ [] }
    requires room { most_desks ≤ vec_capacity started.disks }
    requires session { length sessions.items ≡ 1 }
    requires none { (state : InstanceState) → IsInState O.Outlet started.instance state → IsFirstHeld state.desk_states None }
    ensures { (bases : Bases) (random : List ℕ) (ends : Ends D G O) (before : SessionEnds S K C)
        → IsStarted D.Disk G.state O.Outlet bases (session_of random) ends started → sessions.items ≡ before ∷ []
        → WorksOne D.Disk G.state O.Outlet K.Sink C.Clock authorities bases random ends before result }
{
    laws_of_runs();
    let Started {
        instance,
        summary,
        disks,
    } = started;
    let mut sessions = sessions;
    let SessionEnds {
        source,
        mut sink,
        clock,
    } = take_first(&mut sessions);
    let mut handler = Handler::new(alloc, instance, clock);
    let worked = work(rt, alloc, &mut handler, &mut sink, authorities);
    let (instance, clock, kept) = handler.into_parts();
    let ends = SessionEnds {
        source,
        sink,
        clock,
    };
    put_in_front(&mut sessions, ends);
    let started = Started {
        instance,
        summary,
        disks,
    };
    run_end(ended_by(worked), stop(started), sessions, kept)
}

/// The status of a run that ended so.
fn status_of(fault: &Option<RunFault>) -> u8
    ensures { result ≡ run_status fault.now }
{
    match fault {
        None => 0,
        Some(fault) => fault.status(),
    }
}

/// What a run leaves that ended so.
pub(crate) fn run_end<D: Disk, G: Signer, S: Source, K: Sink, O: Outlet, C: Clock>(
    fault: Option<RunFault>,
    ends: Ends<D, G, O>,
    sessions: Vec<SessionEnds<S, K, C>>,
    kept: Kept<D, O>,
) -> RunEnd<D, G, S, K, O, C>
    ensures status { result.status ≡ run_status fault }
    ensures fault { result.fault ≡ fault }
    ensures ends { result.ends ≡ ends }
    ensures sessions { result.sessions.items ≡ sessions.items }
    ensures kept { result.kept ≡ kept }
{
    RunEnd {
        status: status_of(&fault),
        fault,
        ends,
        sessions,
        kept,
    }
}

// Does what is done with one session.
fn do_one<R: Threads + Sync, D: Disk, G: Signer + Send, S: Source, K: Sink, O: Outlet, C: Clock>(
    rt: &R,
    alloc: Global,
    doing: Doing,
    started: Started<D, G, O>,
    sessions: Vec<SessionEnds<S, K, C>>,
) -> RunEnd<D, G, S, K, O, C>
    requires empty { started.disks.items ≡ [] }
    requires room { most_desks ≤ vec_capacity started.disks }
    requires session { length sessions.items ≡ 1 }
    ensures { (bases : Bases) (random : List ℕ) (ends : Ends D G O) (before : SessionEnds S K C)
        → IsStarted D.Disk G.state O.Outlet bases (session_of random) ends started → sessions.items ≡ before ∷ []
        → DoesOne D.Disk G.state O.Outlet S.Source K.Sink C.Clock doing bases random ends before result }
{
    match doing {
        Doing::Run => serve_one(rt, alloc, started, sessions),
        Doing::Audit => tell_one(alloc, started, sessions),
        Doing::Workload { authorities } => work_one(rt, alloc, authorities, started, sessions),
    }
}

// Does what was asked for over what was opened. With one session `run` goes over the instance itself, since more can be
// said then of what its lines come to; several share desks and press behind locks.
fn do_asked<
    R: Threads + Wait + Sync,
    D: Disk + Send,
    G: Signer + Send,
    S: Source + Send,
    K: Sink + Send,
    O: Outlet + Send,
    C: Clock + Send,
>(
    rt: &R,
    alloc: Global,
    doing: Doing,
    started: Started<D, G, O>,
    sessions: Vec<SessionEnds<S, K, C>>,
) -> RunEnd<D, G, S, K, O, C>
    requires empty { started.disks.items ≡ [] }
    requires room { most_desks ≤ vec_capacity started.disks }
    requires sessions { wrong_sessions doing (length sessions.items) ≡ None }
    requires resumed { (begun : InstanceState) × IsResumedIn O.Outlet started.instance begun }
    ensures { (bases : Bases) (random : List ℕ) (ends : Ends D G O)
        → IsStarted D.Disk G.state O.Outlet bases (session_of random) ends started
        → Does D.Disk G.state O.Outlet S.Source K.Sink C.Clock doing bases random ends sessions.items result }
{
    if sessions.len() == 1 {
        return do_one(rt, alloc, doing, started, sessions);
    }
    serve_many(rt, alloc, started, sessions)
}

// Opens all, and does what was asked for.
fn run_wanted<
    R: Threads + Wait + Sync,
    D: Disk + Send,
    G: Signer + Send,
    S: Source + Send,
    K: Sink + Send,
    O: Outlet + Send,
    C: Clock + Send,
>(
    rt: &R,
    alloc: Global,
    asked: Wanted,
    random: [u8; 32],
    ends: Ends<D, G, O>,
    sessions: Vec<SessionEnds<S, K, C>>,
) -> RunEnd<D, G, S, K, O, C>
    requires desks { length ends.desks.items ≡ most_desks }
    requires signers { length ends.signers.items ≤ 8 }
    requires sessions { wrong_sessions asked.doing (length sessions.items) ≡ None }
    ensures { IsRefusedAtOpening D.Disk G.state O.Outlet asked.site (session_of random) ends sessions.items result
        ⊎ Does D.Disk G.state O.Outlet S.Source K.Sink C.Clock asked.doing asked.site random ends sessions.items result }
{
    match start(alloc, session_of(random), &asked.site, ends) {
        Ok(started) => do_asked(rt, alloc, asked.doing, started, sessions),
        Err(NotStarted { ends, fault }) => run_end(
            Some(opening_fault(fault)),
            ends,
            sessions,
            Kept::new(),
        ),
    }
}

fn wrong_count(what: u32, needed: usize, found: usize) -> RunFault
    ensures { result ≡ faults.Refused (opening.WrongCount what needed found) }
{
    let fault = OpenFault::WrongCount {
        what,
        needed: needed as u64,
        found: found as u64,
    };
    RunFault::Refused { fault }
}

// Why as many are refused before any device is called.
fn miscounted(doing: Doing, sessions: usize, disks: usize, signers: usize) -> Option<RunFault>
    ensures { result ≡ miscounted doing sessions disks signers }
{
    match wrong_sessions(doing, sessions) {
        Some(fault) => Some(fault),
        None => wrong_devices(disks, signers),
    }
}

// `run` serves one to eight sessions; what else is done is told to one.
fn wrong_sessions(doing: Doing, sessions: usize) -> Option<RunFault>
    ensures { result ≡ wrong_sessions doing sessions }
{
    match doing {
        Doing::Run => {
            if sessions == 0 || sessions > MOST_SESSIONS {
                return Some(wrong_count(SESSIONS_WRONG, MOST_SESSIONS, sessions));
            }
        }
        Doing::Audit | Doing::Workload { .. } => {
            if sessions != 1 {
                return Some(wrong_count(SESSIONS_WRONG, 1, sessions));
            }
        }
    }
    None
}

fn wrong_devices(disks: usize, signers: usize) -> Option<RunFault>
    ensures { result ≡ wrong_devices disks signers }
{
    if disks != DESKS {
        return Some(wrong_count(DISKS_WRONG, DESKS, disks));
    }
    if signers == 0 {
        return Some(wrong_count(SIGNERS_WRONG, 1, signers));
    }
    if signers > MOST_SIGNERS {
        return Some(wrong_count(SIGNERS_WRONG, MOST_SIGNERS, signers));
    }
    None
}

// What the words want done, and the bases of the repository.
#[derive(Drop)]
struct Wanted {
    doing: Doing,
    site: Site,
}

fn read_wanted(alloc: Global, words: &[String]) -> Result<Wanted, RunFault>
    ensures wanted { IfOk result (λ wanted. (asked : AskedValue) × (asked_of words.now ≡ Some asked)
        × (wanted.doing ≡ asked.doing) × (wanted.site ≡ bases_of asked)) }
    ensures refused { IfErr result (IsUnwanted words.now) }
{
    let Some(Asked { doing, rsync, rrdp }) = read_words(words) else {
        return Err(RunFault::Words);
    };
    let (rsync, rrdp) = (rsync.unwrap_or(RSYNC_BASE), rrdp.unwrap_or(RRDP_BASE));
    match read_bases(alloc, rsync, rrdp) {
        Ok(site) => Ok(Wanted { doing, site }),
        Err(fault) => Err(fault),
    }
}

/// Does what the words name. `run` opens the 64 desks over their disks, in order, behind them the press over
/// its own, and the instance over all of these; audits what was published last, and exports it; and serves
/// the sessions, one to eight, at the same time: each command goes to the desk of its authority, and what the desks have
/// accepted is published and brought to the outlet. Where the last edition couldn't be, that is tried once more at the
/// end. `audit` opens all so, and gives the session's sink one line that tells of the last edition. `workload`
/// opens all so, gives the commands of a tree of so many authorities where no desk holds a command yet, publishes
/// them, changes a grant and publishes that, and gives the sink a line on each of the two editions. The RRDP session of
/// a new store is drawn from `random`.
///
/// Where opening is refused no source is read and no sink is given anything. All devices come back as they
/// stand. Where several sessions are served it waits, for locks and for the sessions to end, and promises its clauses
/// where it returns.
///
/// Asked before anything is opened, in this order: the words (`Words`), the bases (`Base`), that there are 1 to 8
/// sessions, for `audit` and `workload` just one, that there are 64 desks, and 1 to 8 signers (`WrongCount` with 2, 0
/// and 1).
pub fn run_krill<
    R: Threads + Wait + Sync,
    D: Disk + Send,
    G: Signer + Send,
    S: Source + Send,
    K: Sink + Send,
    O: Outlet + Send,
    C: Clock + Send,
>(
    rt: &R,
    alloc: Global,
    words: &[String],
    random: [u8; 32],
    desks: Vec<D>,
    press: D,
    signers: Vec<G>,
    outlet: O,
    sessions: Vec<SessionEnds<S, K, C>>,
) -> RunEnd<D, G, S, K, O, C>
    ensures words { asked_of words.now ≡ None
        → IsRefusedRun (ends_of desks press signers outlet) sessions.items faults.Words result }
    ensures rsync { (asked : AskedValue) → asked_of words.now ≡ Some asked → ¬ IsBase rsync_scheme (bases_of asked).rsync
        → IsRefusedRun (ends_of desks press signers outlet) sessions.items (faults.Base site.BadRsync) result }
    ensures rrdp { (asked : AskedValue) → asked_of words.now ≡ Some asked → IsBase rsync_scheme (bases_of asked).rsync
        → ¬ IsBase https_scheme (bases_of asked).rrdp
        → IsRefusedRun (ends_of desks press signers outlet) sessions.items (faults.Base site.BadRrdp) result }

    // With words and bases: want of memory for these, or what is wrong in number, or what was asked for.
    ensures asked { (asked : AskedValue) → asked_of words.now ≡ Some asked → AreBases (bases_of asked)
        → IsRefusedRun (ends_of desks press signers outlet) sessions.items faults.Memory result
        ⊎ RunsAs D.Disk G.state O.Outlet S.Source K.Sink C.Clock asked random (ends_of desks press signers outlet) sessions.items result }
{
    let ends = Ends {
        desks,
        press,
        signers,
        outlet,
    };
    let asked = match read_wanted(alloc, words) {
        Ok(asked) => asked,
        Err(fault) => return run_end(Some(fault), ends, sessions, Kept::new()),
    };
    let (disks, signers) = (ends.desks.len(), ends.signers.len());
    match miscounted(asked.doing, sessions.len(), disks, signers) {
        Some(fault) => run_end(Some(fault), ends, sessions, Kept::new()),
        None => run_wanted(rt, alloc, asked, random, ends, sessions),
    }
}
