//! A workload: commands that are generated, given, published, and told of in a line.

ghost use Rattle.std.specs.Prelude.{◌≡◌, [], Ok, IfOk, OnOk, string_bytes};
ghost use Rattle.editions.specs.declared.published_state.PublishedNumbers.{PublishedNumbers};
ghost use Rattle.krill_top.specs.Generated as given;
ghost use Rattle.krill_top.specs.Summaries.{workload_line};
ghost use Rattle.krill_top.specs.Telling.{Tells};
ghost use Rattle.krill_top.specs.Working as spec;
ghost use Rattle.krill_top.specs.Working.{IsGiven, AreGiven, IsMade, GoesOn, DoesPart, Works};
ghost use Rattle.krill_top.specs.inner.Instances.{MovesTimed};
ghost use Rattle.krill_top.specs.inner.Handlers.{timed, worked};

use crate::faults::RunFault;
use crate::generated::{Directed, Wanted, generated};
use crate::handler::Handler;
use crate::sinks::{graver, told};
use disk_api::Disk;
use editions::PublishedNumbers;
use line_loop::{Clock, Sink};
use outlet_api::Outlet;
use signer_api::Signer;
use std::alloc::{AllocError, Global};
use std::thread::Threads;

/// Gives the commands of so many authorities, publishes them and tells of that, and then the one that grants
/// the first of them less. The first step that is refused or fails ends it: a reply is told in place of the
/// next line, and that is a fault where memory is wanting, the last export failed or the sink did.
pub(crate) fn work<R: Threads + Sync, D: Disk, G: Signer + Send, K: Sink, O: Outlet, C: Clock>(
    rt: &R,
    alloc: Global,
    handler: &mut Handler<D, G, O, C>,
    sink: &mut K,
    authorities: u8,
) -> Result<(), Option<RunFault>>
    ensures { MovesTimed D.Disk O.Outlet (λ b a. Works K.Sink authorities result (worked sink.old b) (worked sink.new a)) (timed C.Clock handler.old) (timed C.Clock handler.new) }
{
    match generated(alloc, authorities) {
        Ok(commands) => do_parts(rt, alloc, handler, sink, authorities, commands.as_slice()),
        Err(_) => Err(Some(RunFault::Memory)),
    }
}

// Does so with the generated commands.
fn do_parts<R: Threads + Sync, D: Disk, G: Signer + Send, K: Sink, O: Outlet, C: Clock>(
    rt: &R,
    alloc: Global,
    handler: &mut Handler<D, G, O, C>,
    sink: &mut K,
    authorities: u8,
    commands: &[Wanted],
) -> Result<(), Option<RunFault>>
    requires { commands.now ≡ given.generated authorities }
    ensures { MovesTimed D.Disk O.Outlet (λ b a. Works K.Sink authorities result (worked sink.old b) (worked sink.new a)) (timed C.Clock handler.old) (timed C.Clock handler.new) }
{
    let count = commands.len() as u64;
    match do_part(rt, alloc, handler, sink, authorities, count, commands) {
        Ok(()) => do_part(
            rt,
            alloc,
            handler,
            sink,
            authorities,
            count + 1,
            &[Wanted::Shrink],
        ),
        Err(fault) => Err(fault),
    }
}

// What is wrong where a workload ended so.
pub(crate) fn ended_by(worked: Result<(), Option<RunFault>>) -> Option<RunFault>
    ensures { result ≡ spec.ended_by worked }
{
    match worked {
        Ok(()) => None,
        Err(fault) => fault,
    }
}

// Gives these commands, behind which so many are accepted, publishes what was accepted and tells of it.
fn do_part<R: Threads + Sync, D: Disk, G: Signer + Send, K: Sink, O: Outlet, C: Clock>(
    rt: &R,
    alloc: Global,
    handler: &mut Handler<D, G, O, C>,
    sink: &mut K,
    authorities: u8,
    count: u64,
    commands: &[Wanted],
) -> Result<(), Option<RunFault>>
    ensures { MovesTimed D.Disk O.Outlet (λ b a. DoesPart K.Sink authorities count commands.now result (worked sink.old b) (worked sink.new a)) (timed C.Clock handler.old) (timed C.Clock handler.new) }
{
    let mut reply = Vec::new(alloc);
    match give_and_publish(rt, alloc, handler, commands, &mut reply) {
        Ok(published) => go_on(tell_line(alloc, sink, authorities, count, published)),
        Err(fault) => Err(graver(told(alloc, sink, reply.as_slice()), fault)),
    }
}

// It goes on where the line was given whole.
fn go_on(stopped: Option<RunFault>) -> Result<(), Option<RunFault>>
    ensures { (published : PublishedNumbers) → GoesOn (Ok published) stopped result }
{
    match stopped {
        None => Ok(()),
        Some(fault) => Err(Some(fault)),
    }
}

// Tells of what was published.
fn tell_line<K: Sink>(
    alloc: Global,
    sink: &mut K,
    authorities: u8,
    count: u64,
    published: PublishedNumbers,
) -> Option<RunFault>
    ensures { Tells K.Sink (workload_line authorities count published) result sink.old sink.new }
{
    let Ok(line) = line_of(alloc, authorities, count, published) else {
        return Some(RunFault::Memory);
    };
    told(alloc, sink, line.as_bytes())
}

fn line_of(
    alloc: Global,
    authorities: u8,
    count: u64,
    published: PublishedNumbers,
) -> Result<String, AllocError>
    ensures { IfOk result (λ text. string_bytes text ≡ workload_line authorities count published) }
{
    let PublishedNumbers {
        serial,
        objects,
        origins,
        ..
    } = published;
    format!(in alloc;
        "{{\"authorities\":{authorities},\"commands\":{count},\"objects\":{objects},\"origins\":{origins},\"serial\":{serial}}}\n"
    )
}

// Gives the commands, and publishes what was accepted where all of them were.
fn give_and_publish<R: Threads + Sync, D: Disk, G: Signer + Send, O: Outlet, C: Clock>(
    rt: &R,
    alloc: Global,
    handler: &mut Handler<D, G, O, C>,
    commands: &[Wanted],
    reply: &mut Vec<u8>,
) -> Result<PublishedNumbers, Option<RunFault>>
    requires { reply.old.items ≡ [] }
    ensures { MovesTimed D.Disk O.Outlet (λ b a. IsMade commands.now reply.new.items result b a) (timed C.Clock handler.old) (timed C.Clock handler.new) }
{
    match give_all(alloc, handler, commands, reply) {
        Ok(()) => handler.publish(rt, alloc, reply),
        Err(fault) => Err(fault),
    }
}

// Gives the commands in order, up to the first that isn't accepted.
fn give_all<D: Disk, G: Signer, O: Outlet, C: Clock>(
    alloc: Global,
    handler: &mut Handler<D, G, O, C>,
    commands: &[Wanted],
    reply: &mut Vec<u8>,
) -> Result<(), Option<RunFault>>
    requires { reply.old.items ≡ [] }
    ensures given { MovesTimed D.Disk O.Outlet (λ b a. AreGiven commands.now reply.new.items result b a) (timed C.Clock handler.old) (timed C.Clock handler.new) }
    ensures empty { OnOk result (reply.new.items ≡ []) }
{
    for wanted in commands {
        match give(alloc, handler, *wanted, reply) {
            Ok(()) => {}
            Err(fault) => return Err(fault),
        }
    }
    Ok(())
}

fn give<D: Disk, G: Signer, O: Outlet, C: Clock>(
    alloc: Global,
    handler: &mut Handler<D, G, O, C>,
    wanted: Wanted,
    reply: &mut Vec<u8>,
) -> Result<(), Option<RunFault>>
    requires { reply.old.items ≡ [] }
    ensures given { MovesTimed D.Disk O.Outlet (λ b a. IsGiven wanted reply.new.items result b a) (timed C.Clock handler.old) (timed C.Clock handler.new) }
    ensures empty { OnOk result (reply.new.items ≡ []) }
{
    match wanted.command(alloc) {
        Ok(directed) => {
            let Directed { name, command } = directed;
            handler.give(alloc, &name, command, reply)
        }
        Err(_) => Err(Some(RunFault::Memory)),
    }
}
