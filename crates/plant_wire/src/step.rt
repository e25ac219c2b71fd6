//! Answers the request at the front of the received bytes, and then all that are complete. An answer is written whole
//! before the next call is made.

ghost use Rattle.std.specs.Prelude.{◌≡◌, IfErr, List, ℕ};
ghost use Rattle.plant_types.specs.Results.{OnlyMemory};
ghost use Rattle.plant_books.specs.Books.{WasHonest};
ghost use Rattle.plant_wire_answer.specs.Answers.{answer_bytes};
ghost use Rattle.plant_wire_call.specs.Cut.{IsCutOf, WaitsBelow};
ghost use Rattle.plant_wire.specs.{Marks.{begun, said}, Over.{RanWith}, Step.{IsAnswer, IsPut, IsRest, IsStep, Stalls, StopsFor}};
ghost use Rattle.plant_model.specs.declared.call.Call.{Call};
ghost use Rattle.plant_model.specs.declared.reply.Answer.TheVariants as answers;
ghost use Rattle.plant_wire.specs.Causes as spec;

use crate::causes::cause_text;
use crate::faults::fault_text;
use crate::put::{bytes_from, put_all};
use crate::streams::Outlet;
use plant_model::{Answer, Call};
use plant_office::{Books, Office};
use plant_types::Fault;
use plant_wire_answer::render;
use plant_wire_call::{Cause, Cut, Look, look_with};
use plant_wire_head::FieldRoom;
use plant_wire_route::Routes;
use std::alloc::Global;

/// What requests are parsed with, allocated once and used for one request after another.
#[derive(Drop)]
pub struct Parser {
    /// The routes.
    pub routes: Routes,
    /// Space for the fields of a head.
    pub room: FieldRoom,
}

impl Parser {
    /// Allocates it.
    pub fn new(alloc: Global) -> Result<Parser, Fault>
        ensures { OnlyMemory result }
    {
        Ok(Parser {
            routes: Routes::new(alloc)?,
            room: FieldRoom::new(alloc)?,
        })
    }
}

/// What stood at the front: an incomplete request, which stays so with fewer bytes than this number (`Waits`); a
/// request of this length in bytes, which was answered (`Took`); or bytes that are not a request (`Broken`).
#[derive(Clone, Copy, Debug)]
pub enum Step {
    Waits(usize),
    Took(usize),
    Broken,
}

/// Why a session stops in the middle of an answer.
#[derive(Clone, Copy, Debug)]
pub enum Stop {
    WriteFailed,
    Fault,
}

/// What is left after all whole requests: where it begins, and the number of bytes below which it stays incomplete.
#[derive(Clone, Copy, Debug)]
pub(crate) enum Rest {
    Waits(usize, usize),
    Broken,
}

fn put_text<O: Outlet>(outlet: &mut O, text: &[u8]) -> Result<(), Stop>
    ensures does { IsPut (O.written outlet.old) (O.written outlet.new) text.now result }
    ensures stalls { Stalls (O.failures outlet.old) (O.failures outlet.new) result }
    ensures only { IfErr result (λ stop. stop ≡ Stop.WriteFailed) }
{
    match put_all(outlet, text) {
        Ok(()) => Ok(()),
        Err(_) => Err(Stop::WriteFailed),
    }
}

/// Writes the answer to a malformed request. It takes no memory, so only a failed write can stop it.
fn put_cause<O: Outlet>(outlet: &mut O, cause: Cause) -> Result<(), Stop>
    ensures does { IsPut (O.written outlet.old) (O.written outlet.new)
        (spec.cause_text cause) result }
    ensures stalls { Stalls (O.failures outlet.old) (O.failures outlet.new) result }
    ensures only { IfErr result (λ stop. stop ≡ Stop.WriteFailed) }
{
    put_text(outlet, cause_text(cause))
}

/// Writes the answer to a call that got a fault. It takes no memory either.
fn put_fault<O: Outlet>(outlet: &mut O, fault: &Fault) -> Result<(), Stop>
    ensures does { IsPut (O.written outlet.old) (O.written outlet.new)
        (answer_bytes (answers.Fault fault.now)) result }
    ensures stalls { Stalls (O.failures outlet.old) (O.failures outlet.new) result }
    ensures only { IfErr result (λ stop. stop ≡ Stop.WriteFailed) }
{
    put_text(outlet, fault_text(fault))
}

fn put_answer<O: Outlet>(alloc: Global, outlet: &mut O, answer: &Answer) -> Result<(), Stop>
    ensures does { IsPut (O.written outlet.old) (O.written outlet.new) (answer_bytes answer.now) result }
    ensures stalls { Stalls (O.failures outlet.old) (O.failures outlet.new) result }
{
    match render(alloc, answer) {
        Ok(text) => put_text(outlet, &text),
        Err(_) => Err(Stop::Fault),
    }
}

/// Writes an answer. If it is a fault, this takes no memory.
fn put_answer_or_fault<O: Outlet>(
    alloc: Global,
    outlet: &mut O,
    answer: &Answer,
) -> Result<(), Stop>
    ensures does { IsPut (O.written outlet.old) (O.written outlet.new) (answer_bytes answer.now) result }
    ensures stalls { Stalls (O.failures outlet.old) (O.failures outlet.new) result }
    ensures why { (call : Call) → IfErr result (StopsFor (begun (said call answer.now))) }
{
    match answer {
        Answer::Fault(fault) => put_fault(outlet, fault),
        other => put_answer(alloc, outlet, other),
    }
}

fn answer_call<O: Outlet, B: Books>(
    alloc: Global,
    outlet: &mut O,
    office: &mut Office<B>,
    call: &Call,
) -> Result<(), Stop>
    ensures does { IsAnswer (O.written outlet.old) (O.written outlet.new)
        (RanWith B.Books office.old office.new) call.now result }
    ensures honest { WasHonest B.is_honest office.old.books office.new.books }
    ensures stalls { Stalls (O.failures outlet.old) (O.failures outlet.new) result }
{
    let answer = office.serve(call);
    let put = put_answer_or_fault(alloc, outlet, &answer);
    drop(answer);
    put
}

/// Answers the request that was cut off the front, if it is whole. If it is not, it stays incomplete with fewer than
/// `wanted` bytes.
fn answer_cut<O: Outlet, B: Books>(
    alloc: Global,
    cut: &Cut,
    wanted: usize,
    outlet: &mut O,
    office: &mut Office<B>,
) -> Result<Step, Stop>
    ensures does { (bytes : List ℕ) → IsCutOf bytes cut.now → WaitsBelow bytes wanted
        → IsStep bytes (O.written outlet.old) (O.written outlet.new)
        (RanWith B.Books office.old office.new) result }
    ensures honest { WasHonest B.is_honest office.old.books office.new.books }
    ensures stalls { Stalls (O.failures outlet.old) (O.failures outlet.new) result }
{
    match cut {
        Cut::More => Ok(Step::Waits(wanted)),
        Cut::Fault => Err(Stop::Fault),
        Cut::Broken(cause) => match put_cause(outlet, *cause) {
            Ok(()) => Ok(Step::Broken),
            Err(stop) => Err(stop),
        },
        Cut::Malformed(cause, n) => match put_cause(outlet, *cause) {
            Ok(()) => Ok(Step::Took(*n)),
            Err(stop) => Err(stop),
        },
        Cut::Call(call, n) => match answer_call(alloc, outlet, office, call) {
            Ok(()) => Ok(Step::Took(*n)),
            Err(stop) => Err(stop),
        },
    }
}

/// Answers the request at the front of the bytes, if it is whole.
pub fn answer_next<O: Outlet, B: Books>(
    alloc: Global,
    parser: &mut Parser,
    bytes: &[u8],
    outlet: &mut O,
    office: &mut Office<B>,
) -> Result<Step, Stop>
    ensures does { IsStep bytes.now (O.written outlet.old) (O.written outlet.new)
        (RanWith B.Books office.old office.new) result }
    ensures honest { WasHonest B.is_honest office.old.books office.new.books }
    ensures stalls { Stalls (O.failures outlet.old) (O.failures outlet.new) result }
{
    let Look { cut, wanted } = look_with(alloc, &parser.routes, &mut parser.room, bytes);
    let step = answer_cut(alloc, &cut, wanted, outlet, office);
    drop(cut);
    step
}

/// Answers all whole requests at the front of the bytes. With fewer than `wanted` bytes none is whole, and they are not
/// parsed.
pub(crate) fn answer_all<O: Outlet, B: Books>(
    alloc: Global,
    parser: &mut Parser,
    bytes: &[u8],
    wanted: usize,
    outlet: &mut O,
    office: &mut Office<B>,
) -> Result<Rest, Stop>
    requires { WaitsBelow bytes.now wanted }
    ensures does { IsRest bytes.now (O.written outlet.old) (O.written outlet.new)
        (RanWith B.Books office.old office.new) result }
    ensures honest { WasHonest B.is_honest office.old.books office.new.books }
    ensures stalls { Stalls (O.failures outlet.old) (O.failures outlet.new) result }
{
    if bytes.len() < wanted {
        return Ok(Rest::Waits(0, wanted));
    }
    let mut at = 0;
    'items: loop {
        match answer_next(alloc, parser, bytes_from(bytes, at), outlet, office) {
            Err(stop) => return Err(stop),
            Ok(Step::Waits(more)) => return Ok(Rest::Waits(at, more)),
            Ok(Step::Broken) => return Ok(Rest::Broken),
            Ok(Step::Took(n)) => at += n,
        }
    }
}
