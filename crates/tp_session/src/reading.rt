//! Reading lines, and answering each.

ghost use Rattle.std.specs.Prelude.{◌≡◌, ℕ, List, Some, [], ◌∷◌, ◌++◌, OnOk, OnErr, IfOk, IfErr, length, take};
ghost use Rattle.std.specs.Io.KnownBytes.{Appends};
ghost use Rattle.tp_requests.specs.Lines.{lines_of, without_return};
ghost use Rattle.tp_answers.specs.Texts.{answer_text};
ghost use Rattle.tp_session.specs.Fitness.{AreFit, HasMembers, AreAsMany};
ghost use Rattle.tp_session.specs.Services.{StaysOn, IsResourceFault, AnswersLine, IsSentInPart};
ghost use Rattle.tp_session.specs.Served.{AreWritten};
ghost use Rattle.tp_session.specs.Points.{Keeps, AtEachPoint, GoesOn, Begins, Fails};

use crate::MAX_LINE;
use crate::fault::ServeFault;
use crate::partial_line::PartialLine;
use crate::service::Service;
use std::alloc::{AllocError, Global};
use std::io::Write;
use std::sync::Wait;
use std::thread::Threads;
use tp_answers::{Answer, LineFault, write_answer};
use tp_link::LinkDevice;
use tp_requests::split_once;

/// The beginning of an input.
pub(crate) fn begin(alloc: Global) -> PartialLine
    ensures { Keeps result 1 [] }
{
    PartialLine {
        number: 1,
        line: Vec::new(alloc),
        long: false,
        room: Vec::new(alloc),
    }
}

/// The line without a carriage return at its end.
fn without_return(line: &[u8]) -> &[u8]
    ensures { result.now ≡ without_return line.now }
{
    match line.last() {
        Some(b'\r') => &line[..line.len() - 1],
        _ => line,
    }
}

/// The answer to the line that is being read, which a line feed has ended or the end of the input.
#[inline(always)]
fn answer<R: Threads + Wait + Sync, D: LinkDevice + Send>(
    service: &mut Service<D>,
    rt: &R,
    alloc: Global,
    partial: &PartialLine,
    ended: bool,
) -> Result<Answer, ServeFault>
    requires { HasMembers service.old.links.items }
    ensures answer { AreFit D.state service.old.links.items → (number : ℕ) (line : List ℕ) →
        Keeps partial.now number line → IfOk result (λ answer.
        AnswersLine record { bytes = line; ended = ended } service.old.sessions answer service.new.sessions) }
    ensures stays { OnOk result (StaysOn D.state service.old service.new) }
    ensures want { IfErr result IsResourceFault }
{
    if partial.long {
        return Ok(Answer::Refused(LineFault::E1));
    }
    let line = partial.line.as_slice();
    if ended {
        service.answer_line(rt, alloc, without_return(line))
    } else {
        service.answer_line(rt, alloc, line)
    }
}

/// Writes a whole text, and flushes it. Where the writer fails, some of its first bytes are written.
pub fn write_whole<W: Write>(writer: &mut W, text: &[u8]) -> Result<(), ServeFault>
    ensures ok { OnOk result (Appends (W.contents writer.old) (W.contents writer.new) text.now) }
    ensures err { OnErr result ((n : ℕ) × Appends (W.contents writer.old) (W.contents writer.new) (take n text.now)) }
    ensures fault { IfErr result (λ e. e ≡ ServeFault.Write) }
{
    let mut rest = text;
    while !rest.is_empty() {
        match writer.write(rest) {
            Ok(0) => return Err(ServeFault::Write),
            Ok(n) => rest = &rest[n..],
            Err(_) => return Err(ServeFault::Write),
        }
    }
    match writer.flush() {
        Ok(()) => Ok(()),
        Err(_) => Err(ServeFault::Write),
    }
}

/// The most room for answers that is kept from one line to the next, in bytes.
const KEPT_ROOM: usize = 4096;

/// Gives back the room of a long answer.
fn give_back(room: &mut Vec<u8>, alloc: Global) {
    if room.capacity() > KEPT_ROOM {
        *room = Vec::new(alloc);
    }
}

/// Writes the answer to the line of a number whole, and flushes it. Its text takes the room of the one before.
#[inline(always)]
fn send<W: Write>(
    writer: &mut W,
    room: &mut Vec<u8>,
    alloc: Global,
    trace: bool,
    number: u64,
    answer: &Answer,
) -> Result<(), ServeFault>
    ensures ok { OnOk result (Appends (W.contents writer.old) (W.contents writer.new)
        (answer_text trace number answer.now)) }
    ensures err { IfErr result (IsSentInPart (W.contents writer.old) (W.contents writer.new)
        (answer_text trace number answer.now)) }
{
    room.clear();
    write_answer(room, alloc, trace, number, answer)?;
    write_whole(writer, room.as_slice())?;
    give_back(room, alloc);
    Ok(())
}

/// Answers the line that is being read, which a line feed has ended, and begins the next.
fn end_line<R: Threads + Wait + Sync, D: LinkDevice + Send, W: Write>(
    partial: &mut PartialLine,
    service: &mut Service<D>,
    rt: &R,
    alloc: Global,
    writer: &mut W,
) -> Result<(), ServeFault>
    requires { HasMembers service.old.links.items }
    ensures ok { AtEachPoint D.state partial.old service.old (W.contents writer.old) (λ trace begun s.
        OnOk result
        (GoesOn D.state trace begun partial.new service.new (W.contents writer.new) (s.taken ++ 10 ∷ []))) }
    ensures err { AtEachPoint D.state partial.old service.old (W.contents writer.old)
        (λ trace begun s. (input : List ℕ) →
        Begins input (s.taken ++ 10 ∷ []) → IfErr result (Fails trace input (s.taken ++ 10 ∷ []) 1 begun
        (W.contents writer.new))) }
    ensures members { OnOk result (AreAsMany service.old.links.items service.new.links.items) }
{
    let answer = answer(service, rt, alloc, partial, true)?;
    send(
        writer,
        &mut partial.room,
        alloc,
        service.trace,
        partial.number,
        &answer,
    )?;
    partial.line.clear();
    partial.long = false;
    partial.number = partial.number.saturating_add(1);
    Ok(())
}

/// Takes more of the line that is being read.
fn take_plain(partial: &mut PartialLine, bytes: &[u8]) -> Result<(), AllocError>
    ensures kept { (number : ℕ) (line : List ℕ) → Keeps partial.old number line →
        OnOk result (Keeps partial.new number (line ++ bytes.now)) }
{
    let kept = bytes.len().min(MAX_LINE - partial.line.len());
    partial.line.extend_from_slice(&bytes[..kept])?;
    if kept < bytes.len() {
        partial.long = true;
    }
    Ok(())
}

/// Takes some bytes of the input, and answers the lines that they end.
pub(crate) fn feed<R: Threads + Wait + Sync, D: LinkDevice + Send, W: Write>(
    partial: &mut PartialLine,
    service: &mut Service<D>,
    rt: &R,
    alloc: Global,
    writer: &mut W,
    bytes: &[u8],
) -> Result<(), ServeFault>
    requires { HasMembers service.old.links.items }
    ensures ok { AtEachPoint D.state partial.old service.old (W.contents writer.old) (λ trace begun s.
        OnOk result
        (GoesOn D.state trace begun partial.new service.new (W.contents writer.new) (s.taken ++ bytes.now))) }
    ensures err { AtEachPoint D.state partial.old service.old (W.contents writer.old)
        (λ trace begun s. (input : List ℕ) →
        Begins input (s.taken ++ bytes.now) →
        IfErr result (Fails trace input (s.taken ++ bytes.now) (length bytes.now) begun (W.contents writer.new))) }
    ensures members { OnOk result (AreAsMany service.old.links.items service.new.links.items) }
{
    let mut rest = bytes;
    while let Some((line, behind)) = split_once(rest, b'\n') {
        take_plain(partial, line)?;
        end_line(partial, service, rt, alloc, writer)?;
        rest = behind;
    }
    take_plain(partial, rest)?;
    Ok(())
}

/// Answers what is left at the end of the input.
pub(crate) fn finish<R: Threads + Wait + Sync, D: LinkDevice + Send, W: Write>(
    partial: &mut PartialLine,
    service: &mut Service<D>,
    rt: &R,
    alloc: Global,
    writer: &mut W,
) -> Result<(), ServeFault>
    requires { HasMembers service.old.links.items }
    ensures ok { AtEachPoint D.state partial.old service.old (W.contents writer.old) (λ trace begun s.
        OnOk result (AreWritten trace (lines_of s.taken) begun (W.contents writer.new))) }
    ensures err { AtEachPoint D.state partial.old service.old (W.contents writer.old) (λ trace begun s.
        IfErr result (Fails trace s.taken s.taken 0 begun (W.contents writer.new))) }
{
    if partial.line.is_empty() {
        return Ok(());
    }
    let answer = answer(service, rt, alloc, partial, false)?;
    send(
        writer,
        &mut partial.room,
        alloc,
        service.trace,
        partial.number,
        &answer,
    )
}
