//! A whole run, printed line by line.

use crate::doing::Doing;
use crate::lines::Lines;
use crate::operand::NamedInstr;
use crate::prefixes::prefixes_at;
use crate::reach::{Reach, reach_of};
use crate::reason::{Reason, Snapshot, instruction_at, why, words_on};
use crate::span::Span;
use crate::stepper::Stepper;
use crate::value::{Style, Value};
use crate::watched::Watched;
use crate::workspace::{Change, Values, Workspace, Written};
use std::alloc::{AllocError, Global};
use std::io::Write;
use tp_decode::Instr;
use tp_image::Image;
use tp_link::{Link, LinkDevice, LinkFault, Links, Media};
use tp_step::profile::{self, MEM_START};
use tpw_debug::{ShowFault, SourceText};
use tpw_machine::{Registers, Turn};

/// The longest packet, result or trace message, in bytes.
pub(crate) const ROOM: usize = 256;

/// The bytes of a word, signed.
const WORD_BYTES: i32 = profile::WORD_BYTES as i32;

/// The most instructions that are run.
pub(crate) const MAX_INSTRUCTIONS: u64 = 16_777_216;

/// How a run was left.
#[derive(Clone, Copy, Debug, PartialEq, Eq)]
pub enum End {
    /// The worker stopped.
    Stopped,
    /// No step exists, at this address.
    Stuck(i64, Reason),
    /// A device refused a call.
    Refused(LinkFault),
    /// It came to the place at which it was to be left.
    Left,
    /// The most instructions were run.
    Unended,
}

/// The options of a run that is shown.
#[derive(Clone, Copy)]
pub struct Shown<'a> {
    /// Which instructions are.
    pub span: Span,
    /// Where there are some, only instructions that change one of these bytes are.
    pub watched: &'a [Watched],
    /// Debug information of the code.
    pub source: SourceText<'a>,
    /// Whether each number has its hexadecimal behind it.
    pub hexadecimal: bool,
    /// Whether a line is a statement of the text, and what it does, in place of an instruction.
    pub statements: bool,
}

impl<'a> Shown<'a> {
    /// How values are written at an instruction.
    pub(crate) fn style(&self, at: i64) -> Style<'a> {
        Style {
            source: match usize::try_from(at) {
                Ok(at) => self.source.at(at),
                Err(_) => self.source,
            },
            hexadecimal: self.hexadecimal,
        }
    }
}

/// The messages that a run has sent.
#[derive(Drop)]
struct Sent {
    result: Vec<u8>,
    trace: Vec<u8>,
}

/// Takes what a device holds, and keeps it behind other bytes. What it took comes back, as hexadecimal.
fn taken<D: LinkDevice>(
    alloc: Global,
    device: &mut D,
    kept: &mut Vec<u8>,
) -> Result<String, AllocError> {
    let held = device.held().min(ROOM);
    if held == 0 {
        return Ok(String::new(alloc));
    }
    let mut bytes = [0; ROOM];
    let message = &mut bytes[..held];
    match device.receive(message) {
        Ok(()) => {
            kept.extend_from_slice(message)?;
            hex::encode(alloc, message)
        }
        Err(_) => Ok(String::new(alloc)),
    }
}

/// Writes an instruction and the registers after it: Wptr as the number of the word that it points at.
fn write_registers<W: Write>(
    writer: &mut W,
    count: u64,
    made: &Made,
    after: &Registers,
    style: Style<'_>,
) -> Result<(), ShowFault> {
    let at = made.at;
    let written = match made.instr {
        Some(instr) => {
            let instr = NamedInstr {
                instr,
                wptr: word_of(&made.before),
                source: style.source,
            };
            write!(writer, "{count} {at} {instr}:")
        }
        None => write!(writer, "{count} {at} ?:"),
    };
    written.map_err(|_| ShowFault::Write)?;
    write_values(writer, after, style)
}

/// The number of the word that Wptr points at.
fn word_of(registers: &Registers) -> i32 {
    registers.wptr.wrapping_sub(MEM_START).cast_signed() / WORD_BYTES
}

/// Writes the registers.
fn write_values<W: Write>(
    writer: &mut W,
    registers: &Registers,
    style: Style<'_>,
) -> Result<(), ShowFault> {
    let value = |word| Value { word, style };
    let a = value(registers.areg);
    let b = value(registers.breg);
    let c = value(registers.creg);
    let wptr = word_of(registers);
    let flag = u8::from(registers.error);
    write!(writer, " A {a} B {b} C {c} Wptr {wptr} flag {flag}").map_err(|_| ShowFault::Write)
}

/// Writes the line of the text that says the instruction at an address.
fn write_statement<W: Write>(writer: &mut W, at: i64, lines: &Lines<'_>) -> Result<(), ShowFault> {
    match lines.at(at) {
        Some(statement) => {
            let line = statement.line;
            let text = statement.text;
            write!(writer, "  ; line {line}: {text}").map_err(|_| ShowFault::Write)
        }
        None => Ok(()),
    }
}

/// Writes a word and bytes after it, where there are some.
pub(crate) fn write_message<W: Write>(
    writer: &mut W,
    name: &str,
    bytes: &str,
) -> Result<(), ShowFault> {
    if bytes.is_empty() {
        Ok(())
    } else {
        write!(writer, " {name} {bytes}").map_err(|_| ShowFault::Write)
    }
}

/// How far a run is.
#[derive(Clone, Copy)]
struct Progress {
    /// Steps made, prefixes counted.
    count: u64,
    /// The address of the last instruction.
    last: i64,
    /// Whether it has reached where printing begins.
    is_shown: bool,
}

impl Progress {
    /// Whether the run is left here; and from here on it is printed where the span begins.
    fn comes_to(&mut self, span: Span, at: i64) -> bool {
        let begins = match span.from {
            Some(place) => place.is_at(at, self.count),
            None => true,
        };
        self.is_shown = self.is_shown || begins;
        match span.until {
            Some(place) => self.is_shown && place.is_at(at, self.count),
            None => false,
        }
    }
}

/// How a run is left by what became of an instruction, if it is.
fn left(turn: Option<Turn>, snapshot: Snapshot<'_>) -> Option<End> {
    match turn {
        None => Some(End::Stopped),
        Some(Turn::Made) => None,
        Some(Turn::Refused(fault)) => Some(End::Refused(fault)),
        Some(Turn::Stuck) => Some(End::Stuck(snapshot.registers.iptr, why(snapshot))),
    }
}

/// An instruction that was made: its address, what it is, the registers before it, the words that it changed, and a
/// message that it sent, in hexadecimal.
#[derive(Drop)]
pub(crate) struct Made {
    pub(crate) at: i64,
    pub(crate) instr: Option<Instr>,
    pub(crate) before: Registers,
    pub(crate) changes: Vec<Change>,
    pub(crate) result: String,
    pub(crate) trace: String,
}

impl Made {
    /// The word that it stores a value in, by its number, and the first byte in that, if it is no message and no loop's.
    pub(crate) fn stored(&self) -> Option<(usize, u32)> {
        let registers = self.before;
        let address = match self.instr? {
            Instr::Stl(n) => words_on(registers.wptr, n),
            Instr::Stnl(n) => words_on(registers.areg?, n),
            Instr::Sb => registers.areg?,
            _ => return None,
        };
        let bytes = address.checked_sub(MEM_START)?;
        let word = bytes / profile::WORD_BYTES;
        Some((word as usize, bytes % profile::WORD_BYTES))
    }
}

/// A run: where it is, the words that stand there, the instruction that was made last, what it has sent, and how far it
/// is.
#[derive(Drop)]
pub(crate) struct Run {
    stepper: Stepper,
    stands: Workspace,
    pub(crate) made: Made,
    sent: Sent,
    progress: Progress,
}

/// Whether an instruction may send a message.
fn may_send(instr: Option<Instr>) -> bool {
    match instr {
        Some(instr) => instr == Instr::Output,
        None => true,
    }
}

impl Run {
    /// The start of a packet's run of an image.
    fn new(alloc: Global, image: Image) -> Result<Run, AllocError> {
        let stepper = Stepper::new(image);
        let stands = Workspace::of(alloc, &stepper)?;
        let before = stepper.registers();
        let progress = Progress {
            count: 0,
            last: before.iptr,
            is_shown: false,
        };
        Ok(Run {
            stepper,
            stands,
            made: Made {
                at: before.iptr,
                instr: None,
                before,
                changes: Vec::new(alloc),
                result: String::new(alloc),
                trace: String::new(alloc),
            },
            sent: Sent {
                result: Vec::new(alloc),
                trace: Vec::new(alloc),
            },
            progress,
        })
    }

    /// A word where it is, if it is defined.
    pub(crate) fn word(&self, number: usize) -> Option<u32> {
        self.stands.word(number)
    }

    /// The steps made.
    pub(crate) fn count(&self) -> u64 {
        self.progress.count
    }

    /// Whether it has come to where printing begins.
    pub(crate) fn is_shown(&self) -> bool {
        self.progress.is_shown
    }

    /// Whether its error flag is set.
    pub(crate) fn has_flag(&self) -> bool {
        self.stepper.registers().error
    }

    /// Takes what the devices hold, where the instruction that was made may have sent it.
    fn take_sent<D: LinkDevice>(
        &mut self,
        alloc: Global,
        links: &mut Links<D>,
    ) -> Result<(), AllocError> {
        self.made.result.clear();
        self.made.trace.clear();
        if may_send(self.made.instr) {
            self.made.result = taken(alloc, &mut links.sink, &mut self.sent.result)?;
            self.made.trace = taken(alloc, &mut links.trace, &mut self.sent.trace)?;
        }
        Ok(())
    }

    /// Takes over the words that the instruction that was made has changed.
    fn take_changes(&mut self) -> Result<(), AllocError> {
        self.made.changes.clear();
        let reach = match self.made.instr {
            Some(instr) => reach_of(instr, &self.made.before),
            None => Some(Reach::ALL),
        };
        match reach {
            Some(reach) => self
                .stands
                .refresh(&self.stepper, reach, &mut self.made.changes),
            None => Ok(()),
        }
    }

    /// Makes one instruction, before which the registers are these. How the run is left comes back, if it is.
    fn make_one<D: LinkDevice>(
        &mut self,
        alloc: Global,
        before: Registers,
        links: &mut Links<D>,
    ) -> Result<Option<End>, ShowFault> {
        let at = before.iptr;
        let phase = self.stepper.phase();
        let turn = self.stepper.next(links);
        if !matches!(turn, Some(Turn::Made)) {
            let snapshot = Snapshot {
                image: self.stepper.image(),
                registers: before,
                phase,
                workspace: &self.stands,
            };
            return Ok(left(turn, snapshot));
        }
        let code = self.stepper.image().code.as_slice();
        let bytes = (prefixes_at(code, at) as u64).saturating_add(1);
        self.made.at = at;
        self.made.instr = instruction_at(code, at);
        self.made.before = before;
        self.progress.count = self.progress.count.saturating_add(bytes);
        self.progress.last = at;
        self.take_changes()?;
        self.take_sent(alloc, links)?;
        Ok(None)
    }
}

/// Writes the line of an instruction that was made, where it is to be shown.
fn write_made<W: Write>(
    run: &Run,
    shown: Shown<'_>,
    lines: &Lines<'_>,
    writer: &mut W,
) -> Result<(), ShowFault> {
    let made = &run.made;
    let is_watched = !shown.watched.is_empty();
    if !run.progress.is_shown || (is_watched && made.changes.is_empty()) {
        return Ok(());
    }
    let style = shown.style(made.at);
    let written = Written {
        changes: &made.changes,
        style,
    };
    if is_watched && !written.changes(shown.watched) {
        return Ok(());
    }
    let count = run.progress.count;
    let behind = run.stepper.registers();
    write_registers(writer, count, made, &behind, style)?;
    write!(writer, "{written}").map_err(|_| ShowFault::Write)?;
    write_message(writer, "result", made.result.as_str())?;
    write_message(writer, "trace", made.trace.as_str())?;
    write_statement(writer, made.at, lines)?;
    writeln!(writer).map_err(|_| ShowFault::Write)
}

/// Writes the state in which a run was left: its registers, and the words that are defined and are not 0.
fn write_state<W: Write>(
    stepper: &Stepper,
    stands: &Workspace,
    style: Style<'_>,
    writer: &mut W,
) -> Result<(), ShowFault> {
    write!(writer, "state").map_err(|_| ShowFault::Write)?;
    write_values(writer, &stepper.registers(), style)?;
    let values = Values {
        workspace: stands,
        style,
    };
    writeln!(writer, "{values}").map_err(|_| ShowFault::Write)
}

/// Writes the outcome of a run: how it was left, its result, its trace, the error flag and the steps made.
fn write_end<W: Write>(
    alloc: Global,
    stepper: &Stepper,
    sent: &Sent,
    count: u64,
    end: End,
    writer: &mut W,
) -> Result<(), ShowFault> {
    let at = stepper.registers().iptr;
    let written = match end {
        End::Stopped => writeln!(writer, "stopped"),
        End::Stuck(at, reason) => writeln!(writer, "stuck at {at}: {reason}"),
        End::Refused(
            LinkFault {
                link: Link::Source,
                ..
            },
        ) => writeln!(
            writer,
            "refused: no packet is given, or one that is too short"
        ),
        End::Refused(fault) => writeln!(writer, "refused: {fault}"),
        End::Left => writeln!(writer, "left at {at}"),
        End::Unended => {
            writeln!(
                writer,
                "not ended after {MAX_INSTRUCTIONS} instructions, at {at}"
            )
        }
    };
    written.map_err(|_| ShowFault::Write)?;
    let result = hex::encode(alloc, sent.result.as_slice())?;
    let trace = hex::encode(alloc, sent.trace.as_slice())?;
    let flag = u8::from(stepper.registers().error);
    writeln!(writer, "result {result}").map_err(|_| ShowFault::Write)?;
    writeln!(writer, "trace {trace}").map_err(|_| ShowFault::Write)?;
    writeln!(writer, "flag {flag}").map_err(|_| ShowFault::Write)?;
    writeln!(writer, "count {count}").map_err(|_| ShowFault::Write)
}

/// Runs a packet of an image from its start. Writes a line for each instruction that is to be shown, and then the run's
/// outcome.
pub fn show_run<W: Write>(
    alloc: Global,
    image: Image,
    packet: &[u8],
    shown: Shown<'_>,
    writer: &mut W,
) -> Result<End, ShowFault> {
    let mut media = Media::with_rooms(alloc, packet.len(), ROOM, ROOM)?;
    let mut links = media.wires();
    let _ = links.source.send(packet);
    let lines = Lines::of(alloc, shown.source, image.code.len())?;
    let mut run = Run::new(alloc, image)?;
    let mut doing = Doing::new(alloc);
    let mut end = End::Unended;
    for _ in 0..MAX_INSTRUCTIONS {
        let before = run.stepper.registers();
        if run.progress.comes_to(shown.span, before.iptr) {
            end = End::Left;
            break;
        }
        if let Some(how) = run.make_one(alloc, before, &mut links)? {
            end = how;
            break;
        }
        if shown.statements {
            doing.take(alloc, &run, shown, &lines, writer)?;
        } else {
            write_made(&run, shown, &lines, writer)?;
        }
    }
    doing.write(shown, &lines, writer)?;
    let style = shown.style(run.progress.last);
    write_end(
        alloc,
        &run.stepper,
        &run.sent,
        run.progress.count,
        end,
        writer,
    )?;
    write_state(&run.stepper, &run.stands, style, writer)?;
    Ok(end)
}
