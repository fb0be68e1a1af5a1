//! Why there is no step.

use crate::prefixes::prefixes_at;
use crate::workspace::Workspace;
use thiserror::Error;
use tp_decode::Instr;
use tp_image::{Image, Version};
use tp_prefix::read_one;
use tp_step::profile::{
    FRAME_WORDS, LINK0_INPUT, LINK0_OUTPUT, LINK1_OUTPUT, MAX_MOVE_BYTES, MAX_TRACE_BYTES,
    WORD_BYTES,
};
use tpw_machine::{Phase, Registers};

/// The bytes below Wptr that are undefined where a worker may give way.
const BELOW: u32 = FRAME_WORDS * WORD_BYTES;

/// Why a worker is snapshot.
#[derive(Clone, Copy, Debug, PartialEq, Eq, Error)]
pub enum Reason {
    #[error("no code byte stands there")]
    OutsideCode,
    #[error("no instruction of the profile is coded so")]
    NoInstruction,
    #[error("Areg is undefined")]
    Areg,
    #[error("Breg is undefined")]
    Breg,
    #[error("Creg is undefined")]
    Creg,
    #[error("an address lies outside the workspace")]
    OutsideWorkspace,
    #[error("the address of a word is no multiple of 4")]
    NotAWord,
    #[error("a word that is read is undefined, or a byte of it")]
    Undefined,
    #[error("the five words below Wptr do not lie in the workspace")]
    Below,
    #[error("this is not the receipt of the packet: link 0, its length, and once")]
    NotThePacket,
    #[error("this is neither the result (link 0, its length, after the packet, once) nor a trace message (link 1, 1 to 64 words)")]
    NotAMessage,
    #[error("the worker stops before it has sent its result")]
    StopsEarly,
    #[error("the shift count is above 31")]
    ShiftCount,
    #[error("version 1 has no move")]
    NoMove,
    #[error("move takes 1 to 512 words, from one range of the workspace to another that does not touch it")]
    NotAMove,
}

/// How many registers an instruction reads, from Areg on.
fn registers_read(instr: Instr) -> u8 {
    match instr {
        Instr::Jump(_)
        | Instr::Ldlp(_)
        | Instr::Ldc(_)
        | Instr::Ldl(_)
        | Instr::Ajw(_)
        | Instr::Seterr
        | Instr::Stopp
        | Instr::Mint => 0,
        Instr::Ldnl(_)
        | Instr::Ldnlp(_)
        | Instr::Adc(_)
        | Instr::Cj(_)
        | Instr::Eqc(_)
        | Instr::Stl(_)
        | Instr::Lb
        | Instr::BitNot => 1,
        Instr::Input | Instr::Output | Instr::MoveBytes => 3,
        _ => 2,
    }
}

/// A run before its next instruction.
#[derive(Clone, Copy)]
pub(crate) struct Snapshot<'a> {
    pub(crate) image: &'a Image,
    pub(crate) registers: Registers,
    pub(crate) phase: Phase,
    pub(crate) workspace: &'a Workspace,
}

/// The address a number of words on from another.
pub(crate) fn words_on(address: u32, words: i32) -> u32 {
    address.wrapping_add(words.wrapping_mul(WORD_BYTES.cast_signed()).cast_unsigned())
}

/// A word's address, or why there is none.
fn word(snapshot: Snapshot<'_>, address: u32, is_read: bool) -> Option<Reason> {
    if !snapshot.workspace.holds(address, WORD_BYTES) {
        Some(Reason::OutsideWorkspace)
    } else if address % WORD_BYTES != 0 {
        Some(Reason::NotAWord)
    } else if is_read && snapshot.workspace.at(address).is_none() {
        Some(Reason::Undefined)
    } else {
        None
    }
}

/// Why the packet cannot be received so: a number of bytes, over a channel, to an address.
fn input_reason(snapshot: Snapshot<'_>, bytes: u32, channel: u32, address: u32) -> Reason {
    let image = snapshot.image;
    let length = image.packet.wrapping_mul(WORD_BYTES);
    let is_first = snapshot.phase == Phase::BeforePacket;
    if channel != LINK0_INPUT || bytes != length || !is_first {
        Reason::NotThePacket
    } else if snapshot.workspace.holds(address, bytes) {
        Reason::Below
    } else {
        Reason::OutsideWorkspace
    }
}

/// Why no message can be sent so.
fn output_reason(snapshot: Snapshot<'_>, bytes: u32, channel: u32, address: u32) -> Reason {
    let image = snapshot.image;
    let length = image.result.wrapping_mul(WORD_BYTES);
    let is_next = snapshot.phase == Phase::BeforeResult;
    let is_result = channel == LINK0_OUTPUT && bytes == length && is_next;
    let is_trace = channel == LINK1_OUTPUT
        && bytes % WORD_BYTES == 0
        && 0 < bytes
        && bytes <= MAX_TRACE_BYTES;
    if !is_result && !is_trace {
        Reason::NotAMessage
    } else if !snapshot.workspace.holds(address, bytes) {
        Reason::OutsideWorkspace
    } else if snapshot
        .workspace
        .holds(snapshot.registers.wptr.wrapping_sub(BELOW), BELOW)
    {
        Reason::Undefined
    } else {
        Reason::Below
    }
}

/// Why no words can be moved so.
fn move_reason(snapshot: Snapshot<'_>, bytes: u32, target: u32, source: u32) -> Reason {
    let is_length = bytes % WORD_BYTES == 0 && 0 < bytes && bytes <= MAX_MOVE_BYTES;
    let image = snapshot.image;
    if image.version == Version::One {
        Reason::NoMove
    } else if !is_length {
        Reason::NotAMove
    } else if !snapshot.workspace.holds(target, bytes) || !snapshot.workspace.holds(source, bytes) {
        Reason::OutsideWorkspace
    } else if target.abs_diff(source) < bytes {
        Reason::NotAMove
    } else {
        Reason::Undefined
    }
}

/// Why an instruction has no step, all of whose registers are defined.
fn reason_of(snapshot: Snapshot<'_>, instr: Instr, a: u32, b: u32, c: u32) -> Reason {
    let wptr = snapshot.registers.wptr;
    let found = match instr {
        Instr::Ldl(n) => word(snapshot, words_on(wptr, n), true),
        Instr::Stl(n) => word(snapshot, words_on(wptr, n), false),
        Instr::Ldnl(n) => word(snapshot, words_on(a, n), true),
        Instr::Stnl(n) => word(snapshot, words_on(a, n), false),
        Instr::Lend => word(snapshot, b, true).or(word(snapshot, words_on(b, 1), true)),
        Instr::Lb if snapshot.workspace.holds(a, 1) => Some(Reason::Undefined),
        Instr::Lb | Instr::Sb => Some(Reason::OutsideWorkspace),
        Instr::Input => Some(input_reason(snapshot, a, b, c)),
        Instr::Output => Some(output_reason(snapshot, a, b, c)),
        Instr::MoveBytes => Some(move_reason(snapshot, a, b, c)),
        Instr::Stopp => Some(Reason::StopsEarly),
        Instr::Shl | Instr::Shr => Some(Reason::ShiftCount),
        _ => None,
    };
    found.unwrap_or(Reason::Below)
}

/// The instruction in a code at an address, if one of at most eight bytes does.
pub(crate) fn instruction_at(code: &[u8], at: i64) -> Option<Instr> {
    if at < 0 || code.len() <= at as usize {
        return None;
    }
    let spelled = read_one(code, at as usize).ok()?;
    Instr::of(spelled.function, spelled.operand)
}

/// Why there is no step from where a run stood.
pub(crate) fn why(snapshot: Snapshot<'_>) -> Reason {
    let at = snapshot.registers.iptr;
    let image = snapshot.image;
    let code = image.code.as_slice();
    let Some(instr) = instruction_at(code, at) else {
        let end = at.saturating_add(prefixes_at(code, at) as i64);
        let is_in_code = 0 <= at && end < code.len() as i64;
        return if is_in_code {
            Reason::NoInstruction
        } else {
            Reason::OutsideCode
        };
    };
    let read = registers_read(instr);
    match (
        snapshot.registers.areg,
        snapshot.registers.breg,
        snapshot.registers.creg,
    ) {
        (None, _, _) if 0 < read => Reason::Areg,
        (_, None, _) if 1 < read => Reason::Breg,
        (_, _, None) if 2 < read => Reason::Creg,
        (a, b, c) => reason_of(
            snapshot,
            instr,
            a.unwrap_or(0),
            b.unwrap_or(0),
            c.unwrap_or(0),
        ),
    }
}
