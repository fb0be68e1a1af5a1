//! Which instruction a register comes from.

use crate::ways::{Way, lone_way};
use tp_decode::{Instr, Placed};
use tp_flow::Edge;
use tp_state::{Kind, State};

/// How many instructions are looked at, back from where a register is read.
const MAX_BACK: usize = 64;

/// A register of the evaluation stack.
#[derive(Clone, Copy, Debug, PartialEq, Eq)]
pub(crate) enum Register {
    A,
    B,
    C,
}

impl Register {
    /// Its name.
    pub(crate) fn name(self) -> &'static str {
        match self {
            Register::A => "Areg",
            Register::B => "Breg",
            Register::C => "Creg",
        }
    }

    /// How many registers are above it on the stack.
    fn above(self) -> usize {
        match self {
            Register::A => 0,
            Register::B => 1,
            Register::C => 2,
        }
    }
}

/// The kind of value that a rule asks for in a register.
#[derive(Clone, Copy)]
enum Wanted {
    Anything,
    Number,
    /// The address of a word.
    Word,
    /// The address of one word.
    OneWord,
    /// The address of a word, or a number.
    WordOrNumber,
    /// The address of a word or of a byte.
    Byte,
}

impl Wanted {
    /// Whether what is known of a register is of the kind.
    fn is_met(self, kind: Kind) -> bool {
        match self {
            Wanted::Anything => true,
            Wanted::Number => matches!(kind, Kind::Int(_, _)),
            Wanted::Word => matches!(kind, Kind::Ptr(_, _)),
            Wanted::OneWord => match kind {
                Kind::Ptr(first, last) => first == last,
                _ => false,
            },
            Wanted::WordOrNumber => matches!(kind, Kind::Ptr(_, _) | Kind::Int(_, _)),
            Wanted::Byte => matches!(kind, Kind::Ptr(_, _) | Kind::BytePtr(_, _)),
        }
    }
}

/// The kinds that an instruction asks for in Areg, Breg and Creg.
fn asked_of(instr: Instr) -> (Wanted, Wanted, Wanted) {
    use Wanted::*;
    match instr {
        Instr::Ldnl(_) | Instr::Stnl(_) => (Word, Anything, Anything),
        Instr::Ldnlp(_) => (WordOrNumber, Anything, Anything),
        Instr::Adc(_) | Instr::Eqc(_) | Instr::BitNot | Instr::Cj(_) => {
            (Number, Anything, Anything)
        }
        Instr::Lb => (Byte, Anything, Anything),
        Instr::Sb | Instr::Bsub => (Byte, Number, Anything),
        Instr::Wsub => (Word, Number, Anything),
        Instr::Input | Instr::Output => (Number, Number, OneWord),
        Instr::Lend => (Number, Word, Anything),
        Instr::MoveBytes => (Number, OneWord, OneWord),
        Instr::Jump(_)
        | Instr::Ldlp(_)
        | Instr::Ldc(_)
        | Instr::Ldl(_)
        | Instr::Ajw(_)
        | Instr::Stl(_)
        | Instr::Rev
        | Instr::Seterr
        | Instr::Stopp
        | Instr::Mint => (Anything, Anything, Anything),
        _ => (Number, Number, Anything),
    }
}

/// The first register that is of another kind than an instruction asks for.
pub(crate) fn wrong_register(instr: Instr, state: &State) -> Option<Register> {
    let (a, b, c) = asked_of(instr);
    if !a.is_met(state.a) {
        Some(Register::A)
    } else if !b.is_met(state.b) {
        Some(Register::B)
    } else if !c.is_met(state.c) {
        Some(Register::C)
    } else {
        None
    }
}

/// How many registers an instruction takes from the stack on an edge, and how many it then puts there; none where it
/// leaves no registers.
fn taken_and_put(instr: Instr, edge: Edge) -> Option<(usize, usize)> {
    match instr {
        Instr::Ldlp(_) | Instr::Ldc(_) | Instr::Ldl(_) | Instr::Mint => Some((0, 1)),
        Instr::Ldnl(_)
        | Instr::Ldnlp(_)
        | Instr::Adc(_)
        | Instr::Eqc(_)
        | Instr::Lb
        | Instr::BitNot => Some((1, 1)),
        Instr::Cj(_) if edge == Edge::Taken => Some((0, 0)),
        Instr::Cj(_) | Instr::Stl(_) | Instr::Csub0 => Some((1, 0)),
        Instr::Ajw(_) | Instr::Seterr => Some((0, 0)),
        Instr::Stnl(_) | Instr::Sb => Some((2, 0)),
        Instr::MoveBytes => Some((3, 0)),
        Instr::Rev => Some((2, 2)),
        Instr::Jump(_) | Instr::Input | Instr::Output | Instr::Lend | Instr::Stopp => None,
        _ => Some((2, 1)),
    }
}

/// The first register that an instruction reads and that may be undefined.
pub(crate) fn undefined_register(instr: Instr, edge: Edge, state: &State) -> Option<Register> {
    let read = match instr {
        Instr::Input | Instr::Output => 3,
        Instr::Lend => 2,
        Instr::Cj(_) => 1,
        _ => taken_and_put(instr, edge)?.0,
    };
    let registers = [
        (Register::A, state.a),
        (Register::B, state.b),
        (Register::C, state.c),
    ];
    registers
        .iter()
        .find(|pair| pair.0.above() < read && pair.1 == Kind::Undef)
        .map(|pair| pair.0)
}

/// How a register was lost that is read somewhere.
#[derive(Clone, Copy, Debug, PartialEq, Eq)]
pub(crate) enum Lost {
    /// A fourth push drove it off the stack; another instruction had put it there, where one way alone leads from it.
    Pushed(Placed, Option<Placed>),
    /// An instruction left no registers, and none was pushed for it since.
    Left(Placed),
    /// No instruction before has pushed it.
    Never,
}

/// How a register was lost that is read at an address, where one way alone leads there from the instruction that lost
/// it.
pub(crate) fn loss_of(ways: &[Way], at: usize, register: Register) -> Option<Lost> {
    let mut place = at;
    let mut above = register.above();
    for _ in 0..MAX_BACK {
        if place == 0 {
            return Some(Lost::Never);
        }
        let way = lone_way(ways, place)?;
        let Some((taken, put)) = taken_and_put(way.from.instr, way.edge) else {
            return Some(Lost::Left(way.from));
        };
        if above < put {
            return None;
        }
        let before = above.saturating_sub(put).saturating_add(taken);
        if above > Register::C.above() && before <= Register::C.above() {
            let origin = origin_of(ways, way.from.at, Register::C);
            return Some(Lost::Pushed(way.from, origin));
        }
        above = before;
        place = way.from.at;
    }
    None
}

/// The instruction that put a register there which is read at an address, where one way alone leads there from it.
pub(crate) fn origin_of(ways: &[Way], at: usize, register: Register) -> Option<Placed> {
    let mut place = at;
    let mut above = register.above();
    for _ in 0..MAX_BACK {
        let way = lone_way(ways, place)?;
        let (taken, put) = taken_and_put(way.from.instr, way.edge)?;
        if above < put {
            return Some(way.from);
        }
        above = above.saturating_sub(put).saturating_add(taken);
        place = way.from.at;
    }
    None
}
