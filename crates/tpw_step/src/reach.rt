//! The words of a workspace that an instruction may write or make undefined.

use tp_decode::Instr;
use tp_step::profile::{self, FRAME_WORDS, MEM_START};
use tpw_machine::Registers;

/// The bytes of a word, signed.
const WORD_BYTES: i64 = profile::WORD_BYTES as i64;

/// The most words of a workspace.
pub(crate) const WORDS: u32 = 512;

/// Words from one on up to another, by their numbers.
#[derive(Clone, Copy, Debug, PartialEq, Eq)]
pub(crate) struct Stretch {
    pub(crate) first: i64,
    pub(crate) end: i64,
}

impl Stretch {
    /// No words.
    const NONE: Stretch = Stretch { first: 0, end: 0 };

    /// Some words, the first by its number.
    fn new(first: i64, count: u32) -> Stretch {
        Stretch {
            first,
            end: first.saturating_add(i64::from(count)),
        }
    }
}

/// Words by their numbers: two stretches, of which the second does not begin below the first.
#[derive(Clone, Copy, Debug, PartialEq, Eq)]
pub(crate) struct Reach {
    pub(crate) low: Stretch,
    pub(crate) high: Stretch,
}

/// The number of the word that an address of the workspace lies in. Of another it is some number: what is there is not
/// written.
fn word_at(address: u32) -> i64 {
    let bytes = i64::from(address.wrapping_sub(MEM_START).cast_signed());
    bytes / WORD_BYTES
}

impl Reach {
    /// All words.
    pub(crate) const ALL: Reach = Reach {
        low: Stretch {
            first: 0,
            end: WORDS as i64,
        },
        high: Stretch::NONE,
    };

    /// One stretch.
    fn of(stretch: Stretch) -> Reach {
        Reach {
            low: stretch,
            high: stretch,
        }
    }

    /// Two, in order.
    fn both(a: Stretch, b: Stretch) -> Reach {
        if b.first < a.first {
            Reach { low: b, high: a }
        } else {
            Reach { low: a, high: b }
        }
    }
}

/// The words below the one that Wptr points at that are undefined where a worker may give way.
fn below(wptr: i64) -> Stretch {
    Stretch::new(wptr.saturating_sub(i64::from(FRAME_WORDS)), FRAME_WORDS)
}

/// The words that an instruction may write or make undefined where the registers before it are these; none of one that
/// writes none.
pub(crate) fn reach_of(instr: Instr, before: &Registers) -> Option<Reach> {
    let wptr = word_at(before.wptr);
    let a = before.areg.unwrap_or(0);
    match instr {
        Instr::Stl(n) => Some(Reach::of(Stretch::new(wptr.saturating_add(i64::from(n)), 1))),
        Instr::Stnl(n) => Some(Reach::of(Stretch::new(word_at(a).saturating_add(i64::from(n)), 1))),
        Instr::Sb => Some(Reach::of(Stretch::new(word_at(a), 1))),
        Instr::Jump(_) => Some(Reach::of(below(wptr))),
        Instr::Lend => {
            let block = word_at(before.breg.unwrap_or(0));
            Some(Reach::both(below(wptr), Stretch::new(block, 2)))
        }
        Instr::Input | Instr::Output | Instr::MoveBytes => Some(Reach::ALL),
        Instr::Ldlp(_)
        | Instr::Ldnl(_)
        | Instr::Ldc(_)
        | Instr::Ldnlp(_)
        | Instr::Ldl(_)
        | Instr::Adc(_)
        | Instr::Cj(_)
        | Instr::Ajw(_)
        | Instr::Eqc(_)
        | Instr::Rev
        | Instr::Lb
        | Instr::Bsub
        | Instr::Diff
        | Instr::Add
        | Instr::Prod
        | Instr::Gt
        | Instr::Wsub
        | Instr::Sub
        | Instr::Seterr
        | Instr::Csub0
        | Instr::Stopp
        | Instr::Rem
        | Instr::Div
        | Instr::BitNot
        | Instr::BitXor
        | Instr::Shr
        | Instr::Shl
        | Instr::Mint
        | Instr::BitAnd
        | Instr::BitOr
        | Instr::Sum
        | Instr::Mul => None,
    }
}
