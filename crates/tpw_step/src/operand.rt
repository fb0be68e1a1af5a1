//! Instructions by the names that a text gives to local words.

use std::fmt;
use tp_decode::Instr;
use tpw_debug::SourceText;

/// An instruction where Wptr is a workspace word: one with a local word as its operand by the name of that, where it
/// has one.
#[derive(Clone, Copy)]
pub(crate) struct NamedInstr<'a> {
    pub(crate) instr: Instr,
    pub(crate) wptr: i32,
    pub(crate) source: SourceText<'a>,
}

/// The name of an instruction that has a local word as its operand, and the number of that.
fn of_local(instr: Instr) -> Option<(&'static str, i32)> {
    match instr {
        Instr::Ldl(n) => Some(("ldl", n)),
        Instr::Stl(n) => Some(("stl", n)),
        Instr::Ldlp(n) => Some(("ldlp", n)),
        _ => None,
    }
}

impl fmt::Display for NamedInstr<'_> {
    fn fmt<W: fmt::Write>(&self, f: &mut fmt::Formatter<W>) -> fmt::Result {
        let instr = self.instr;
        let Some((name, n)) = of_local(instr) else {
            return write!(f, "{instr}");
        };
        let word = i64::from(self.wptr).saturating_add(i64::from(n));
        let named = usize::try_from(word)
            .ok()
            .and_then(|word| self.source.named(word).map(|named| named.of(word)));
        match named {
            Some(local) => write!(f, "{name} {local}"),
            None => write!(f, "{instr}"),
        }
    }
}
