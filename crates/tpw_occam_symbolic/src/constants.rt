//! Constants: the operand of an instruction where that is short, else a word of the workspace.

ghost use Rattle.std.specs.Prelude.{◌≡◌, ℕ, List, Some, OnOk, IsTrue};
ghost use Rattle.tpw_occam_symbolic.specs.Code.{is_short as short};
ghost use Rattle.tpw_occam_symbolic.specs.Symbolic.{Machine, push, number, performed};
ghost use Rattle.tpw_occam_symbolic.specs.Leading.{Makes, HasConstants, Serves};
ghost use Rattle.tpw_occam_symbolic.specs.Flowing.{is_straight};

use crate::code::{Code, Step};
use crate::fault::CodeFault;
use crate::items::Item;
use tp_decode::Instr;
use tp_prefix::encode;

/// The most bytes of `ldc` for a constant that is not an initial word.
const MAX_BYTES: usize = 2;

/// Whether a constant's `ldc` is short.
pub fn is_short(c: u32) -> bool
    ensures { result ≡ short c }
{
    encode(4, c.cast_signed()).len() <= MAX_BYTES
}

/// The step that pushes a constant: `ldc` where that is short, else an initial word.
fn push_constant(c: u32) -> Step
    ensures pushes { (w : List ℕ) (m : Machine) → HasConstants m → Serves w m.sizes result
        → performed result m ≡ Some (push (number c) m) }
    ensures straight { IsTrue (is_straight result) }
{
    if is_short(c) {
        Step::Plain(Instr::Ldc(c.cast_signed()))
    } else {
        Step::Load(Item::Constant(c), 0)
    }
}

impl Code {
    /// Appends the step that pushes a constant.
    pub fn constant(&mut self, source: u32, c: u32) -> Result<(), CodeFault>
        ensures { OnOk result (Makes self.old self.new HasConstants (push (number c))) }
    {
        self.emit(source, push_constant(c))
    }
}
