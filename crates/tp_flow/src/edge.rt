//! Edges: the ways on which control leaves an instruction.

ghost use Rattle.std.specs.Prelude.{◌≡◌};
ghost use Rattle.tp_flow.specs.Edges.{edges, has_edge, jump_operand, jump_target};

use tp_decode::Instr;

/// A way on which control leaves an instruction.
#[derive(Clone, Copy, Debug, PartialEq, Eq)]
pub enum Edge {
    /// To the next instruction, from all but j, lend and stopp.
    Next,
    /// To the target of a j or a cj.
    Taken,
    /// From a lend to the head of its loop, for another turn.
    Back,
    /// From a lend to the next instruction, after the last turn.
    Out,
}

/// The edges of an instruction, in the order Next, Taken, Back, Out.
pub fn edges(instr: Instr) -> &'static [Edge]
    ensures { result.now ≡ edges instr }
{
    match instr {
        Instr::Jump(_) => &[Edge::Taken],
        Instr::Cj(_) => &[Edge::Next, Edge::Taken],
        Instr::Lend => &[Edge::Back, Edge::Out],
        Instr::Stopp => &[],
        _ => &[Edge::Next],
    }
}

/// Whether an instruction has an edge.
pub(crate) fn has_edge(instr: Instr, edge: Edge) -> bool
    ensures { result ≡ has_edge instr edge }
{
    match instr {
        Instr::Jump(_) => edge == Edge::Taken,
        Instr::Cj(_) => edge == Edge::Next || edge == Edge::Taken,
        Instr::Lend => edge == Edge::Back || edge == Edge::Out,
        Instr::Stopp => false,
        _ => edge == Edge::Next,
    }
}

/// The operand of a j or a cj.
pub(crate) fn jump_operand(instr: Instr) -> Option<i32>
    ensures { result ≡ jump_operand instr }
{
    match instr {
        Instr::Jump(n) | Instr::Cj(n) => Some(n),
        _ => None,
    }
}

/// The target of a jump by an operand.
pub(crate) fn jump_target(next: usize, operand: i32) -> Option<usize>
    ensures { result ≡ jump_target next operand }
{
    next.checked_add_signed(operand as isize)
}
