//! The conditions of an instruction's rule on the state before it.

use tp_decode::Instr;

/// The conditions, but for those of its edges.
pub fn asked_by(instr: Instr) -> &'static str {
    match instr {
        Instr::Jump(_) => "no live control word among the five words below Wptr",
        Instr::Ldlp(_) => "word Wptr + n is one of the workspace",
        Instr::Ldnl(_) =>
            "Areg is the address of a word; the word n further on is in the workspace and defined",
        Instr::Ldc(_) | Instr::Mint | Instr::Seterr => "nothing",
        Instr::Ldnlp(_) =>
            "Areg is the address of a word, or a number; the address n words on is in the workspace",
        Instr::Ldl(_) => "word Wptr + n is in the workspace and defined",
        Instr::Adc(_) | Instr::Eqc(_) | Instr::BitNot | Instr::Cj(_) => "Areg is a number",
        Instr::Ajw(_) => "Wptr + n is from 5 to the last word of the workspace",
        Instr::Stl(_) =>
            "Areg is defined; word Wptr + n is in the workspace and no live control word",
        Instr::Stnl(_) => {
            "Areg is the address of a word, Breg is defined; the word n further on is in the workspace and no live \
             control word"
        }
        Instr::Rev => "Areg and Breg are defined",
        Instr::Lb => "Areg is the address of a byte of the workspace, whose word is defined",
        Instr::Sb =>
            "Areg is the address of a byte of the workspace, Breg is a number; its word is defined and no live \
             control word",
        Instr::Bsub =>
            "Areg is an address, Breg is a number; the byte so many on is in the workspace",
        Instr::Wsub =>
            "Areg is the address of a word, Breg is a number; the word so many on is in the workspace",
        Instr::Diff
        | Instr::Add
        | Instr::Prod
        | Instr::Gt
        | Instr::Sub
        | Instr::Csub0
        | Instr::Rem
        | Instr::Div
        | Instr::BitXor
        | Instr::BitAnd
        | Instr::BitOr
        | Instr::Sum
        | Instr::Mul => "Areg and Breg are numbers",
        Instr::Shr | Instr::Shl => "Areg is a number from 0 to 31, Breg is a number",
        Instr::Input => {
            "Areg is the packet's length in bytes, Breg the channel -2147483632 (mint, ldnlp 4), Creg the address of \
             the first word; phase 0"
        }
        Instr::Output => {
            "Areg is the length in bytes, Breg the channel -2147483648 (mint, the result) or -2147483644 (mint, ldnlp \
             1, a trace), Creg the address of the first word; phase 1; its words are defined, and the five words \
             below Wptr are no live control words"
        }
        Instr::Lend => {
            "Breg is the address of the loop's control word, Areg the distance from behind the lend back to the head; \
             no live control word among the five words below Wptr but the block"
        }
        Instr::Stopp => "phase 2: the result is sent",
        Instr::MoveBytes => {
            "Areg is the number of bytes, a multiple of 4, Breg the address of the target's first word, Creg of the \
             source's; both in the workspace and apart, the source defined, no live control word in the target"
        }
    }
}
