//! The meaning of each refusal, and its remedy.

use tp_accept::RefusalCode;
use tp_decode::DecodeCode;
use tp_flow::FlowCode;
use tp_image::ImageCode;
use tp_state::StateCode;

/// A refusal in a sentence, and what helps.
#[derive(Clone, Copy, Debug, PartialEq, Eq)]
pub struct Meaning {
    pub refused: &'static str,
    pub instead: &'static str,
}

const fn explained(refused: &'static str, instead: &'static str) -> Meaning {
    Meaning { refused, instead }
}

fn of_image(code: ImageCode) -> Meaning {
    match code {
        ImageCode::F1 => explained(
            "the image begins with neither TPW1 nor TPW2",
            "begin with the version's magic, 54505731 or 54505732",
        ),
        ImageCode::F2 => explained(
            "the image is cut short",
            "send all its bytes; see that the header counts the rows, initial words and code bytes that follow",
        ),
        ImageCode::F3 => explained(
            "the number of code bytes is out of range",
            "1 to 2048 code bytes; up to 8192 in version 2",
        ),
        ImageCode::F4 => explained(
            "the number of workspace words is out of range",
            "8 to 256 words; up to 512 in version 2",
        ),
        ImageCode::F5 => explained(
            "the start word is out of range",
            "a word of the workspace, with five words below it",
        ),
        ImageCode::F6 => explained(
            "the number of packet words is out of range",
            "1 to 64 words; send long data in several packets",
        ),
        ImageCode::F7 => explained(
            "the number of result words is out of range",
            "1 to 64 words",
        ),
        ImageCode::F8 => explained("there are more than 16 loops", "write a short loop out"),
        ImageCode::F9 => explained(
            "bytes are left over behind the code",
            "see that the header's counts are those of the image",
        ),
        ImageCode::F10 => explained(
            "there are more initial words than workspace words",
            "a larger workspace, or fewer initial words",
        ),
    }
}

fn of_cutting(code: DecodeCode) -> Meaning {
    match code {
        DecodeCode::D1 => explained(
            "the code ends within a spelling, after prefixes",
            "end the spelling by its function",
        ),
        DecodeCode::D2 => explained(
            "a spelling has eight prefixes",
            "spell an operand by at most eight bytes",
        ),
        DecodeCode::D3 => explained(
            "no instruction of the profile is coded so",
            "docs/INSTRUCTIONS.md lists the functions and operations, and what is left out",
        ),
    }
}

fn of_flow(code: FlowCode) -> Meaning {
    match code {
        FlowCode::J1 => explained(
            "no instruction starts at the target of the jump",
            "count the distance from the next instruction, prefixes and all",
        ),
        FlowCode::J2 => explained(
            "the target of the jump lies outside the code",
            "count the distance from the next instruction, prefixes and all",
        ),
        FlowCode::J3 => explained("a jump goes back", "loop by lend, with a loop row"),
        FlowCode::J4 => explained(
            "a jump leaves a loop, or enters one at another place than its head",
            "jump within the loop to where the operands of its lend are loaded (ldlp, ldc, lend); it ends there",
        ),
        FlowCode::J5 => explained(
            "control goes on behind the last instruction",
            "end the code by stopp",
        ),
        FlowCode::J6 => explained(
            "a loop row is bad",
            "docs/VERIFIER.md lists what is asked of a row",
        ),
        FlowCode::J7 => explained("no loop row names the lend", "add its row to the image"),
    }
}

fn of_state(code: StateCode) -> Meaning {
    match code {
        StateCode::S1 => explained(
            "a register that is read is undefined",
            "load it again: the stack holds three, and a fourth push loses the first; j, lend, in and out leave no \
             registers, and each operation takes what it reads",
        ),
        StateCode::S2 => explained(
            "a register is of the wrong kind",
            "address words by ldlp, ldnlp and wsub; a word does not keep that it is an address, so make the address \
             again",
        ),
        StateCode::S3 => explained(
            "a word, a byte or a pointer may lie outside the workspace",
            "mask an index by ldc and `and` before wsub or bsub",
        ),
        StateCode::S4 => explained(
            "a word that is read may be undefined",
            "store it first; keep values at or above Wptr over j, lend, in and out",
        ),
        StateCode::S5 => explained(
            "a loop's control words are not as its row declares them",
            "store the row's start and count, as numbers, just before the loop, and leave both words alone in it",
        ),
        StateCode::S6 => explained(
            "Wptr leaves the workspace, or differs where two edges meet",
            "the same ajw on both ways; a larger workspace",
        ),
        StateCode::S7 => explained(
            "a message has another length than it may have",
            "4 times the packet's or the result's words; for a trace a multiple of 4 from 4 to 256",
        ),
        StateCode::S8 => explained(
            "a message's channel is none of the profile's",
            "mint, ldnlp 4 to receive; mint to send the result; mint, ldnlp 1 to send a trace",
        ),
        StateCode::S9 => explained(
            "in, out and stopp are out of order, or phases differ where two edges meet",
            "receive once, send the result once, then stopp, on each way",
        ),
        StateCode::S10 => explained("a shift count may not be 0 to 31", "mask it by ldc 31, and"),
        StateCode::S11 => explained("version 1 has no such operation", "an image of version 2"),
    }
}

/// The meaning of a refusal.
pub fn meaning_of(code: RefusalCode) -> Meaning {
    match code {
        RefusalCode::Image(code) => of_image(code),
        RefusalCode::Cutting(code) => of_cutting(code),
        RefusalCode::Flow(code) => of_flow(code),
        RefusalCode::State(code) => of_state(code),
        RefusalCode::B1 => explained(
            "the bound on the instruction bytes of a run is above 16777216",
            "fewer turns of the inner loops, or a packet for each part of the work",
        ),
    }
}
