//! Inputs of the program of those who write workers, and the outputs that are expected of it with ample memory.

use test_samples::commands::{INCREMENT_LISTED, LOOP};
use test_samples::page::Page;
use test_samples::{FIBONACCI, INCREMENT, SUM_TO_TEN};

/// A text that is read or printed.
#[derive(Clone, Copy, Drop)]
pub enum Text<'a> {
    /// Lines.
    Lines(&'a str),
    /// One line: a text, and the digits of an image.
    Digits(&'a str, &'a [u8]),
}

impl Text<'_> {
    /// A page with this text.
    pub fn page(&self) -> Page {
        let mut page = Page::new();
        match self {
            Text::Lines(lines) => page.push(lines.as_bytes()),
            Text::Digits(before, image) => {
                page.push(before.as_bytes());
                page.push_digits(image);
                page.push(b"\n");
            }
        }
        page
    }
}

/// A command line with its input, and the output and the status that are expected.
#[derive(Clone, Copy, Drop)]
pub struct Case<'a> {
    pub words: &'a [&'a str],
    pub input: Text<'a>,
    pub expected: Text<'a>,
    pub status: u8,
}

/// The words of a command line are these at most.
pub const CASES: [Case<'_>; 11] = [
    Case {
        words: &["tpw", "asm", "--line", "fib"],
        input: Text::Lines(FIBONACCI_TEXT),
        expected: Text::Digits("fib IMAGE ", FIBONACCI),
        status: 0,
    },
    Case {
        words: &["tpw", "dis"],
        input: Text::Digits("", SUM_TO_TEN),
        expected: Text::Lines(SUM_TO_TEN_DISASSEMBLED),
        status: 0,
    },
    Case {
        words: &["tpw", "step", "--words", "41", "--from", "12"],
        input: Text::Digits("", INCREMENT),
        expected: Text::Lines(INCREMENT_STEPS),
        status: 0,
    },
    Case {
        words: &["tpw", "list"],
        input: Text::Digits("", INCREMENT),
        expected: Text::Lines(INCREMENT_LISTED),
        status: 0,
    },
    Case {
        words: &["tpw", "profile", "--words", "1"],
        input: Text::Lines(LOOP),
        expected: Text::Lines(LOOP_COUNTED),
        status: 0,
    },
    Case {
        words: &["tpw", "run", "--words", "10", "--members", "1"],
        input: Text::Digits("", FIBONACCI),
        expected: Text::Lines(
            "0  flag 0  575 of 1056  55\npackets 1, lost 0, steps 575 to 575 of 1056\n",
        ),
        status: 0,
    },
    Case {
        words: &["tpw", "why"],
        input: Text::Lines(KEPT_ADDRESS),
        expected: Text::Lines(KEPT_ADDRESS_EXPLAINED),
        status: 1,
    },
    Case {
        words: &["tpw", "occam"],
        input: Text::Lines(RISE),
        expected: Text::Lines(RISE_IN_ASSEMBLY),
        status: 0,
    },
    Case {
        words: &["tpw", "eval", "--words", "41"],
        input: Text::Lines(RISE),
        expected: Text::Lines("0  flag 0  42\npackets 1, lost 0\n"),
        status: 0,
    },
    Case {
        words: &["tpw", "eval", "--statements", "--words", "41"],
        input: Text::Lines(RISE),
        expected: Text::Lines(RISE_STATEMENTS),
        status: 0,
    },
    Case {
        words: &[
            "tpw",
            "run",
            "--occam",
            "--check",
            "--words",
            "41",
            "--members",
            "1",
        ],
        input: Text::Lines(RISE),
        expected: Text::Lines(
            "packets 1, lost 0, steps 30 to 30 of 30\nchecked 1, each is what the text means\n",
        ),
        status: 0,
    },
];

/// A worker in occam.
const RISE: &str = "\
PROC rise (CHAN OF INT packet, CHAN OF INT result)
  INT x:
  SEQ
    packet ? x
    SEQ i = 0 FOR 2
      x := x + i
    result ! x
:
";

const RISE_STATEMENTS: &str = "\
line 4: x=41  ; packet ? x
line 5: i=0  ; SEQ i = 0 FOR 2
line 6: x=41  ; x := x + i
line 5: i=1  ; SEQ i = 0 FOR 2
line 6: x=42  ; x := x + i
line 7: result 2a000000  ; result ! x
0  flag 0  42
";

const RISE_IN_ASSEMBLY: &str = "\
-- local 0: x
-- local 1: i
version 2
workspace 10
start 5
packet 1
result 1
init 0: #0
init 1: #0
init 2: #0
init 3: #0
init 4: #0
init 5: #0
init 6: #0
init 7: #0
init 8: #80000010
init 9: #80000000
loop head L8 lend L14 control 6 turns 2 start 0
-- line 4: packet ? x
        ldlp 0
        ldl 3
        ldc 4
        in
-- line 5: SEQ i = 0 FOR 2
        ldc 0
        stl 1
        ldc 2
        stl 2
L8:
-- line 6: x := x + i
        ldl 0
        ldl 1
        add
        stl 0
-- line 5: SEQ i = 0 FOR 2
        ldlp 1
        ldc L15 - L8
L14:
        lend
L15:
-- line 7: result ! x
        ldlp 0
        ldl 4
        ldc 4
        out
        stopp
";

/// The worker of docs/WORKERS.md, whose image that page works out.
const FIBONACCI_TEXT: &str = "\
workspace 10
packet 1
result 1
loop head i_head lend i_lend control 8 turns 47 start 0
ldlp 0
mint
ldnlp 4
ldc 4
in
ldc 0
stl 1
ldc 1
stl 2
ldc 0
stl 3
ldc 47
stl 4
i_head:
ldl 0
ldl 3
gt
cj skip
ldlp 1
mint
ldnlp 1
ldc 4
out
ldl 1
ldl 2
sum
ldl 2
stl 1
stl 2
skip:
ldlp 3
ldc i_behind - i_head
i_lend:
lend
i_behind:
ldlp 1
mint
ldc 4
out
stopp
";

/// 12 bytes, a loop of ten turns of 8 bytes, and 7 bytes.
const SUM_TO_TEN_DISASSEMBLED: &str = "\
; at most 99 instruction bytes
; loop 12 to 18: 10 turns of 8, 80 in all
; behind an instruction: its address, and the bytes from it to the end of the loop around it, or of the run
workspace 16
start 8
packet 1
result 1
loop head L11 lend L17 control 10 turns 10 start 0
        ldlp 0  ; 0: 99
        mint  ; 1: 98
        ldnlp 4  ; 3: 96
        ldc 4  ; 4: 95
        in  ; 5: 94
        ldc 0  ; 6: 93
        stl 1  ; 7: 92
        ldc 0  ; 8: 91
        stl 2  ; 9: 90
        ldc 10  ; 10: 89
        stl 3  ; 11: 88
L11:
        ldl 1  ; 12: 87
        ldl 2  ; 13: 7
        add  ; 14: 6
        stl 1  ; 15: 5
        ldlp 2  ; 16: 4
        ldc 8  ; 17: 3
L17:
        lend  ; 18: 2
        ldlp 1  ; 20: 7
        mint  ; 21: 6
        ldc 4  ; 23: 4
        out  ; 24: 3
        stopp  ; 25: 2
";

const INCREMENT_STEPS: &str = "\
13 12 ldc 4: A 4 B -2147483648 C -2147483544 Wptr 8 flag 0
14 13 out: A - B - C - Wptr 8 flag 0 result 2a000000
16 14 stopp: A - B - C - Wptr 8 flag 0
stopped
result 2a000000
trace \nflag 0
count 16
state A - B - C - Wptr 8 flag 0 w8=42
";

/// Keeps the address of a word in a word.
const KEPT_ADDRESS: &str = "\
packet 1
result 1
ldlp 0
mint
ldnlp 4
ldc 4
in
ldlp 0
stl 1
ldl 1
ldnl 0
stl 0
done:
ldlp 0
mint
ldc 4
out
stopp
";

const KEPT_ADDRESS_EXPLAINED: &str = "\
tpw: standard input:11:1: NO S2 9
refused  a register is of the wrong kind
         5 f7 in  ; line 7: in
         6 10 ldlp 0  ; line 8: ldlp 0
         7 d1 stl 1  ; line 9: stl 1
         8 71 ldl 1  ; line 10: ldl 1
>        9 30 ldnl 0  ; line 11: ldnl 0
         10 d0 stl 0  ; line 12: stl 0
 done:   11 10 ldlp 0  ; line 14: ldlp 0
         12 24f2 mint  ; line 15: mint
         14 44 ldc 4  ; line 16: ldc 4
asked    Areg is the address of a word; the word n further on is in the workspace and defined
known    Areg any number; Breg may be undefined; Creg may be undefined
         Wptr at word 5; phase 1, the packet is received and the result not sent
         words 0 to 4: may be undefined
         words 5 to 6: any number
         word 7: 0
why      Areg is what 8 ldl 1 read from word 6
written  word 6 by 7 stl 1: the address of word 5; a word does not keep that it is an address
from     8 by Next: Areg any number; Breg may be undefined; Creg may be undefined
found    in pass 1, on the edge Next of the instruction at 9
instead  address words by ldlp, ldnlp and wsub; a word does not keep that it is an address, so make the address again
";

/// 6 steps receive, 4 begin the loop, 21 are its turns, 5 send and 2 stop.
const LOOP_COUNTED: &str = "\
steps 38
 15.7%             6           3x  ##############################  line 18: lend
  7.8%             3           3x  ###############                 line 12: ldl 0
  7.8%             3           3x  ###############                 line 13: adc 1
  7.8%             3           3x  ###############                 line 14: stl 0
  7.8%             3           3x  ###############                 line 15: ldlp 1
  7.8%             3           3x  ###############                 line 16: ldc i_behind - i_head
  5.2%             2           1x  ##########                      line 3: mint
  5.2%             2           1x  ##########                      line 21: mint
  5.2%             2           1x  ##########                      line 24: stopp
  2.6%             1           1x  #####                           line 2: ldlp 0
  2.6%             1           1x  #####                           line 4: ldnlp 4
  2.6%             1           1x  #####                           line 5: ldc 4
  2.6%             1           1x  #####                           line 6: in
  2.6%             1           1x  #####                           line 7: ldc 0
  2.6%             1           1x  #####                           line 8: stl 1
  2.6%             1           1x  #####                           line 9: ldc 3
  2.6%             1           1x  #####                           line 10: stl 2
  2.6%             1           1x  #####                           line 20: ldlp 0
  2.6%             1           1x  #####                           line 22: ldc 4
  2.6%             1           1x  #####                           line 23: out
 55.2%            21           3x  ################                loop row 0 (line 10), 10 to 15
";
