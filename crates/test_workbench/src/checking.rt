//! The findings of a check where a worker does something else than its text means.

ghost use Rattle.std.specs.Prelude.{◌≤◌};

use crate::asserts::{assert_same, unwrap};
use std::alloc::Global;
use std::io::Eprint;
use std::process::Abort;
use std::sync::Wait;
use std::thread::Threads;
use std::time::Clock;
use tp_accept::{Accepted, accept};
use tpw_command_line::{OutputOptions, PacketSource, RunOptions};
use tpw_debug::SourceText;
use tpw_files::{Input, Language, Outcome, Terminal};
use tpw_inputs::read_occam;
use tpw_occam_scoped::Process;
use tpw_running::{Prepared, Subject, write_check};
use tpw_runs::{Expected, Notation, Style, packets_of, results_of};

/// As many multiples of a packet are summed and traced as it says.
const SUMS: &str = "\
-- Sums of multiples, as many as the packet says.
PROC sums (CHAN OF INT packet, CHAN OF INT result, CHAN OF INT trace)
  INT x, sum:
  SEQ
    packet ? x
    SEQ i = 0 FOR 65
      IF
        i < x
          SEQ
            sum := sum + (x * i)
            trace ! sum
        TRUE
          SKIP
    result ! sum + 2147483640
:
";

/// Another text, which means the same by 0 alone.
const OTHER: &str = "\
PROC other (CHAN OF INT packet, CHAN OF INT result, CHAN OF INT trace)
  INT x:
  SEQ
    packet ? x
    IF
      x = 3
        trace ! 0
      TRUE
        SKIP
    result ! x + 2147483640
:
";

/// The output of the runs of the packets 0, 2, 3 and 65: in order nothing, another trace, another result, flag and
/// trace, and a loss. A multiple that is summed takes 11 steps, so 0 takes 22 less than 2.
const OTHERS: &str = "\
1  flag 0  626 of 1319  2147483642
  trace 0 2
  the text means
1  flag 0  2147483642
  trace
2  flag 1  637 of 1319  -2147483647
  trace 0 3 9
  the text means
2  flag 0  2147483643
  trace 0
3  LOST  its trace has more than 256 bytes
  the text means
3  flag 1  -2147483591
  trace
packets 4, lost 1, steps 604 to 637 of 1319
checked 4, 3 differ: a fault of the compiler; please report it, with the text
";

/// The output where the runs are compared with what their own text means.
const NONE: &str = "\
packets 4, lost 1, steps 604 to 637 of 1319
checked 4, each is what the text means
";

/// The image that a text is compiled to.
fn image_of(rt: &impl Abort, alloc: Global, text: &str) -> Vec<u8> {
    let read = unwrap(rt, read_occam(alloc, text.as_bytes()));
    unwrap(rt, read.image_bytes(alloc))
}

/// The worker that a text is compiled to, accepted.
fn accepted(rt: &impl Abort, alloc: Global, text: &str) -> Accepted {
    unwrap(rt, accept(alloc, image_of(rt, alloc, text)))
}

/// The core of a text, which has its meaning.
fn meaning_of(rt: &impl Abort, alloc: Global, text: &str) -> Process {
    let read = unwrap(rt, read_occam(alloc, text.as_bytes()));
    read.compiled.core
}

/// How the runs of the packets are asked for.
fn asked(alloc: Global) -> RunOptions {
    let source = PacketSource {
        words: Vec::new(alloc),
        file: None,
        notation: Notation::Words,
    };
    let style = Style {
        hexadecimal: false,
        trace: false,
    };
    RunOptions {
        output: OutputOptions {
            source,
            expect: None,
            style,
            raw: false,
        },
        members: 2,
        check: true,
    }
}

/// The results of so many bytes that are expected, where there are such.
fn wanted(
    rt: &impl Abort,
    alloc: Global,
    expected: Option<&str>,
    bytes: usize,
) -> Option<Vec<Expected>>
    requires { bytes ≤ 256 }
{
    match expected {
        Some(results) => Some(unwrap(rt, results_of(alloc, results, bytes, Notation::Words))),
        None => None,
    }
}

/// The worker of an image, of which no text says anything.
fn subject_of<'a>(input: &'a Input, bytes: &'a [u8]) -> Subject<'a> {
    Subject {
        input,
        language: Language::Occam,
        bytes,
        source: SourceText::NONE,
    }
}

/// The output of a check of the runs of a text's worker by another text's meaning, and by the results that are expected
/// where there are such, and its outcome.
fn checked<T>(
    rt: &T,
    alloc: Global,
    text: &str,
    other: &str,
    expected: Option<&str>,
) -> (Vec<u8>, Outcome)
where
    T: Threads + Wait + Clock + Eprint + Sync + Abort,
{
    let image = accepted(rt, alloc, text);
    let core = meaning_of(rt, alloc, other);
    let bytes = image.packet_bytes();
    let packets = packets_of(alloc, "0\n2\n3\n65\n", bytes, Notation::Words);
    let prepared = Prepared {
        image,
        packets: unwrap(rt, packets),
        expected: wanted(rt, alloc, expected, bytes),
    };
    let built = image_of(rt, alloc, text);
    let mut output = Vec::new(alloc);
    let mut errors = Vec::new(alloc);
    let mut terminal = Terminal {
        errors: &mut errors,
        is_terminal: false,
    };
    let input = Input::Standard;
    let subject = subject_of(&input, &built);
    let outcome = write_check(
        rt,
        alloc,
        &prepared,
        &asked(alloc),
        &core,
        subject,
        &mut output,
        &mut terminal,
    );
    (output, unwrap(rt, outcome))
}

/// A check finds each packet of which something else is made than the text means, and no other. It is bad where it finds one.
#[test]
fn check_finds_others(rt: HostRuntime) {
    let alloc = rt.alloc();
    for (other, expected, written, outcome) in [
        (OTHER, None, OTHERS, Outcome::Bad),
        (SUMS, None, NONE, Outcome::Good),
    ] {
        let (output, found) = checked(&rt, alloc, SUMS, other, expected);
        assert_same(&rt, &unwrap(&rt, str::from_utf8(&output)), &written);
        assert_same(&rt, &found, &outcome);
    }
}
