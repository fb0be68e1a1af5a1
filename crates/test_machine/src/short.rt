//! Short runs, from a machine that is set as their row says.

use crate::asserts::unwrap;
use crate::media::{Media, make_media, wires};
use crate::place::{Place, first_difference, machine_of, place_of, word};
use std::alloc::Global;
use std::process::Abort;
use test_effects::rows::{Expected, Row, Setting, Worker};
use test_effects::table::short_runs;
use tp_image::{Image, read_image};
use tp_link::{DeviceFault, Link, LinkDevice, LinkFault, Links, Wire};
use tp_outcome::Outcome;
use tpw_machine::{Machine, Phase, RunFault};

/// The magic of an image, its workspace words, its packet words and its result words.
fn head(worker: Worker) -> (&'static [u8], u16, u16, u16) {
    match worker {
        Worker::Plain => (b"TPW1", 16, 1, 1),
        Worker::Second => (b"TPW2", 16, 1, 1),
        Worker::Roomy => (b"TPW1", 80, 1, 1),
        Worker::TwoWordPacket => (b"TPW1", 16, 2, 1),
        Worker::TwoWordResult => (b"TPW1", 16, 1, 2),
    }
}

/// The image of a row's worker, as bytes: Wptr begins at word 8, and there are no loops and no initial words.
fn text(rt: &impl Abort, alloc: Global, row: &Row) -> Vec<u8> {
    let (magic, workspace, packet, result) = head(row.worker);
    let bytes = unwrap(rt, u16::try_from(row.code.len()));
    let mut text = Vec::new(alloc);
    unwrap(rt, text.extend_from_slice(magic));
    for field in [bytes, workspace, 8, packet, result, 0] {
        unwrap(rt, text.extend_from_slice(&field.to_le_bytes()));
    }
    if let Worker::Second = row.worker {
        unwrap(rt, text.extend_from_slice(&[0, 0]));
    }
    unwrap(rt, text.extend_from_slice(row.code));
    text
}

/// The answer of a run, the machine and its phase after it, and the contents of the three media.
#[derive(Drop)]
struct Seen {
    answer: Result<Outcome, RunFault>,
    machine: Machine,
    phase: Phase,
    media: Media,
}

/// The image of a row's worker.
fn image_of(rt: &impl Abort, alloc: Global, row: &Row) -> Image {
    let text = text(rt, alloc, row);
    unwrap(rt, read_image(alloc, &text))
}

/// The messages of a place go over the wires.
fn send_messages(rt: &impl Abort, links: &mut Links<Wire<'_>>, place: &Place) {
    unwrap(rt, links.source.send(place.coming));
    unwrap(rt, links.sink.send(place.sent));
    unwrap(rt, links.trace.send(place.traced));
}

/// The run of a row, which executes no more than this many bytes.
fn run(rt: &impl Abort, alloc: Global, row: &Row, limit: u32) -> Seen {
    let image = image_of(rt, alloc, row);
    let from = place_of(0, row.from);
    let mut machine = machine_of(rt, from.registers, row.from);
    let mut phase = from.phase;
    let mut media = make_media(rt, alloc);
    let mut links = wires(&mut media);
    send_messages(rt, &mut links, &from);
    let answer = machine.resume(&image, &mut links, &mut phase, limit);
    drop(links);
    Seen {
        answer,
        machine,
        phase,
        media,
    }
}

/// How many bytes a row's run may execute, and what it is to answer then.
fn wanted(rt: &impl Abort, row: &Row) -> (u32, Result<Outcome, RunFault>) {
    let bytes = unwrap(rt, u32::try_from(row.code.len()));
    match row.expected {
        Expected::Leads(settings) => {
            let end = place_of(0, settings);
            let outcome = Outcome {
                error: end.registers.error,
                steps: bytes,
            };
            match end.phase {
                Phase::Stopped => (bytes, Ok(outcome)),
                _ => (bytes, Err(RunFault::Limit)),
            }
        }
        Expected::Sticks => (bytes, Err(RunFault::Stuck(bytes.saturating_sub(1)))),
        Expected::SticksAtOnce(address) => (1, Err(RunFault::Stuck(address))),
        Expected::LacksPacket => {
            let fault = LinkFault {
                link: Link::Source,
                code: DeviceFault::Short,
            };
            (bytes, Err(RunFault::Link(fault)))
        }
        Expected::Shows(steps, _, _) => (steps, Err(RunFault::Limit)),
        Expected::Ends(steps) => {
            let outcome = Outcome {
                error: false,
                steps,
            };
            (steps.saturating_add(1), Ok(outcome))
        }
    }
}

/// The media hold the messages of a place.
fn compare_messages(rt: &impl Abort, name: &str, seen: &Seen, place: &Place) {
    let media = &seen.media;
    let held = [
        media.source.bytes(),
        media.sink.bytes(),
        media.trace.bytes(),
    ];
    let wanted = [place.coming, place.sent, place.traced];
    assert_eq!(rt; held, wanted, "to come, sent, traced: {name}");
}

/// The first address at which the workspace is not as these settings say.
fn difference(rt: &impl Abort, machine: &Machine, settings: &[Setting]) -> Option<u32> {
    let wanted = machine_of(rt, place_of(0, settings).registers, settings);
    first_difference(machine, &wanted)
}

/// The machine, its phase and the media are as these settings say, with Iptr here where they say nothing of it.
fn compare_states(rt: &impl Abort, name: &str, seen: &Seen, iptr: i64, settings: &[Setting]) {
    let end = place_of(iptr, settings);
    let difference = difference(rt, &seen.machine, settings);
    let left = (seen.machine.registers(), seen.phase, difference);
    let wanted = (end.registers, end.phase, None);
    assert_eq!(rt; left, wanted, "registers, phase, workspace: {name}");
    compare_messages(rt, name, seen, &end);
}

/// Iptr is here, and these words are so.
fn compare_words(
    rt: &impl Abort,
    name: &str,
    seen: &Seen,
    iptr: i64,
    words: &[(u32, Option<u32>)],
) {
    let machine = &seen.machine;
    assert_eq!(rt; machine.registers().iptr, iptr, "Iptr: {name}");
    for (number, value) in words {
        assert_eq!(rt; word(machine, *number), *value, "word {number}: {name}");
    }
}

/// A run leaves what its row says. A run that is stuck moves no message.
fn compare_left(rt: &impl Abort, name: &str, row: &Row, seen: &Seen) {
    match row.expected {
        Expected::Leads(settings) => compare_states(
            rt,
            name,
            seen,
            row.code.len() as i64,
            settings,
        ),
        Expected::Sticks | Expected::SticksAtOnce(_) | Expected::LacksPacket => {
            compare_messages(rt, name, seen, &place_of(0, row.from));
        }
        Expected::Shows(_, iptr, words) => compare_words(rt, name, seen, iptr, words),
        Expected::Ends(_) => {}
    }
}

/// The run of a row answers and leaves what the row says.
fn compare(rt: &impl Abort, alloc: Global, instruction: &str, row: &Row) {
    let name = &unwrap(rt, format!(in alloc; "{instruction}, {}", row.name));
    let (limit, answer) = wanted(rt, row);
    let seen = run(rt, alloc, row, limit);
    assert_eq!(rt; seen.answer, answer, "{name}");
    compare_left(rt, name, row, &seen);
}

/// The same of all rows of an instruction.
fn compare_all(rt: &impl Abort, alloc: Global, instruction: &str, rows: &[Row]) {
    assert!(rt; !rows.is_empty(), "{instruction}");
    for row in rows {
        compare(rt, alloc, instruction, row);
    }
}

#[test]
fn short_runs_on_the_machine(rt: HostRuntime) {
    for group in short_runs() {
        compare_all(&rt, rt.alloc(), group.0, group.1);
    }
}
