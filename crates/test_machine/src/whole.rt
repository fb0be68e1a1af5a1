//! Whole workers, from their start.

ghost use Rattle.std.specs.Prelude.{◌<◌};

use crate::asserts::{assert_same, unwrap};
use crate::media::{Media, make_media, wires};
use crate::runs::{Answer, Left, Task, assert_run, ended, run};
use std::alloc::Global;
use std::process::Abort;
use test_effects::table::{Sample, samples};
use test_samples::{INCREMENT, MOVES_A_WORD, READS_AFTER_JUMP, TRACES_ITS_PACKET};
use tp_image::{Image, read_image};
use tp_link::{EndedMedium, LinkDevice, Links, Medium, OwnedWire, Wire};
use tp_step::profile::MEM_START;
use tpw_machine::{Machine, Registers, RunFault};

/// A sample's run answers and leaves what the sample says.
fn assert_sample(rt: &(impl Abort + AllocGlobal), machine: &mut Machine, sample: &Sample) {
    let task = Task {
        image: sample.image,
        packet: &sample.packet,
        limit: 1_000_000,
    };
    let wanted = ended(sample.error, sample.steps);
    let left = Left {
        source: &[],
        sink: &sample.result_bytes,
        trace: sample.trace,
    };
    assert_run(rt, machine, task, wanted, left)
}

/// One after another on one machine.
#[test]
fn samples_on_the_machine(rt: HostRuntime) {
    let mut machine = Machine::new();
    for sample in samples() {
        assert_sample(&rt, &mut machine, &sample);
    }
}

/// The worker that reads after j is stuck at its add, and has sent nothing.
fn assert_stuck(rt: &(impl Abort + AllocGlobal), machine: &mut Machine, packet: &[u8]) {
    let task = Task {
        image: READS_AFTER_JUMP,
        packet,
        limit: 100,
    };
    assert_run(rt, machine, task, Err(RunFault::Stuck(8)), Left::default())
}

#[test]
fn stuck_after_jump_on_the_machine(rt: HostRuntime) {
    let mut machine = Machine::new();
    for packet in [[0, 0, 0, 0], [1, 2, 3, 4], [255, 255, 255, 255]] {
        assert_stuck(&rt, &mut Machine::new(), &packet);
        assert_stuck(&rt, &mut machine, &packet);
    }
}

/// A run of no step, after which the machine is at the start of an image.
fn start(rt: &(impl Abort + AllocGlobal), machine: &mut Machine, image: &[u8]) {
    let task = Task {
        image,
        packet: &[],
        limit: 0,
    };
    let answer = run(rt, rt.alloc(), machine, task);
    assert_same(rt, &answer, &Err(RunFault::Limit));
}

#[test]
fn starts_with_its_registers(rt: HostRuntime) {
    let mut machine = Machine::new();
    start(&rt, &mut machine, INCREMENT);
    let first = Registers {
        iptr: 0,
        oreg: 0,
        wptr: 0x8000_0068,
        areg: None,
        breg: None,
        creg: None,
        error: false,
    };
    assert_same(&rt, &machine.registers(), &first);
}

/// The increment, whose Wptr begins at word 11.
fn increment_from_word_11(rt: &impl Abort, alloc: Global) -> Vec<u8> {
    let mut image = unwrap(rt, Vec::from_slice(alloc, &INCREMENT[..8]));
    unwrap(rt, image.push(11));
    unwrap(rt, image.extend_from_slice(&INCREMENT[9..]));
    image
}

/// The first byte of a workspace word, if it is defined.
fn first_byte(machine: &Machine, word: u32) -> Option<u8>
    requires { word < 512 }
{
    machine.cell(MEM_START + 4 * word)
}

/// One start after another on one machine.
#[test]
fn starts_anew_with_each_image(rt: HostRuntime) {
    let mut machine = Machine::new();
    start(&rt, &mut machine, INCREMENT);
    let later = increment_from_word_11(&rt, rt.alloc());
    start(&rt, &mut machine, later.as_slice());
    assert_same(&rt, &machine.registers().wptr, &0x8000_0074);
    start(&rt, &mut machine, INCREMENT);
    let cells = [
        first_byte(&machine, 0),
        first_byte(&machine, 11),
        first_byte(&machine, 12),
    ];
    assert_same(&rt, &cells, &[Some(0), Some(0), None]);
    start(&rt, &mut machine, MOVES_A_WORD);
    let cells = [
        first_byte(&machine, 0),
        first_byte(&machine, 1),
        first_byte(&machine, 15),
        first_byte(&machine, 16),
    ];
    assert_same(&rt, &cells, &[Some(42), Some(0), Some(0), None]);
}

/// The answer of a run over links that are kept.
fn run_again(machine: &mut Machine, image: &Image, links: &mut Links<Wire<'_>>) -> Answer {
    machine.run_image(image, links, 100)
}

/// The answers of four runs on one machine, the first three of them of one image.
fn four_answers(image: &Image, last: &Image, links: &mut Links<Wire<'_>>) -> [Answer; 4] {
    let mut machine = Machine::new();
    let first = run_again(&mut machine, image, links);
    let second = run_again(&mut machine, image, links);
    let third = run_again(&mut machine, image, links);
    [first, second, third, run_again(&mut machine, last, links)]
}

/// Four packets, of which the second is the greatest word.
fn send_four_packets(rt: &impl Abort, links: &mut Links<Wire<'_>>) {
    unwrap(rt, links.source.send(&[1, 0, 0, 0, 0xff, 0xff, 0xff, 0x7f]));
    unwrap(rt, links.source.send(&[1, 0, 0, 0, 1, 0, 0, 0]));
}

/// The answers of four runs over these media, and the results that their sink receives.
fn run_four(rt: &impl Abort, alloc: Global, media: &mut Media) -> ([Answer; 4], [u8; 16]) {
    let image = unwrap(rt, read_image(alloc, INCREMENT));
    let moves = unwrap(rt, read_image(alloc, MOVES_A_WORD));
    let mut links = wires(media);
    send_four_packets(rt, &mut links);
    let answers = four_answers(&image, &moves, &mut links);
    let mut results = [0; 16];
    unwrap(rt, links.sink.receive(&mut results));
    (answers, results)
}

#[test]
fn nothing_is_left_over_between_packets(rt: HostRuntime) {
    let mut media = make_media(&rt, rt.alloc());
    let (answers, results) = run_four(&rt, rt.alloc(), &mut media);
    let wanted = [
        ended(false, 16),
        ended(true, 16),
        ended(false, 16),
        ended(false, 19),
    ];
    assert_same(&rt, &answers, &wanted);
    let wanted = [2, 0, 0, 0, 0, 0, 0, 0x80, 2, 0, 0, 0, 42, 0, 0, 0];
    assert_same(&rt, &results, &wanted);
}

/// A device of which only its trait is known.
type AnyDevice = Box<dyn LinkDevice + Send>;

/// The answer of the tracing worker over these devices, to whose source its packet is sent.
fn trace_over(
    rt: &impl Abort,
    alloc: Global,
    source: AnyDevice,
    sink: AnyDevice,
    trace: AnyDevice,
) -> Answer {
    let image = unwrap(rt, read_image(alloc, TRACES_ITS_PACKET));
    let mut links = Links {
        source,
        sink,
        trace,
    };
    unwrap(rt, links.source.send(&[10, 0, 0, 0]));
    Machine::new().run_image(&image, &mut links, 100)
}

/// A wire in a box over a medium of four bytes, with the place where that lands.
fn boxed(rt: &impl Abort, alloc: Global) -> (Box<OwnedWire>, EndedMedium) {
    let medium = unwrap(rt, Medium::new(alloc, 4));
    let (wire, end) = unwrap(rt, OwnedWire::new(alloc, medium));
    (unwrap(rt, Box::new(alloc, wire)), end)
}

#[test]
fn runs_over_trait_objects(rt: HostRuntime) {
    let alloc = rt.alloc();
    let (source, _) = boxed(&rt, alloc);
    let (sink, results) = boxed(&rt, alloc);
    let (trace, traces) = boxed(&rt, alloc);
    let answer = trace_over(&rt, alloc, source, sink, trace);
    assert_same(&rt, &answer, &ended(false, 19));
    let sent = results.get().map(|medium| medium.bytes().len());
    let traced = traces.get().map(|medium| medium.bytes().len());
    assert_same(&rt, &(sent, traced), &(Some(4), Some(4)));
}
