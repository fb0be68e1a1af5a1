//! The collector, with the results of a worker that adds one to its packet.

ghost use Rattle.std.specs.Prelude.{◌≡◌, [], ◌∷◌, map};
ghost use Rattle.test_base.specs.Workers.{increment, incremented, one};

use crate::asserts::assert_same;
use arrayvec::ArrayVec;
use std::process::Abort;
use test_samples::INCREMENT;
use tp_collect::limits::MAX_MESSAGE;
use tp_collect::{Collector, Done, Entry, LostCause, PutFault};
use tp_image::{Image, read_image};
use tp_link::{DeviceFault, Link, LinkFault};

type Message = ArrayVec<u8, MAX_MESSAGE>;

const REFUSED: LinkFault = LinkFault {
    link: Link::Sink,
    code: DeviceFault::Failed,
};

/// The worker's image.
fn worker(rt: &(impl Abort + AllocGlobal)) -> Image
    ensures { result ≡ increment }
{
    tp_image::laws::one_image();
    read_image(rt.alloc(), INCREMENT).expect(rt, "an image")
}

/// A message of one word.
fn word(value: u8) -> Message
    ensures { result.items ≡ value ∷ 0 ∷ 0 ∷ 0 ∷ [] }
{
    let mut message = ArrayVec::new();
    let _ = message.try_extend_from_slice(&[value, 0, 0, 0]);
    message
}

/// The result of the packet 1, under a batch and a number.
#[tactic(auto, unfolding(crate::proofs::Computing::by_steps))]
fn done(image: &Image, batch: u64, number: u32) -> Done
    requires { image.now ≡ increment }
    ensures { result ≡ incremented batch number }
{
    Done::new(
        batch,
        image,
        number,
        &word(1),
        word(2),
        false,
        16,
        ArrayVec::new(),
    )
}

/// Three packets, each the word 1.
fn packets() -> [Message; 3]
    ensures { map (λ p. p.items) result ≡ one ∷ one ∷ one ∷ [] }
{
    [word(1), word(1), word(1)]
}

/// The number and the result of an entry that has one, in bytes.
fn result_of(entry: &Entry) -> Option<(u32, &[u8])> {
    match entry {
        Entry::Done(done) => Some((done.packet, &done.result)),
        Entry::Lost(_) => None,
    }
}

fn cause_of(entry: &Entry) -> Option<LostCause> {
    match entry {
        Entry::Done(_) => None,
        Entry::Lost(cause) => Some(*cause),
    }
}

/// Results come out of order, one packet is lost by a device; one packet nobody took.
#[test]
fn one_entry_for_each_packet(rt: HostRuntime) {
    let image = worker(&rt);
    let packets = packets();
    let mut collector = Collector::new(rt.alloc(), 7, &image, &packets).expect(&rt, "memory");
    assert!(rt; collector.put(done(&image, 7, 2)).is_ok());
    assert_same(&rt, &collector.lose(0, REFUSED), &Ok(()));
    let entries = collector.finish().entries;
    assert_lost_two(&rt, &entries);
}

/// The first packet was lost by a device, nobody took the second, and the third has its result.
fn assert_lost_two(rt: &impl Abort, entries: &[Entry]) {
    assert_eq!(rt; entries.len(), 3);
    assert_same(rt, &cause_of(&entries[0]), &Some(LostCause::Link(REFUSED)));
    assert_same(rt, &cause_of(&entries[1]), &Some(LostCause::Stopped));
    assert!(rt; result_of(&entries[2]) == Some((2, [2, 0, 0, 0].as_slice())));
}

/// A refused result comes back as it was.
fn assert_refused(
    rt: &(impl Abort + AllocGlobal),
    answer: Result<(), (PutFault, Done)>,
    expected: PutFault,
    number: u32,
) {
    match answer {
        Ok(()) => panic!(rt; "filed"),
        Err((fault, done)) => {
            assert_same(rt, &fault, &expected);
            assert_same(rt, &done.packet, &number);
            assert!(rt; done.result.as_slice() == [2, 0, 0, 0].as_slice());
        }
    }
}

#[test]
fn a_filed_number_is_refused(rt: HostRuntime) {
    let image = worker(&rt);
    let packets = packets();
    let mut collector = Collector::new(rt.alloc(), 7, &image, &packets).expect(&rt, "memory");
    assert!(rt; collector.put(done(&image, 7, 1)).is_ok());
    assert_same(&rt, &collector.lose(2, REFUSED), &Ok(()));
    assert_refused(&rt, collector.put(done(&image, 7, 1)), PutFault::Filed, 1);
    assert_refused(&rt, collector.put(done(&image, 7, 2)), PutFault::Filed, 2);
    assert_same(&rt, &collector.lose(1, REFUSED), &Err(PutFault::Filed));
    assert_same(&rt, &collector.lose(2, REFUSED), &Err(PutFault::Filed));
    let entries = collector.finish().entries;
    assert!(rt; result_of(&entries[1]) == Some((1, [2, 0, 0, 0].as_slice())));
    assert_same(&rt, &cause_of(&entries[2]), &Some(LostCause::Link(REFUSED)));
}

/// Another batch is the first refusal, then a number that no packet has.
#[test]
fn refusals_in_their_order(rt: HostRuntime) {
    let image = worker(&rt);
    let packets = packets();
    let mut collector = Collector::new(rt.alloc(), 7, &image, &packets).expect(&rt, "memory");
    assert!(rt; collector.put(done(&image, 7, 0)).is_ok());
    assert_refused(
        &rt,
        collector.put(done(&image, 8, 0)),
        PutFault::OtherBatch,
        0,
    );
    assert_refused(
        &rt,
        collector.put(done(&image, 8, 3)),
        PutFault::OtherBatch,
        3,
    );
    assert_refused(
        &rt,
        collector.put(done(&image, 7, 3)),
        PutFault::NoPacket,
        3,
    );
    assert_same(&rt, &collector.lose(3, REFUSED), &Err(PutFault::NoPacket));
    assert_same(
        &rt,
        &collector.lose(u32::MAX, REFUSED),
        &Err(PutFault::NoPacket),
    );
}

/// As many packets as a batch may have, and none.
#[test]
fn batches_of_any_size(rt: HostRuntime) {
    let image = worker(&rt);
    let mut packets = Vec::new(rt.alloc());
    for _ in 0..1024_usize {
        packets.push(word(1)).expect(&rt, "memory");
    }
    let mut full = Collector::new(rt.alloc(), 7, &image, &packets).expect(&rt, "memory");
    assert_same(&rt, &full.lose(1023, REFUSED), &Ok(()));
    assert_same(&rt, &full.lose(1024, REFUSED), &Err(PutFault::NoPacket));
    assert_same(&rt, &full.finish().entries.len(), &1024);
    let empty = Collector::new(rt.alloc(), 7, &image, &[]).expect(&rt, "memory");
    assert_same(&rt, &empty.finish().entries.len(), &0);
}

#[test]
fn refusals_printed(rt: HostRuntime) {
    let texts = [
        (PutFault::Filed, "C1: the number has an entry"),
        (PutFault::NoPacket, "C2: no packet has the number"),
        (PutFault::OtherBatch, "C3: another batch"),
    ];
    for (fault, text) in texts {
        let printed = format!(in rt.alloc(); "{fault}").expect(&rt, "memory");
        assert_same(&rt, &printed.as_str(), &text);
    }
}
