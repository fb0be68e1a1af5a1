//! Runs of whole workers over wires that borrow.

use crate::asserts::{assert_same, unwrap};
use crate::media::{Media, make_media, wires};
use std::alloc::Global;
use std::process::Abort;
use tp_image::read_image;
use tp_link::LinkDevice;
use tp_outcome::Outcome;
use tpw_machine::{Machine, RunFault};

/// The answer of a run.
pub(crate) type Answer = Result<Outcome, RunFault>;

/// That the worker has ended.
pub(crate) fn ended(error: bool, steps: u32) -> Answer {
    Ok(Outcome { error, steps })
}

/// A run: a worker, its packet, and how many bytes of its code it may execute.
#[derive(Clone, Copy)]
pub(crate) struct Task<'a> {
    pub(crate) image: &'a [u8],
    pub(crate) packet: &'a [u8],
    pub(crate) limit: u32,
}

/// The contents of the three media after a run.
#[derive(Clone, Copy, Default)]
pub(crate) struct Left<'a> {
    pub(crate) source: &'a [u8],
    pub(crate) sink: &'a [u8],
    pub(crate) trace: &'a [u8],
}

/// The answer of a run over media with room enough.
pub(crate) fn run(rt: &impl Abort, alloc: Global, machine: &mut Machine, task: Task<'_>) -> Answer {
    let mut media = make_media(rt, alloc);
    run_over(rt, alloc, &mut media, machine, task)
}

/// The answer of a run over these media, to whose source the packet is sent.
pub(crate) fn run_over(
    rt: &impl Abort,
    alloc: Global,
    media: &mut Media,
    machine: &mut Machine,
    task: Task<'_>,
) -> Answer {
    let image = unwrap(rt, read_image(alloc, task.image));
    let mut links = wires(media);
    unwrap(rt, links.source.send(task.packet));
    machine.run_image(&image, &mut links, task.limit)
}

/// The media hold this.
pub(crate) fn assert_left(rt: &impl Abort, media: &Media, left: Left<'_>) {
    let held = [
        media.source.bytes(),
        media.sink.bytes(),
        media.trace.bytes(),
    ];
    assert_same(rt, &held, &[left.source, left.sink, left.trace]);
}

/// A run over media with room enough gives this answer, and leaves this.
pub(crate) fn assert_run(
    rt: &(impl Abort + AllocGlobal),
    machine: &mut Machine,
    task: Task<'_>,
    wanted: Answer,
    left: Left<'_>,
) {
    let mut media = make_media(rt, rt.alloc());
    let answer = run_over(rt, rt.alloc(), &mut media, machine, task);
    assert_same(rt, &answer, &wanted);
    assert_left(rt, &media, left);
}
