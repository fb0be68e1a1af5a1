//! Results of runs.

ghost use Rattle.std.specs.Prelude.{◌≡◌, ◌≤◌, length};
ghost use Rattle.tp_step.specs.Runs.{RunsAlone};
ghost use Rattle.tp_collect.specs.DoneValue.{run_of_parts, done_of_run, most_message_bytes, most_trace};

use crate::limits::MAX_MESSAGE;
use arrayvec::ArrayVec;
use std::marker::Model;
use std::snapshot::Snapshot;
use tp_image::Image;

/// The result of the run of one packet alone. A contract also sees the image and the packet whose run it is (`image`,
/// `bytes`); at run time they are not there.
#[derive(Drop)]
pub struct Done {
    /// The number of the batch.
    pub batch: u64,
    /// The packet's number in the batch, from 0.
    pub packet: u32,
    /// The result, in bytes.
    pub result: ArrayVec<u8, MAX_MESSAGE>,
    /// The error flag at the end.
    pub error: bool,
    /// How many instruction bytes were executed.
    pub steps: u32,
    /// The bytes of all trace messages, in the order in which they were sent.
    pub trace: ArrayVec<u8, MAX_MESSAGE>,
    image: Snapshot<Image>,
    bytes: Snapshot<ArrayVec<u8, MAX_MESSAGE>>,
}

impl Model for Done {
    ghost use Rattle.tp_collect.specs.DoneValue.{DoneValue};

    ghost Value = { DoneValue };

    ghost use Rattle.tp_collect.specs.DoneValue.{IsAlone};
    ghost use Rattle.tp_collect.specs.View.{value_of_done};

    ghost view = { value_of_done };

    ghost invariant = { λ d. IsAlone (value_of_done d) };
}

/// These bytes. The room behind them is cleared.
// Inlined, as what makes a `Done` is: else each packet's result is copied twice more on its way to where it is filed.
#[inline(always)]
fn message(bytes: &[u8]) -> ArrayVec<u8, MAX_MESSAGE>
    requires { length bytes.now ≤ most_message_bytes }
    ensures { result.items ≡ bytes.now }
{
    let mut message = ArrayVec::new();
    let _ = message.try_extend_from_slice(bytes);
    message
}

impl Done {
    /// The result of a packet of a batch: `bytes` are the packet's. It takes no memory, and borrows neither the image
    /// nor the packet.
    #[inline(always)]
    pub fn new(
        batch: u64,
        image: &Image,
        packet: u32,
        bytes: &ArrayVec<u8, MAX_MESSAGE>,
        result_bytes: ArrayVec<u8, MAX_MESSAGE>,
        error: bool,
        steps: u32,
        trace: ArrayVec<u8, MAX_MESSAGE>,
    ) -> Done
        requires { RunsAlone image.now bytes.now.items (run_of_parts result_bytes.items error steps trace.items) }
        ensures { result ≡ done_of_run (run_of_parts result_bytes.items error steps trace.items)
            batch packet image.now bytes.now.items }
    {
        Done {
            batch,
            packet,
            result: result_bytes,
            error,
            steps,
            trace,
            image: Snapshot::of(image),
            bytes: Snapshot::of(bytes),
        }
    }

    /// As `new`, but the result and the trace are copied from where they lie.
    #[inline(always)]
    pub fn from_slices(
        batch: u64,
        image: &Image,
        packet: u32,
        bytes: &ArrayVec<u8, MAX_MESSAGE>,
        result_bytes: &[u8],
        error: bool,
        steps: u32,
        trace: &[u8],
    ) -> Done
        requires result { length result_bytes.now ≤ most_message_bytes }
        requires trace { length trace.now ≤ most_trace }
        requires alone { RunsAlone image.now bytes.now.items (run_of_parts result_bytes.now error steps trace.now) }
        ensures { result ≡
            done_of_run (run_of_parts result_bytes.now error steps trace.now) batch packet image.now bytes.now.items }
    {
        Done::new(
            batch,
            image,
            packet,
            bytes,
            message(result_bytes),
            error,
            steps,
            message(trace),
        )
    }
}
