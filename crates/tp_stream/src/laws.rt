//! The laws of the stream. Each function does nothing: its contract is the law, over every state that the law
//! speaks of.
ghost use Rattle.tp_board.specs.declared.event.Event.TheVariants.{Finish, Abandon, Stop, Look};
ghost use Rattle.tp_board.specs.declared.event.Shown.{Shown};
ghost use Rattle.tp_stream.specs.Stages.{StreamIsBoardLaw, QueueLaw, PopLaw, PushLaw, WordLaw, IsAtWords};
ghost use Rattle.tp_stream.specs.StreamRuns.{StreamScheduleLaw, StreamOpeningLaw};

/// Whatever a stream's two rules allow, its queue and its words stand for a board under the board's
/// rule.
pub fn stream_stands_for_board()
    ensures { StreamIsBoardLaw }
{}

/// Whatever a stream's two rules allow, the numbers that were popped and those that the queue holds are the
/// numbers that were pushed, each once.
pub fn queue_holds_the_rest()
    ensures { QueueLaw }
{}

/// A pop of a packet is Claim with its number as the reply, and a pop of an end mark Claim with NoMore.
pub fn pop_is_one_event()
    ensures { PopLaw }
{}

/// A push leaves the board that a stream represents as it was.
pub fn push_is_no_event()
    ensures { PushLaw }
{}

/// An addition to a stream's word `done` is one Finish of the farm core.
pub fn stream_finish_is_one_event()
    ensures { WordLaw Finish }
{}

/// An addition to a stream's word `lost` is one Abandon of the farm core.
pub fn stream_abandon_is_one_event()
    ensures { WordLaw Abandon }
{}

/// A setting of a stream's word `stop` is one Stop of the farm core.
pub fn stream_stop_is_one_event()
    ensures { WordLaw Stop }
{}

/// A load of one of a stream's three words is one Look of the farm core.
pub fn stream_look_is_one_event()
    ensures { (what : Shown) → IsAtWords (Look what) → WordLaw (Look what) }
{}

/// Every list of steps at a stream's queue and words is a run of the farm core, and the packets are
/// popped in order.
pub fn every_stream_schedule_is_a_run()
    ensures { StreamScheduleLaw }
{}

/// A new stream keeps its two rules, and represents the opening farm with a seat for the feeder.
pub fn stream_opens_as_core()
    ensures { StreamOpeningLaw }
{}
