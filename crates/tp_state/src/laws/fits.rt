//! Laws of what fits.

ghost use Rattle.std.specs.Prelude.{ℕ, ◌*◌, ◌<◌, ◌≤◌, List, length, All};
ghost use Rattle.tp_image.specs.Image.{ImageValue, InRange};
ghost use Rattle.tp_flow.specs.NestRanges.{ranges};
ghost use Rattle.tp_flow.specs.LoopsAround.{IsOutside};
ghost use Rattle.tp_step.specs.Runs.{start};
ghost use Rattle.tp_step.specs.State.{State as Machine};
ghost use Rattle.tp_state.specs.declared.state.State.{State};
ghost use Rattle.tp_state.specs.Order.{IsBelow};
ghost use Rattle.tp_state.specs.Entry.{entry};
ghost use Rattle.tp_state.specs.Fits.{Fits};

/// A machine's state that fits an abstract state fits every one above it.
pub fn what_fits_fits_above()
    ensures { (image : ImageValue) (at : ℕ) (t u : State) (s : Machine) → IsBelow t u → Fits image at t s →
        Fits image at u s }
{}

/// The start of a packet's run fits the first state at address 0, where the packet has its length and no loop is around
/// the first instruction.
pub fn start_fits_the_first_state()
    ensures { (image : ImageValue) (packet : List ℕ) → InRange image → 4 * image.packet ≤ length packet →
        All (λ byte. byte < 256) packet → IsOutside (ranges image.loops) 0 →
        Fits image 0 (entry image) (start image packet) }
{}
