//! The states before the instructions of a code, by address.

ghost use Rattle.std.specs.Prelude.{◌≡◌, ◌<◌, length, replicate, true, false, Some, None, IfOk, IfSome, OnErr};
ghost use Rattle.tp_state.specs.Order.{IsBelow, ReportsChange};
ghost use Rattle.tp_check.specs.Tables.{table_of, HasPlacedStates};
ghost use Rattle.tp_check.specs.Passes.{enter, first_table};
ghost use Rattle.tp_check.specs.Arrivals.{Gives, ArrivedBefore};

use std::alloc::{AllocError, Global};
use tp_image::Image;
use tp_state::{State, StateFault};

/// The states before the first pass: the first address alone has one.
pub fn first_states(
    alloc: Global,
    image: &Image,
    places: usize,
) -> Result<Vec<Option<State>>, AllocError>
    requires some { 0 < places }
    ensures sized { IfOk result (λ states. length states.items ≡ places) }
    ensures value { IfOk result (λ states. table_of states.items ≡ first_table image.now) }
    ensures placed { IfOk result (λ states. HasPlacedStates image.now (table_of states.items)) }
{
    let mut states = no_states(alloc, places)?;
    states[0] = Some(State::entry(alloc, image)?);
    Ok(states)
}

/// A place for each address, none with a state.
fn no_states(alloc: Global, places: usize) -> Result<Vec<Option<State>>, AllocError>
    ensures { IfOk result (λ states. states.items ≡ replicate places None) }
{
    let mut states = Vec::with_capacity(alloc, places)?;
    for _at in 0..places {
        states.push(None)?;
    }
    Ok(states)
}

/// A state arrives at an address and is joined with the one kept there. Returns whether that changed it. Fails with S6
/// and S9 at the address. Where the state comes again, after one below it, no values of words are compared.
pub fn enter(
    alloc: Global,
    states: &mut [Option<State>],
    to: usize,
    state: &State,
    is_again: bool,
) -> Result<bool, StateFault>
    requires inside { to < length states.old }
    requires sized { IfSome (table_of states.old to) (λ t. length state.now.cells ≡ length t.cells) }
    requires again { is_again ≡ true → ArrivedBefore (table_of states.old to) state.now }
    ensures gives { Gives result (table_of states.new) (enter (Some to) state.now (table_of states.old)) }
    ensures sized { length states.new ≡ length states.old }
    ensures reports { IfOk result (λ moved. ReportsChange moved states.old states.new) }
    ensures kept { OnErr result (states.new ≡ states.old) }
{
    let slot = &mut states[to];
    match slot {
        Some(there) if is_again => Ok(there.join_compatible(state)),
        Some(there) => match there.join(state) {
            Ok(moved) => Ok(moved),
            Err(code) => Err(StateFault::Refused { code, place: to }),
        },
        None => {
            *slot = Some(state.copy_of(alloc)?);
            Ok(true)
        }
    }
}

/// The state before the instruction at an address, if there is one.
pub fn state_at(states: &[Option<State>], at: usize) -> Option<&State>
    ensures some { IfSome result (λ s. table_of states.now at ≡ Some s.now) }
    ensures none { result ≡ None → table_of states.now at ≡ None }
{
    match states.get(at) {
        Some(slot) => slot.as_ref(),
        None => None,
    }
}

/// A state takes the value of what is known at an address, if anything is: where it reaches the address, one above it;
/// else any. True where something is known there.
pub(crate) fn read_into(
    states: &[Option<State>],
    at: usize,
    state: &mut State,
    arrives: bool,
) -> bool
    requires sized { IfSome (table_of states.now at) (λ s. length s.cells ≡ length state.old.cells) }
    requires below { arrives ≡ true → IfSome (table_of states.now at) (IsBelow state.old) }
    ensures some { result ≡ true → table_of states.now at ≡ Some state.new }
    ensures none { result ≡ false → (table_of states.now at ≡ None) × (state.new ≡ state.old) }
{
    let Some(there) = state_at(states, at) else {
        return false;
    };
    if arrives {
        state.raise_to(there);
    } else {
        state.set_to(there);
    }
    true
}
