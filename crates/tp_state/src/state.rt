//! Abstract states.

ghost use Rattle.std.specs.Prelude.{◌≡◌, ◌≤◌, ◌<◌, length, IfOk, OnErr, true, false};
ghost use Rattle.tp_state.specs.Answer.{answered};
ghost use Rattle.tp_state.specs.Conditions.{KeepsPlace, IsPlaced};
ghost use Rattle.tp_state.specs.Order.{AgreeOnValues, IsBelow, join, join_kinds, meeting, ReportsChange};
ghost use Rattle.tp_state.specs.Entry.{entry};
ghost use Rattle.tp_state.specs.Rules.{push, pop, pop_two, set_areg, replace_pair, no_registers, one_number};
ghost use Rattle.tp_state.specs.Rules.{two_numbers, local, below_wptr, suspended, descheduled};
ghost use Rattle.tp_state.specs.CellRules.{are_free};
ghost use Rattle.tp_state.specs.Kinds.{HasWordEnds};

use crate::cell::Cell;
use crate::cells::Cells;
use crate::fault::StateCode;
use crate::kind::Kind;
use crate::places::word_on;
use std::alloc::{AllocError, Global};
use tp_image::Image;
use tp_step::profile::FRAME_WORDS;

/// An abstract state: what is known of a worker before an instruction.
#[derive(Drop)]
pub struct State {
    /// Wptr, as the number of a workspace word.
    pub wptr: u32,
    /// The abstract value of Areg.
    pub a: Kind,
    /// The abstract value of Breg.
    pub b: Kind,
    /// The abstract value of Creg.
    pub c: Kind,
    /// 0 before the packet, 1 after it, 2 after the result.
    pub phase: u8,
    /// The abstract values of the workspace.
    pub cells: Cells,
}

impl State {
    /// The state before the first instruction of an image's code.
    pub fn entry(alloc: Global, image: &Image) -> Result<State, AllocError>
        ensures value { IfOk result (λ t. t ≡ entry image.now) }
        ensures placed { IfOk result (IsPlaced image.now) }
    {
        let cells = Cells::entry(alloc, image)?;
        Ok(State {
            wptr: image.start,
            a: Kind::Undef,
            b: Kind::Undef,
            c: Kind::Undef,
            phase: 0,
            cells,
        })
    }

    /// A copy.
    pub fn copy_of(&self, alloc: Global) -> Result<State, AllocError>
        ensures { IfOk result (λ t. t ≡ self.now) }
    {
        let cells = self.cells.copy_of(alloc)?;
        Ok(State {
            wptr: self.wptr,
            a: self.a,
            b: self.b,
            c: self.c,
            phase: self.phase,
            cells,
        })
    }

    /// Copies another state, of a workspace as large. It takes no memory.
    pub fn set_to(&mut self, other: &State)
        requires { length other.now.cells ≡ length self.old.cells }
        ensures { self.new ≡ other.now }
    {
        self.wptr = other.wptr;
        self.a = other.a;
        self.b = other.b;
        self.c = other.c;
        self.phase = other.phase;
        self.cells.set_to(&other.cells);
    }

    /// Copies a state that is above it. It takes no memory, and no word's value is copied: a word that has a value
    /// there has it here.
    pub fn raise_to(&mut self, other: &State)
        requires { IsBelow self.old other.now }
        ensures { self.new ≡ other.now }
    {
        self.a = other.a;
        self.b = other.b;
        self.c = other.c;
        self.cells.raise_to(&other.cells);
    }

    /// A law: the ends of its registers' ranges are words.
    pub fn law_has_word_ends(&self)
        ensures a { HasWordEnds self.now.a }
        ensures b { HasWordEnds self.now.b }
        ensures c { HasWordEnds self.now.c }
    {
        self.a.law_has_word_ends();
        self.b.law_has_word_ends();
        self.c.law_has_word_ends();
    }

    /// The join, in place, where the states may meet. Returns whether anything changed; fails with S6 or S9, and then
    /// nothing has. It takes no memory.
    pub fn join(&mut self, other: &State) -> Result<bool, StateCode>
        requires { length other.now.cells ≡ length self.old.cells }
        ensures value { answered result self.new ≡ meeting self.old other.now }
        ensures changed { IfOk result (λ changed. ReportsChange changed self.old self.new) }
        ensures kept { OnErr result (self.new ≡ self.old) }
    {
        if self.wptr != other.wptr {
            return Err(StateCode::S6);
        }
        if self.phase != other.phase {
            return Err(StateCode::S9);
        }
        Ok(self.join_known(other, false))
    }

    /// The join, in place, where some state is below both. They may meet, and a word that has a value in both has the
    /// same, so no values are compared. Returns whether anything changed. It takes no memory.
    pub fn join_compatible(&mut self, other: &State) -> bool
        requires { (t : State) × IsBelow t self.old × IsBelow t other.now }
        ensures value { self.new ≡ join self.old other.now }
        ensures changed { ReportsChange result self.old self.new }
    {
        self.join_known(other, true)
    }

    /// Whether the state is below the other: it says as much or more.
    pub fn is_below(&self, other: &State) -> bool
        requires { length other.now.cells ≡ length self.now.cells }
        ensures yes { result ≡ true → IsBelow self.now other.now }
        ensures no { result ≡ false → ¬ IsBelow self.now other.now }
    {
        self.wptr == other.wptr
            && self.phase == other.phase
            && self.a.is_below(other.a)
            && self.b.is_below(other.b)
            && self.c.is_below(other.c)
            && self.cells.are_below(&other.cells)
    }

    /// The join of registers and words, in place. Where words that have a value in both are known to have the same, no
    /// value is looked at.
    fn join_known(&mut self, other: &State, agree: bool) -> bool
        requires sized { length other.now.cells ≡ length self.old.cells }
        requires agree { agree ≡ true → AgreeOnValues self.old.cells other.now.cells }
        ensures value { self.new ≡ join self.old other.now }
        ensures changed { ReportsChange result self.old self.new }
    {
        let cells = self.cells.join(&other.cells, agree);
        self.join_registers(other) || cells
    }

    /// The join of the registers, in place. Returns whether any changed.
    fn join_registers(&mut self, other: &State) -> bool
        ensures value { self.new ≡ record self.old {
          a = join_kinds self.old.a other.now.a;
          b = join_kinds self.old.b other.now.b;
          c = join_kinds self.old.c other.now.c;
        } }
        ensures changed { ReportsChange result self.old self.new }
    {
        let a = join_kind(&mut self.a, other.a);
        let b = join_kind(&mut self.b, other.b);
        let c = join_kind(&mut self.c, other.c);
        a || b || c
    }

    pub(crate) fn push(&mut self, kind: Kind)
        ensures { self.new ≡ push kind self.old }
    {
        self.c = self.b;
        self.b = self.a;
        self.a = kind;
    }

    pub(crate) fn pop(&mut self)
        ensures { self.new ≡ pop self.old }
    {
        self.a = self.b;
        self.b = self.c;
        self.c = Kind::Undef;
    }

    pub(crate) fn pop_two(&mut self)
        ensures { self.new ≡ pop_two self.old }
    {
        self.a = self.c;
        self.b = Kind::Undef;
        self.c = Kind::Undef;
    }

    pub(crate) fn set_areg(&mut self, kind: Kind)
        ensures { self.new ≡ set_areg kind self.old }
    {
        self.a = kind;
    }

    pub(crate) fn replace_pair(&mut self, kind: Kind)
        ensures { self.new ≡ replace_pair kind self.old }
    {
        self.a = kind;
        self.b = self.c;
        self.c = Kind::Undef;
    }

    pub(crate) fn forget_registers(&mut self)
        ensures { self.new ≡ no_registers self.old }
    {
        self.a = Kind::Undef;
        self.b = Kind::Undef;
        self.c = Kind::Undef;
    }

    /// Areg as a number.
    #[tactic(auto, unfolding(crate::specs::Rules::one_number))]
    pub(crate) fn one_number(&self) -> Result<(i32, i32), StateCode>
        ensures { result ≡ one_number self.now }
    {
        self.a.known()?;
        self.a.number()
    }

    /// Areg and Breg as numbers, Areg first.
    #[tactic(auto, unfolding(crate::specs::Rules::two_numbers))]
    pub(crate) fn two_numbers(&self) -> Result<((i32, i32), (i32, i32)), StateCode>
        ensures { result ≡ two_numbers self.now }
    {
        self.a.known()?;
        self.b.known()?;
        let a = self.a.number()?;
        let b = self.b.number()?;
        Ok((a, b))
    }

    /// The word n words on from Wptr.
    #[tactic(auto, unfolding(crate::specs::Rules::local))]
    pub(crate) fn local(&self, image: &Image, n: i32) -> Result<u32, StateCode>
        ensures value { result ≡ local image.now self.now n }
        ensures inside { IfOk result (λ x. x < image.now.workspace) }
    {
        word_on(image, self.wptr, n)
    }

    /// Registers and the five words below Wptr are undefined.
    pub(crate) fn suspend(&mut self)
        requires roomy { 5 ≤ self.old.wptr }
        requires inside { self.old.wptr ≤ length self.old.cells }
        ensures value { self.new ≡ suspended self.old }
        ensures kept { KeepsPlace self.old self.new }
    {
        self.cells.fill(
            (self.wptr - FRAME_WORDS) as usize,
            FRAME_WORDS as usize,
            Cell::Undef,
        );
        self.forget_registers();
    }

    /// Whether no live control word is among the five words below Wptr.
    pub(crate) fn may_be_suspended(&self) -> bool
        requires { 5 ≤ self.now.wptr }
        ensures { result ≡ are_free (below_wptr self.now) }
    {
        self.cells
            .are_free((self.wptr - FRAME_WORDS) as usize, FRAME_WORDS as usize)
    }

    /// The same, unless one of these words is a live control word.
    #[tactic(auto, unfolding(crate::specs::Rules::descheduled))]
    pub(crate) fn deschedule(&mut self) -> Result<(), StateCode>
        requires roomy { 5 ≤ self.old.wptr }
        requires inside { self.old.wptr ≤ length self.old.cells }
        ensures value { answered result self.new ≡ descheduled self.old }
        ensures kept { KeepsPlace self.old self.new }
    {
        if !self.may_be_suspended() {
            return Err(StateCode::S5);
        }
        self.suspend();
        Ok(())
    }
}

/// The join of one register, in place. Returns whether it changed. Most that meet are alike, so the test is inlined.
#[tactic(auto, using(crate::proofs::OrderLemmas::join_kinds_same))]
#[inline(always)]
pub(crate) fn join_kind(kind: &mut Kind, other: Kind) -> bool
    ensures value { kind.new ≡ join_kinds kind.old other }
    ensures changed { ReportsChange result kind.old kind.new }
{
    if *kind == other {
        return false;
    }
    join_unlike(kind, other)
}

/// The rare case, out of line so that the equality test is inlined.
#[inline(never)]
fn join_unlike(kind: &mut Kind, other: Kind) -> bool
    ensures value { kind.new ≡ join_kinds kind.old other }
    ensures changed { ReportsChange result kind.old kind.new }
{
    let joined = kind.join(other);
    let changed = joined != *kind;
    *kind = joined;
    changed
}
