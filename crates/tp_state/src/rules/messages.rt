//! Messages, and words that are copied.

ghost use Rattle.std.specs.Prelude.{◌≡◌, ◌+◌, ◌<◌, ◌≤◌, ◌^◌, length};
ghost use Rattle.tp_decode.specs.declared.instr.Instr.TheVariants.{Input, Output, MoveBytes};
ghost use Rattle.tp_step.specs.Effects.{has_move};
ghost use Rattle.tp_state.specs.Answer.{answered};
ghost use Rattle.tp_state.specs.Conditions.{KeepsPlace, IsPlaced};
ghost use Rattle.tp_state.specs.Kinds.{is_exactly};
ghost use Rattle.tp_state.specs.Rules.{rule, channel as channel_of, count_of, is_one_length, is_trace_length};
ghost use Rattle.tp_state.specs.Rules.{words_to_send, phase_after, is_move_length, are_apart, moved, FollowsRule};

use crate::cell::Cell;
use crate::fault::StateCode;
use crate::kind::Kind;
use crate::places::message_in;
use crate::state::State;
use tp_image::Image;
use tp_step::profile::{LINK0_INPUT, LINK0_OUTPUT, LINK1_OUTPUT, MAX_TRACE_BYTES, has_move};

/// Whether what is known of a register is that it has this channel.
fn is_channel(known: Kind, address: u32) -> bool
    ensures { result ≡ is_exactly (channel_of address) known }
{
    known.is_exactly(address.cast_signed())
}

/// A number of bytes: 0 for one below 0.
fn count_of(n: i32) -> u32
    ensures { result ≡ count_of n }
{
    if n < 0 { 0 } else { n as u32 }
}

/// Whether it is one number of bytes.
fn is_one_length(length: (i32, i32)) -> bool
    ensures { result ≡ is_one_length length }
{
    length.0 == length.1 && 0 <= length.0
}

/// Whether a trace message may have this many bytes.
fn is_trace_length(bytes: u32) -> bool
    ensures { result ≡ is_trace_length bytes }
{
    bytes % 4 == 0 && 4 <= bytes && bytes <= MAX_TRACE_BYTES
}

/// How many words a result or a trace message has, by its channel.
#[tactic(auto, unfolding(crate::specs::Rules::words_to_send))]
fn words_to_send(image: &Image, channel: Kind, length: (i32, i32)) -> Result<u32, StateCode>
    ensures { result ≡ words_to_send image.now channel length }
{
    let bytes = count_of(length.0);
    if is_channel(channel, LINK0_OUTPUT) {
        if is_one_length(length) && bytes == 4 * image.result {
            Ok(image.result)
        } else {
            Err(StateCode::S7)
        }
    } else if is_channel(channel, LINK1_OUTPUT) {
        if is_one_length(length) && is_trace_length(bytes) {
            Ok(bytes / 4)
        } else {
            Err(StateCode::S7)
        }
    } else {
        Err(StateCode::S8)
    }
}

/// The phase after a message on a channel.
#[tactic(auto, unfolding(crate::specs::Rules::phase_after))]
fn phase_after(channel: Kind, phase: u8) -> Result<u8, StateCode>
    ensures { result ≡ phase_after channel phase }
{
    if is_channel(channel, LINK1_OUTPUT) {
        Ok(phase)
    } else if phase == 1 {
        Ok(2)
    } else {
        Err(StateCode::S9)
    }
}

/// Whether it is the length of what move copies.
#[tactic(auto, unfolding(crate::specs::Rules::is_move_length))]
fn is_move_length(length: (i32, i32)) -> bool
    ensures { result ≡ is_move_length length }
{
    length.0 == length.1 && 4 <= length.0 && length.0 <= 2048 && count_of(length.0) % 4 == 0
}

/// Whether two ranges of n words do not touch.
#[tactic(auto, unfolding(crate::specs::Rules::are_apart))]
fn are_apart(n: usize, x: usize, y: usize) -> bool
    requires n { n < 2 ^ 32 }
    requires x { x < 2 ^ 32 }
    requires y { y < 2 ^ 32 }
    ensures { result ≡ are_apart n x y }
{
    x + n <= y || y + n <= x
}

impl State {
    #[tactic(auto, unfolding(crate::specs::Rules::rule))]
    pub(super) fn input(&mut self, image: &Image) -> Result<(), StateCode>
        requires { IsPlaced image.now self.old }
        ensures value { FollowsRule image.now Input result self.old self.new }
        ensures kept { KeepsPlace self.old self.new }
    {
        self.a.known()?;
        self.b.known()?;
        self.c.known()?;
        self.a.number()?;
        self.b.number()?;
        let x = self.c.one_word()?;
        if !is_channel(self.b, LINK0_INPUT) {
            return Err(StateCode::S8);
        }
        if !self.a.is_exactly((4 * image.packet) as i32) {
            return Err(StateCode::S7);
        }
        if self.phase != 0 {
            return Err(StateCode::S9);
        }
        message_in(image, x, image.packet)?;
        if !self.cells.are_free(x as usize, image.packet as usize) {
            return Err(StateCode::S5);
        }
        self.cells
            .fill(x as usize, image.packet as usize, Cell::Any);
        self.phase = 1;
        self.deschedule()
    }

    #[tactic(auto, unfolding(crate::specs::Rules::rule, crate::specs::Rules::descheduled))]
    pub(super) fn output(&mut self, image: &Image) -> Result<(), StateCode>
        requires { IsPlaced image.now self.old }
        ensures value { FollowsRule image.now Output result self.old self.new }
        ensures kept { KeepsPlace self.old self.new }
    {
        self.a.known()?;
        self.b.known()?;
        self.c.known()?;
        let a = self.a.number()?;
        self.b.number()?;
        let x = self.c.one_word()?;
        let n = words_to_send(image, self.b, a)?;
        let phase = phase_after(self.b, self.phase)?;
        message_in(image, x, n)?;
        let may_be_suspended = self.may_be_suspended();
        self.suspend();
        if !self.cells.are_defined(x as usize, n as usize) {
            return Err(StateCode::S4);
        }
        if !may_be_suspended {
            return Err(StateCode::S5);
        }
        self.phase = phase;
        Ok(())
    }

    #[tactic(auto, unfolding(crate::specs::Rules::rule))]
    pub(super) fn move_bytes(&mut self, image: &Image) -> Result<(), StateCode>
        requires { IsPlaced image.now self.old }
        ensures value { FollowsRule image.now MoveBytes result self.old self.new }
        ensures kept { KeepsPlace self.old self.new }
    {
        if !has_move(image) {
            return Err(StateCode::S11);
        }
        self.a.known()?;
        self.b.known()?;
        self.c.known()?;
        let length = self.a.number()?;
        let target = self.b.one_word()?;
        let source = self.c.one_word()?;
        if !is_move_length(length) {
            return Err(StateCode::S7);
        }
        let words = count_of(length.0) / 4;
        message_in(image, target, words)?;
        message_in(image, source, words)?;
        self.copy(target as usize, source as usize, words as usize)
    }

    /// n words, from a word on, take copies of n others, and the registers are undefined.
    #[tactic(auto)]
    fn copy(&mut self, x: usize, y: usize, n: usize) -> Result<(), StateCode>
        requires target { x + n ≤ length self.old.cells }
        requires source { y + n ≤ length self.old.cells }
        requires few { n < 2 ^ 32 }
        requires small_target { x < 2 ^ 32 }
        requires small_source { y < 2 ^ 32 }
        ensures value { answered result self.new ≡ moved n x y self.old }
        ensures kept { KeepsPlace self.old self.new }
    {
        if !are_apart(n, x, y) {
            return Err(StateCode::S3);
        }
        if !self.cells.are_defined(y, n) {
            return Err(StateCode::S4);
        }
        if !self.cells.are_free(x, n) {
            return Err(StateCode::S5);
        }
        self.cells.copy(x, y, n);
        self.forget_registers();
        Ok(())
    }
}
