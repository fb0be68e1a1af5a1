//! Places in the workspace.

ghost use Rattle.std.specs.Prelude.{◌≡◌, ◌+◌, ◌*◌, ◌<◌, ◌≤◌, ◌+ℤ◌, ◌*ℤ◌, ◌^◌, pos, true, IfOk, OnOk};
ghost use Rattle.tp_state.specs.Answer.{answered};
ghost use Rattle.tp_state.specs.Kinds.{below, word_in, byte_in};
ghost use Rattle.tp_state.specs.Rules.{words_on, bytes_on, words_further, frame_at, message_in};

use crate::fault::StateCode;
use crate::kind::Kind;
use crate::ranges::range;
use tp_image::Image;
use tp_step::profile::FRAME_WORDS;

/// A whole number below a bound.
#[tactic(auto, unfolding(crate::specs::Kinds::below))]
fn below(bound: u32, x: i64) -> Result<u32, StateCode>
    ensures value { result ≡ below bound x }
    ensures inside { IfOk result (λ place. place < bound) }
{
    if 0 <= x && x < i64::from(bound) {
        Ok(x as u32)
    } else {
        Err(StateCode::S3)
    }
}

/// A word of the workspace.
#[tactic(auto, unfolding(crate::specs::Kinds::word_in))]
fn word_in(image: &Image, x: i64) -> Result<u32, StateCode>
    ensures value { result ≡ word_in image.now x }
    ensures inside { IfOk result (λ place. place < image.now.workspace) }
{
    below(image.workspace, x)
}

/// The word n words on from another.
pub(crate) fn word_on(image: &Image, x: u32, n: i32) -> Result<u32, StateCode>
    ensures value { result ≡ word_in image.now (pos x +ℤ n) }
    ensures inside { IfOk result (λ place. place < image.now.workspace) }
{
    word_in(image, further(u64::from(x), n))
}

/// A byte of the workspace.
#[tactic(auto, unfolding(crate::specs::Kinds::byte_in))]
fn byte_in(image: &Image, x: i64) -> Result<u32, StateCode>
    ensures { result ≡ byte_in image.now x }
{
    below(4 * image.workspace, x)
}

/// A place, n further on.
fn further(place: u64, n: i32) -> i64
    requires { place < 2 ^ 62 }
    ensures { result ≡ pos place +ℤ n }
{
    place as i64 + i64::from(n)
}

/// The words that a range of words on from a pointer may be.
#[tactic(auto, unfolding(crate::specs::Rules::words_on))]
pub(crate) fn words_on(image: &Image, p: (u32, u32), n: (i32, i32)) -> Result<(u32, u32), StateCode>
    ensures value { result ≡ words_on image.now p n }
    ensures first { IfOk result (λ w. w.0 < image.now.workspace) }
    ensures last { IfOk result (λ w. w.1 < image.now.workspace) }
{
    let first = word_in(image, further(u64::from(p.0), n.0))?;
    let last = word_in(image, further(u64::from(p.1), n.1))?;
    Ok((first, last))
}

/// The bytes likewise.
#[tactic(auto, unfolding(crate::specs::Rules::bytes_on))]
pub(crate) fn bytes_on(image: &Image, p: (u64, u64), n: (i32, i32)) -> Result<(u32, u32), StateCode>
    requires first { p.0 < 2 ^ 62 }
    requires last { p.1 < 2 ^ 62 }
    ensures { result ≡ bytes_on image.now p n }
{
    let first = byte_in(image, further(p.0, n.0))?;
    let last = byte_in(image, further(p.1, n.1))?;
    Ok((first, last))
}

/// The value n words on from a register: a place in the workspace, or a number.
#[tactic(auto, unfolding(crate::specs::Rules::words_further))]
pub(crate) fn words_further(image: &Image, n: i32, kind: Kind) -> Result<Kind, StateCode>
    ensures { result ≡ words_further image.now n kind }
{
    match kind {
        Kind::Undef => Err(StateCode::S1),
        Kind::Int(low, high) => Ok(range(words(low, n), words(high, n))),
        Kind::Ptr(first, last) => {
            let (first, last) = words_on(image, (first, last), (n, n))?;
            Ok(Kind::Ptr(first, last))
        }
        Kind::BytePtr(_, _) => Err(StateCode::S2),
    }
}

/// A place for Wptr.
#[tactic(auto, unfolding(crate::specs::Rules::frame_at))]
fn frame_at(image: &Image, x: i64) -> Result<u32, StateCode>
    ensures value { result ≡ frame_at image.now x }
    ensures roomy { IfOk result (λ place. 5 ≤ place) }
    ensures inside { IfOk result (λ place. place < image.now.workspace) }
{
    match u32::try_from(x) {
        Ok(place) if FRAME_WORDS <= place && place < image.workspace => Ok(place),
        _ => Err(StateCode::S6),
    }
}

/// The place for Wptr n words on from a word.
pub(crate) fn frame_on(image: &Image, x: u32, n: i32) -> Result<u32, StateCode>
    ensures value { result ≡ frame_at image.now (pos x +ℤ n) }
    ensures roomy { IfOk result (λ place. 5 ≤ place) }
    ensures inside { IfOk result (λ place. place < image.now.workspace) }
{
    frame_at(image, further(u64::from(x), n))
}

/// Refused, unless a message of n words from a word on lies in the workspace.
#[tactic(auto, unfolding(crate::specs::Rules::message_in))]
pub(crate) fn message_in(image: &Image, x: u32, n: u32) -> Result<(), StateCode>
    ensures value { answered result true ≡ message_in image.now x n }
    ensures inside { OnOk result (x + n ≤ image.now.workspace) }
{
    if u64::from(x) + u64::from(n) <= u64::from(image.workspace) {
        Ok(())
    } else {
        Err(StateCode::S3)
    }
}

/// A number, n words on.
fn words(number: i32, n: i32) -> i64
    ensures { result ≡ number +ℤ (n *ℤ pos 4) }
{
    i64::from(number) + 4 * i64::from(n)
}
