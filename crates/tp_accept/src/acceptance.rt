//! The verdict on a text.

ghost use Rattle.std.specs.Prelude.{◌≡◌, ◌≢◌, ℕ, IfOk, IfErr, IfSome, Ok, Err};
ghost use Rattle.tp_image.specs.Image.{ImageValue};
ghost use Rattle.tp_image.specs.Text.{IsTextOf};
ghost use Rattle.tp_image.specs.Faults.{first_fault};
ghost use Rattle.tp_accept.specs.Refusals.{of_image};
ghost use Rattle.tp_accept.specs.Verdict.{allowed, IsAnswer};
ghost use Rattle.tp_accept.specs.Acceptance.{IsAcceptable};
ghost use Rattle.tp_accept.specs.Ending.{NeverGoesWrong};
ghost use Rattle.tp_accept.specs.declared.refusal.Refusal.TheVariants as refusal;

use crate::accepted::Accepted;
use crate::bound::budget;
use crate::refusal::Refusal;
use std::alloc::Global;
use tp_check::check_states;
use tp_decode::decode;
use tp_flow::check_flow;
use tp_image::read_image;

/// The verdict on a text: the image that it spells, if it may be run, or the first refusal. The bytes are judged first,
/// then the cutting of the code, its flow, its states and its bound. Of an image that may be run, each packet's run
/// ends within the budget, and never goes wrong. An image may be run exactly where it is acceptable: it is refused for
/// its states only where no table exists that every edge respects.
///
/// ```
/// // A worker that adds one to its packet (`test_samples::INCREMENT`).
/// let accepted = accept(alloc, Vec::from_slice(alloc, INCREMENT)?)?;
/// assert_eq!(accepted.budget(), 16);
/// ```
pub fn accept(alloc: Global, text: Vec<u8>) -> Result<Accepted, Refusal>
    ensures image { IfOk result (λ accepted. IsTextOf text.items accepted.image) }
    ensures allowed { IfOk result (λ accepted. IsAnswer text.items (Ok (allowed accepted.image accepted.budget))) }
    ensures acceptable { IfOk result (λ accepted. IsAcceptable accepted.image accepted.budget) }
    ensures ends { IfOk result (λ accepted. NeverGoesWrong accepted.image accepted.budget) }
    ensures refused { IfErr result (λ e. e ≢ refusal.Memory → IsAnswer text.items (Err e)) }
    // Of an acceptable image only Memory is a refusal.
    ensures exact { IfErr result (λ e. e ≢ refusal.Memory →
        (image : ImageValue) (budget : ℕ) → IsTextOf text.items image → ¬ IsAcceptable image budget) }
    // Bytes that are no image are refused by the first test that they fail, whatever memory is left.
    ensures no_image { IfSome (first_fault text.items) (λ fault. result ≡ Err (of_image fault)) }
{
    let image = read_image(alloc, &text)?;
    let listing = decode(alloc, &image.code)?;
    let nest = check_flow(&image, &listing)?;
    check_states(alloc, &image, &listing, &nest)?;
    let budget = budget(alloc, &image, &listing)?;
    Ok(Accepted { image, budget })
}
