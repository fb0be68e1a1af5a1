//! Laws of exactness: an image may be run exactly where it is acceptable.

ghost use Rattle.std.specs.Prelude.{◌≡◌, ◌↔◌, ℕ, List, Ok, Err};
ghost use Rattle.tp_image.specs.Image.{ImageValue};
ghost use Rattle.tp_image.specs.Text.{IsTextOf};
ghost use Rattle.tp_decode.specs.Cutting.{Cut, IsCutting};
ghost use Rattle.tp_state.specs.declared.fault.StateCode.{StateCode};
ghost use Rattle.tp_check.specs.EdgesRespect.{HasNoTable};
ghost use Rattle.tp_accept.specs.Verdict.{allowed, IsAnswer};
ghost use Rattle.tp_accept.specs.Acceptance.{IsAcceptable};
ghost use Rattle.tp_accept.specs.declared.refusal.RefusalCode.TheVariants as code;
ghost use Rattle.tp_accept.specs.declared.refusal.Refusal.TheVariants as refusal;

/// Of an image's text the answer is that it may be run, with a budget, exactly where the image is acceptable with that
/// budget: its code is cut into instructions, no rule of flow is broken, there is a table that every edge respects, and
/// the bound is the budget and within the limit.
pub fn acceptable_images_alone_may_be_run()
    ensures { (text : List ℕ) (image : ImageValue) (budget : ℕ) → IsTextOf text image →
        (IsAnswer text (Ok (allowed image budget)) ↔ IsAcceptable image budget) }
{}

/// An image that is refused for its states has no table that every edge respects.
pub fn refused_states_have_no_table()
    ensures { (text : List ℕ) (image : ImageValue) (state : StateCode) (place : ℕ) → IsTextOf text image →
        IsAnswer text (Err (refusal.Refused (code.State state) place)) →
        (cuts : List Cut) → IsCutting image.code cuts → HasNoTable image cuts }
{}
