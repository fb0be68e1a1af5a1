//! The rule of a board's table, and what the seat that makes a step learns from it.
use crate::view::View;
use atomic_table::{Join, Play, Split, TableRule};

/// The sizes that the rule of a board learns once.
#[derive(Clone, Copy)]
pub struct Size {
    pub packets: u64,
    pub members: u64,
}

/// The board's rule, under which its first seat is all seats in one.
pub struct BoardRule;

impl TableRule<(), View, Size> for BoardRule {
    ghost use Rattle.tp_board.specs.Views.{newcomer};
    ghost use Rattle.tp_board.specs.Plays.{Holds};

    ghost holds = { Holds };

    ghost first = { λ k. newcomer k.packets k.members };
}

/// An addition to `claimed`.
pub struct Draw;

impl Play<(), View> for Draw {
    ghost use Rattle.tp_board.specs.declared.event.Event.TheVariants as event;
    ghost use Rattle.tp_board.specs.Plays.{HasStepped};

    ghost then = { HasStepped event.Claim };
}

/// An addition to `done`.
pub struct Finish;

impl Play<(), View> for Finish {
    ghost use Rattle.tp_board.specs.declared.event.Event.TheVariants as event;
    ghost use Rattle.tp_board.specs.Plays.{HasStepped};

    ghost then = { HasStepped event.Finish };
}

/// An addition to `lost`.
pub struct Abandon;

impl Play<(), View> for Abandon {
    ghost use Rattle.tp_board.specs.declared.event.Event.TheVariants as event;
    ghost use Rattle.tp_board.specs.Plays.{HasStepped};

    ghost then = { HasStepped event.Abandon };
}

/// A setting of `stop`.
pub struct Halt;

impl Play<(), View> for Halt {
    ghost use Rattle.tp_board.specs.declared.event.Event.TheVariants as event;
    ghost use Rattle.tp_board.specs.Plays.{HasStepped};

    ghost then = { HasStepped event.Stop };
}

/// A load of `claimed`.
pub struct LookClaimed;

impl Play<(), View> for LookClaimed {
    ghost use Rattle.tp_board.specs.declared.event.Event.TheVariants.{Look};
    ghost use Rattle.tp_board.specs.declared.event.Shown.TheVariants.{Claimed};
    ghost use Rattle.tp_board.specs.Plays.{HasStepped};

    ghost then = { HasStepped (Look Claimed) };
}

/// A load of `done`.
pub struct LookDone;

impl Play<(), View> for LookDone {
    ghost use Rattle.tp_board.specs.declared.event.Event.TheVariants.{Look};
    ghost use Rattle.tp_board.specs.declared.event.Shown.TheVariants.{Done};
    ghost use Rattle.tp_board.specs.Plays.{HasStepped};

    ghost then = { HasStepped (Look Done) };
}

/// A load of `lost`.
pub struct LookLost;

impl Play<(), View> for LookLost {
    ghost use Rattle.tp_board.specs.declared.event.Event.TheVariants.{Look};
    ghost use Rattle.tp_board.specs.declared.event.Shown.TheVariants.{Lost};
    ghost use Rattle.tp_board.specs.Plays.{HasStepped};

    ghost then = { HasStepped (Look Lost) };
}

/// A load of `stop`.
pub struct LookStop;

impl Play<(), View> for LookStop {
    ghost use Rattle.tp_board.specs.declared.event.Event.TheVariants.{Look};
    ghost use Rattle.tp_board.specs.declared.event.Shown.TheVariants.{Stop};
    ghost use Rattle.tp_board.specs.Plays.{HasStepped};

    ghost then = { HasStepped (Look Stop) };
}

/// The cut of one seat from those that are still in one, and the joining of two.
pub struct OneSeat;

impl Split<View> for OneSeat {
    ghost use Rattle.std.specs.Prelude.{◌-◌};
    ghost use Rattle.tp_board.specs.Views.{newcomer};

    ghost left = { λ v. newcomer v.packets (v.parts - 1) };

    ghost right = { λ v. newcomer v.packets 1 };
}

impl Join<View> for OneSeat {
    ghost use Rattle.tp_board.specs.Views.{join_of, spent_view};

    ghost both = { join_of };

    ghost spent = { spent_view };
}
