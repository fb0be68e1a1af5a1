//! The laws of the farm core and of the board. Each function does nothing: its contract is the law,
//! over every state that the law speaks of.
ghost use Rattle.tp_board.specs.Runs.{RunLaw};
ghost use Rattle.tp_board.specs.declared.event.Event.TheVariants.{Claim, Finish, Abandon, Stop, Look};
ghost use Rattle.tp_board.specs.declared.event.Shown.{Shown};
ghost use Rattle.tp_board.specs.Laws.{StepLaw, AccountsLaw};
ghost use Rattle.tp_board.specs.Openings.{OpeningLaw};
ghost use Rattle.tp_board.specs.Schedules.{ScheduleLaw};

/// Every list of events draws the numbers in order, keeps each of them once, and takes nothing back.
pub fn runs_keep_accounts()
    ensures { RunLaw }
{}

/// An addition to the word `claimed` is one Claim of the farm core.
pub fn claim_is_one_event()
    ensures { StepLaw Claim }
{}

/// An addition to the word `done` is one Finish of the farm core.
pub fn finish_is_one_event()
    ensures { StepLaw Finish }
{}

/// An addition to the word `lost` is one Abandon of the farm core.
pub fn abandon_is_one_event()
    ensures { StepLaw Abandon }
{}

/// A setting of the word `stop` is one Stop of the farm core.
pub fn stop_is_one_event()
    ensures { StepLaw Stop }
{}

/// A load of one of the words is one Look of the farm core.
pub fn look_is_one_event()
    ensures { (what : Shown) → StepLaw (Look what) }
{}

/// Every schedule of the seats' steps is a run of the farm core, and draws the numbers in order.
pub fn every_schedule_is_a_run()
    ensures { ScheduleLaw }
{}

/// A board whose seats have made no step keeps the rule, and represents the opening core.
pub fn board_opens_as_core()
    ensures { OpeningLaw }
{}

/// Whatever the rule allows, the board has each number drawn so far once.
pub fn rule_keeps_accounts()
    ensures { AccountsLaw }
{}
