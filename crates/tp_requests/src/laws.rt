//! Laws of the protocol's lines: each function's contract is the law.

ghost use Rattle.std.specs.Prelude.{◌≡◌, ℕ, List};
ghost use Rattle.tp_requests.specs.Requests.{Asked};
ghost use Rattle.tp_requests.specs.Protocol.{IsLineFor, MayBeAsked, line_for};

/// No line asks for two things.
pub fn one_line_asks_for_one_thing()
    ensures { (line : List ℕ) (a b : Asked) → IsLineFor line a → IsLineFor line b → a ≡ b }
{}

/// Each request has a line, and nothing else has one: the one with digits in lower case, and others.
pub fn what_may_be_asked_has_a_line()
    ensures some { (request : Asked) → MayBeAsked request → IsLineFor (line_for request) request }
    ensures only { (line : List ℕ) (request : Asked) → IsLineFor line request → MayBeAsked request }
{}
