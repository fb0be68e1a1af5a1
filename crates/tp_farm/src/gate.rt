//! Gates.

ghost use Rattle.std.specs.Prelude.{◌≡◌, ℕ, Bool, true};

/// Asked by each member before it takes a packet, and notified of the packets that it has taken and handled. All
/// members ask one gate, from their own threads.
pub trait Gate: Sync {
    // It will answer true, whenever it is asked.
    ghost open_for_good: { Self → Bool };

    // Its answer to the member of this number was this. No other call than `ask` makes it so, whatever an impl says
    // here.
    ghost has_answered: { Self → ℕ → Bool → Type 0 };

    /// Whether the member may take another packet. Where not, it stops the batch.
    fn ask(&self, member: u32) -> bool
        ensures open { open_for_good self.now ≡ true → result ≡ true }
        ensures answer { has_answered self.now member result };

    /// The member has taken the packet of this number.
    fn claimed(&self, member: u32, number: u32);

    /// The member is done with it, or has lost it.
    fn finished(&self, member: u32, number: u32);
}

/// The gate that lets each member go on.
#[derive(Clone, Copy)]
pub struct OpenGate;

impl Gate for OpenGate {
    ghost open_for_good = { λ _. true };

    ghost has_answered = { λ _ _ answer. answer ≡ true };

    fn ask(&self, _member: u32) -> bool {
        true
    }

    fn claimed(&self, _member: u32, _number: u32) {}

    fn finished(&self, _member: u32, _number: u32) {}
}
