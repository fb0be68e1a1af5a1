//! The memory and registers of a machine.

/// A machine with a workspace of 512 words in itself. It keeps no tags: what a register or a byte holds where the step
/// relation has it undefined is its own.
#[derive(Drop)]
pub struct Machine {
    pub workspace: [u8; 2048],
    /// The evaluation stack.
    pub a: u32,
    pub b: u32,
    pub c: u32,
    /// The address of local 0.
    pub wptr: u32,
    /// The operand that prefixes have gathered.
    pub oreg: u32,
    /// The address of the next byte, counted from code byte 0.
    pub iptr: u32,
    /// The error flag.
    pub error: bool,
}

impl Machine {
    ghost use Rattle.std.specs.Prelude.{◌≡◌, false, replicate};

    /// A machine whose fields are all 0. A run sets what it needs.
    pub fn new() -> Machine
        ensures { result ≡
            record { workspace = replicate 2048 0; a = 0; b = 0; c = 0; wptr = 0; oreg = 0; iptr = 0; error = false } }
    {
        Machine {
            workspace: [0; 2048],
            a: 0,
            b: 0,
            c: 0,
            wptr: 0,
            oreg: 0,
            iptr: 0,
            error: false,
        }
    }
}
