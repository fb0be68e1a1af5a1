//! The state of a machine.

ghost use Rattle.std.specs.Prelude.{◌≡◌, ◌%◌};

/// The most bytes of a workspace, which are those that a machine keeps.
pub const WORKSPACE_BYTES: usize = 2048;

/// A machine with a workspace of 512 words in itself, and a tag beside each register and byte of the workspace: whether
/// it is defined.
#[derive(Drop)]
pub struct Machine {
    /// The address of the next byte, counted from code byte 0.
    pub(crate) iptr: i64,
    pub(crate) oreg: u32,
    pub(crate) wptr: u32,
    pub(crate) areg: Option<u32>,
    pub(crate) breg: Option<u32>,
    pub(crate) creg: Option<u32>,
    pub(crate) bytes: [u8; WORKSPACE_BYTES],
    pub(crate) defined: [bool; WORKSPACE_BYTES],
    pub(crate) error: bool,
    ghost shifted: { oreg % 16 ≡ 0 },
}
