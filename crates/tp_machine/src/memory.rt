//! The workspace's bytes.

ghost use Rattle.std.specs.Prelude.{◌≡◌, ◌+◌, ◌-◌, ◌≤◌};
ghost use Rattle.std.specs.Int.{w32, to_le_bytes};
ghost use Rattle.tp_step.specs.State.{mem_start};
ghost use Rattle.tp_machine.specs.Bytes.{word_in, put};

use tp_step::profile::MEM_START;

/// The word at an address.
#[inline(always)]
pub(crate) fn load(workspace: &[u8; 2048], a: u32) -> u32
    requires low { mem_start ≤ a }
    requires high { a + 4 ≤ mem_start + 2048 }
    ensures { result ≡ word_in workspace.now (a - mem_start) }
{
    let i = (a - MEM_START) as usize;
    u32::from_le_bytes([
        workspace[i],
        workspace[i + 1],
        workspace[i + 2],
        workspace[i + 3],
    ])
}

/// The word at an address takes a value.
#[inline(always)]
pub(crate) fn store(workspace: &mut [u8; 2048], a: u32, v: u32)
    requires low { mem_start ≤ a }
    requires high { a + 4 ≤ mem_start + 2048 }
    ensures { workspace.new ≡ put workspace.old (a - mem_start) (to_le_bytes w32 v) }
{
    let i = (a - MEM_START) as usize;
    workspace[i..i + 4].copy_from_slice(&v.to_le_bytes());
}
