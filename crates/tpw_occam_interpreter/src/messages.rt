//! Messages.

ghost use Rattle.std.specs.Prelude.{◌≡◌, ◌<◌, length, IfOk, OnOk, Err};
ghost use Rattle.tpw_occam_core.specs.Meaning.{most_traced};
ghost use Rattle.tpw_occam_meaning.specs.States.{flagged, with_traced, with_result};
ghost use Rattle.tpw_occam_scoped.specs.Meaning as scoped;
ghost use Rattle.tpw_occam_interpreter.specs.Memories.{state_in, state_of};

use crate::expressions::value;
use crate::memory::{Cells, MAX_TRACED, Memory, bytes};
use crate::running::Halt;
use crate::watch::Watch;
use std::alloc::{AllocError, Global};
use tpw_occam_scoped::{Bytes, Message};

/// The bytes of an array, or of a table.
pub(crate) fn bytes_in<'r>(cells: &'r Cells<'_>, from: &'r Bytes) -> &'r [u8]
    ensures { result.now ≡ scoped.bytes_in from.now (state_in cells.now) }
{
    match from {
        Bytes::Array(a) => bytes(cells, *a),
        Bytes::Table(table) => table,
    }
}

/// The bytes of a message, and whether the flag is to be set.
fn message<W: Watch>(
    alloc: Global,
    memory: &Memory,
    watch: &mut W,
    m: &Message,
) -> Result<(Vec<u8>, bool), AllocError>
    ensures bytes { IfOk result (λ sent. sent.0.items ≡ scoped.bytes_of m.now (state_of memory.now)) }
    ensures flag { IfOk result (λ sent. sent.1 ≡ scoped.flag_of m.now (state_of memory.now)) }
{
    match m {
        Message::Value(e) => {
            let answer = value(&Cells::Of(memory), watch, e);
            let bytes = Vec::from_slice(alloc, &answer.word.to_le_bytes())?;
            Ok((bytes, answer.flag))
        }
        Message::Whole(from) => {
            Ok((
                Vec::from_slice(alloc, bytes_in(&Cells::Of(memory), from))?,
                false,
            ))
        }
    }
}

/// Traces a message. The packet is lost where more is traced than may be.
pub(crate) fn trace<W: Watch>(
    alloc: Global,
    memory: &mut Memory,
    watch: &mut W,
    m: &Message,
) -> Result<(), Halt>
    ensures done { OnOk result (state_of memory.new ≡ with_traced (scoped.bytes_of m.now (state_of memory.old))
        (flagged (scoped.flag_of m.now (state_of memory.old)) (state_of memory.old))) }
    ensures lost { result ≡ Err Halt.Lost → most_traced < length (with_traced (scoped.bytes_of m.now (state_of memory.old))
        (flagged (scoped.flag_of m.now (state_of memory.old)) (state_of memory.old))).traced }
{
    let (bytes, flag) = message(alloc, &*memory, watch, m)?;
    memory.raise(flag);
    memory.trace(&bytes)?;
    watch.trace(&bytes);
    if memory.traced.len() > MAX_TRACED {
        return Err(Halt::Lost);
    }
    Ok(())
}

/// Sends the result.
pub(crate) fn send<W: Watch>(
    alloc: Global,
    memory: &mut Memory,
    watch: &mut W,
    m: &Message,
) -> Result<(), AllocError>
    ensures { OnOk result (state_of memory.new ≡ with_result (scoped.bytes_of m.now (state_of memory.old))
        (flagged (scoped.flag_of m.now (state_of memory.old)) (state_of memory.old))) }
{
    let (bytes, flag) = message(alloc, &*memory, watch, m)?;
    memory.raise(flag);
    watch.send(&bytes);
    memory.send(bytes);
    Ok(())
}
