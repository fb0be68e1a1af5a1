//! Texts between quotes.

ghost use Rattle.std.specs.Prelude.{◌≡◌, ◌∷◌, IfOk, Some, drop};
ghost use Rattle.tpw_occam_meaning.specs.Literals as text;

use std::alloc::Global;
use tpw_occam_names::Fault;
use tpw_occam_terms::quoted;

/// The rest behind the first bytes.
fn behind(spelled: &str, width: usize) -> Result<&str, Fault>
    ensures { IfOk result (λ rest. rest.now ≡ drop width spelled.now) }
{
    match spelled.get(width..) {
        Some(rest) => Ok(rest),
        None => Err(Fault::Wrong),
    }
}

/// A byte in front of others.
fn in_front(byte: u8, bytes: Vec<u8>) -> Result<Vec<u8>, Fault>
    ensures { IfOk result (λ all. all.items ≡ byte ∷ bytes.items) }
{
    let mut all = bytes;
    all.insert(0, byte)?;
    Ok(all)
}

/// The bytes of a text.
pub(crate) fn text_bytes(alloc: Global, spelled: &str, room: u32) -> Result<Vec<u8>, Fault>
    ensures { IfOk result (λ bytes. text.text spelled.now ≡ Some bytes.items) }
{
    if room == 0 {
        return Err(Fault::Deep);
    }
    if spelled.is_empty() {
        return Ok(Vec::new(alloc));
    }
    match quoted(spelled) {
        Some((byte, width)) => {
            let rest = behind(spelled, width)?;
            let more = text_bytes(alloc, rest, room - 1)?;
            in_front(byte, more)
        }
        None => Err(Fault::Wrong),
    }
}
