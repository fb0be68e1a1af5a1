//! Packets, and results that are expected, as text: a message a line.

ghost use Rattle.std.specs.Prelude.{◌≡◌, ◌≤◌, ◌<◌, ◌*◌, ◌^◌, ◌++◌, All, IfOk, IfSome, OnOk, Some, length, map};
ghost use Rattle.std.specs.Option.{option_map};
ghost use Rattle.std.specs.Result.{result_ok};
ghost use Rattle.tpw_runs.specs.Packets.{hexadecimal_said, words_said, packet_said, flag_said, said_of};
ghost use Rattle.tpw_runs.specs.Packets.{result_said, expected_said, fields_said, unless_empty, AddsSaid};
ghost use Rattle.tpw_runs.specs.Packets.{packets_said, results_said};

use crate::fault::{PacketFault, PacketKind};
use crate::form::Expected;
use crate::values::value_of;
use std::alloc::{AllocError, Global};
use tp_collect::limits::MAX_MESSAGE;
use tp_image::layout::WORD_BYTES;
use tp_stream::Packet;
use tpw_text::Position;

/// How the messages of a text are written.
#[derive(Clone, Copy, Debug, PartialEq, Eq)]
pub enum Notation {
    /// The numbers of their words, as assembly text writes numbers, or as occam does.
    Words,
    /// One field of two hexadecimal digits for each byte, as they are sent.
    Hexadecimal,
}

/// A text between white space, and where it begins.
#[derive(Clone, Copy)]
pub struct Field<'t> {
    pub text: &'t [u8],
    pub position: Position,
}

/// Appends a field of the line of a number, behind the first `before` bytes, if it has bytes itself.
fn push_field<'l>(
    fields: &mut Vec<Field<'l>>,
    text: &'l [u8],
    line: usize,
    before: usize,
) -> Result<(), AllocError>
    requires { before < 2 ^ 63 }
    ensures { OnOk result (map (λ f. f.text.now) fields.new.items
        ≡ map (λ f. f.text.now) fields.old.items ++ unless_empty text.now) }
{
    if text.is_empty() {
        return Ok(());
    }
    let position = Position {
        line,
        column: before + 1,
    };
    fields.push(Field { text, position })?;
    Ok(())
}

/// The fields of the line of a number.
pub fn fields_of(alloc: Global, line: &[u8], number: usize) -> Result<Vec<Field<'_>>, AllocError>
    ensures { IfOk result (λ fields. map (λ f. f.text.now) fields.items ≡ fields_said line.now) }
{
    let mut fields = Vec::new(alloc);
    let mut start = 0usize;
    for (i, byte) in line.iter().enumerate() {
        if byte.is_ascii_whitespace() {
            push_field(&mut fields, &line[start..i], number, start)?;
            start = i + 1;
        }
    }
    push_field(&mut fields, &line[start..], number, start)?;
    Ok(fields)
}

/// A result that a line says is expected: the error flag and the message.
#[derive(Drop)]
struct Said {
    error: bool,
    message: Packet,
}

/// The bytes that fields say as one number of two hexadecimal digits a byte, in the order in which they are sent.
fn hexadecimal_of(fields: &[Field<'_>], bytes: usize) -> Option<Packet>
    requires { bytes ≤ 256 }
    ensures bytes { IfSome result (λ p. length p.items ≡ bytes) }
    ensures said { option_map (λ p. p.items) result ≡ hexadecimal_said bytes (map (λ f. f.text.now) fields.now) }
{
    let [field] = fields else {
        return None;
    };
    if field.text.len() != 2 * bytes {
        return None;
    }
    let mut message = [0; MAX_MESSAGE];
    let message = &mut message[..bytes];
    hex::decode_to_slice(field.text, message).ok()?;
    let mut packet = Packet::new();
    packet.try_extend_from_slice(message).ok()?;
    Some(packet)
}

/// The bytes of the numbers that fields say, a word each, low byte first; or the first field that says none.
fn numbers_of(fields: &[Field<'_>]) -> Result<Packet, PacketFault>
    requires { 4 * length fields.now ≤ 256 }
    ensures bytes { IfOk result (λ p. length p.items ≡ 4 * length fields.now) }
    ensures said { option_map (λ p. p.items) (result_ok result) ≡ words_said (map (λ f. f.text.now) fields.now) }
{
    let mut packet = Packet::new();
    for field in fields {
        let Some(number) = value_of(field.text) else {
            return Err(PacketFault::At(field.position, PacketKind::NoNumber));
        };
        let _ = packet.try_extend_from_slice(&number.to_le_bytes());
    }
    Ok(packet)
}

/// The fault of fields that say no message of `bytes` bytes as words.
fn fault_of_words(fields: &[Field<'_>], bytes: usize) -> PacketKind
    requires { bytes ≤ 256 }
{
    if hexadecimal_of(fields, bytes).is_some() {
        return PacketKind::Hexadecimal;
    }
    PacketKind::Length {
        found: fields.len(),
        wanted: bytes / WORD_BYTES,
    }
}

/// The message of `bytes` bytes that fields say, which begin at a place.
pub fn packet_of(
    fields: &[Field<'_>],
    place: Position,
    bytes: usize,
    notation: Notation,
) -> Result<Packet, PacketFault>
    requires { bytes ≤ 256 }
    ensures bytes { IfOk result (λ p. length p.items ≡ bytes) }
    ensures said { option_map (λ p. p.items) (result_ok result)
        ≡ packet_said notation bytes (map (λ f. f.text.now) fields.now) }
{
    match notation {
        Notation::Hexadecimal => match hexadecimal_of(fields, bytes) {
            Some(packet) => Ok(packet),
            None => Err(PacketFault::At(place, PacketKind::NoHexadecimal(2 * bytes))),
        },
        Notation::Words if fields.len() * WORD_BYTES == bytes => numbers_of(fields),
        Notation::Words => Err(PacketFault::At(place, fault_of_words(fields, bytes))),
    }
}

/// The error flag that a field says.
fn flag_of(field: &Field<'_>) -> Result<bool, PacketFault>
    ensures { result_ok result ≡ flag_said field.now.text.now }
{
    if field.text == b"0".as_slice() {
        Ok(false)
    } else if field.text == b"1".as_slice() {
        Ok(true)
    } else {
        Err(PacketFault::At(field.position, PacketKind::NoFlag))
    }
}

/// The error flag and the result of `bytes` bytes that fields say are expected, which begin at a place: `flag 1` and
/// the result's message, or its message alone.
fn result_of(
    fields: &[Field<'_>],
    place: Position,
    bytes: usize,
    notation: Notation,
) -> Result<Said, PacketFault>
    requires { bytes ≤ 256 }
    ensures { option_map said_of (result_ok result)
        ≡ result_said notation bytes (map (λ f. f.text.now) fields.now) }
{
    match fields {
        [word, flag, rest @ ..] if word.text == b"flag".as_slice() => {
            let error = flag_of(flag)?;
            let message = packet_of(rest, place, bytes, notation)?;
            Ok(Said { error, message })
        }
        _ => {
            let message = packet_of(fields, place, bytes, notation)?;
            Ok(Said {
                error: false,
                message,
            })
        }
    }
}

/// Appends the message of `bytes` bytes that a line says. A line without fields says none.
fn push_packet(
    alloc: Global,
    packets: &mut Vec<Vec<u8>>,
    line: &str,
    number: usize,
    bytes: usize,
    notation: Notation,
) -> Result<(), PacketFault>
    requires most { bytes ≤ 256 }
    requires bytes { All (λ p. length p.items ≡ bytes) packets.old.items }
    ensures bytes { OnOk result (All (λ p. length p.items ≡ bytes) packets.new.items) }
    ensures said { OnOk result (AddsSaid (packet_said notation bytes) (fields_said line.now)
        (map (λ p. p.items) packets.old.items) (map (λ p. p.items) packets.new.items)) }
{
    let fields = fields_of(alloc, line.as_bytes(), number)?;
    let Some(first) = fields.first() else {
        return Ok(());
    };
    let packet = packet_of(&fields, first.position, bytes, notation)?;
    packets.push(Vec::from_slice(alloc, packet.as_slice())?)?;
    Ok(())
}

/// The messages of `bytes` bytes that a text says, one a line. A line without fields is passed over.
pub fn packets_of(
    alloc: Global,
    text: &str,
    bytes: usize,
    notation: Notation,
) -> Result<Vec<Vec<u8>>, PacketFault>
    requires { bytes ≤ 256 }
    ensures bytes { IfOk result (λ packets. All (λ p. length p.items ≡ bytes) packets.items) }
    ensures said { IfOk result (λ packets.
        packets_said notation bytes text.now ≡ Some (map (λ p. p.items) packets.items)) }
{
    let mut packets = Vec::new(alloc);
    for (i, line) in text.lines().enumerate() {
        push_packet(alloc, &mut packets, line, i + 1, bytes, notation)?;
    }
    Ok(packets)
}

/// Appends the result of `bytes` bytes that a line says. A line without fields says none.
fn push_result(
    alloc: Global,
    results: &mut Vec<Expected>,
    line: &str,
    number: usize,
    bytes: usize,
    notation: Notation,
) -> Result<(), PacketFault>
    requires { bytes ≤ 256 }
    ensures { OnOk result (AddsSaid (result_said notation bytes) (fields_said line.now)
        (map expected_said results.old.items) (map expected_said results.new.items)) }
{
    let fields = fields_of(alloc, line.as_bytes(), number)?;
    let Some(first) = fields.first() else {
        return Ok(());
    };
    let Said { error, message } = result_of(&fields, first.position, bytes, notation)?;
    let message = Vec::from_slice(alloc, message.as_slice())?;
    results.push(Expected { error, message })?;
    Ok(())
}

/// The results of `bytes` bytes that a text says are expected, one a line. A line without fields is passed over.
pub fn results_of(
    alloc: Global,
    text: &str,
    bytes: usize,
    notation: Notation,
) -> Result<Vec<Expected>, PacketFault>
    requires { bytes ≤ 256 }
    ensures { IfOk result (λ results. results_said notation bytes text.now ≡ Some (map expected_said results.items)) }
{
    let mut results = Vec::new(alloc);
    for (i, line) in text.lines().enumerate() {
        push_result(alloc, &mut results, line, i + 1, bytes, notation)?;
    }
    Ok(results)
}
