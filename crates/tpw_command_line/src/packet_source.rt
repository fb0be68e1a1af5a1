//! The packets that a command line asks for.

ghost use Rattle.std.specs.Prelude.{◌≡◌, ◌≤◌, ℕ, List, All, IfOk, OnOk, Some, length, map, slice_get, string_bytes};
ghost use Rattle.std.specs.Option.{option_map};
ghost use Rattle.tpw_runs.specs.Packets.{expected_said, packets_said, results_said};
ghost use Rattle.tpw_command_line.specs.Asked.{is_standard_file, origin_said, origins, words_said};

use crate::ending::Ending;
use crate::refusal::Refusal;
use std::alloc::Global;
use std::io::Read;
use std::rt::Files;
use tpw_files::{Failure, Input, Inputs, is_standard, text_of};
use tpw_runs::{Expected, Notation, PacketFault, fields_of, packet_of, packets_of, results_of};
use tpw_text::Position;

/// A file of packets, and how many packets of the command line come before it.
#[derive(Drop)]
pub struct PacketFile {
    pub name: String,
    pub after: usize,
}

/// Packets: those of the command line, each a line, and a file of more.
#[derive(Drop)]
pub struct PacketSource {
    pub words: Vec<String>,
    pub file: Option<PacketFile>,
    pub notation: Notation,
}

/// A file of results that are expected.
#[derive(Drop)]
pub struct Expecting {
    pub name: String,
    pub notation: Notation,
}

/// A fault of a packet that the command line says.
fn in_words(alloc: Global, words: &str, fault: PacketFault) -> Ending {
    let PacketFault::At(_, kind) = fault else {
        return Ending::Failed(Failure::Memory);
    };
    match String::from_str(alloc, words) {
        Ok(words) => Ending::Refused(Refusal::NoWords(words, kind)),
        Err(_) => Ending::Failed(Failure::Memory),
    }
}

/// Appends the packet of `bytes` bytes that words of the command line say.
fn push_said(
    alloc: Global,
    packets: &mut Vec<Vec<u8>>,
    words: &str,
    bytes: usize,
    notation: Notation,
) -> Result<(), Ending>
    requires most { bytes ≤ 256 }
    requires bytes { All (λ p. length p.items ≡ bytes) packets.old.items }
    ensures { OnOk result (All (λ p. length p.items ≡ bytes) packets.new.items) }
{
    let fields = fields_of(alloc, words.as_bytes(), 1)?;
    let place = Position { line: 1, column: 1 };
    match packet_of(&fields, place, bytes, notation) {
        Ok(packet) => {
            packets.push(Vec::from_slice(alloc, packet.as_slice())?)?;
            Ok(())
        }
        Err(fault) => Err(in_words(alloc, words, fault)),
    }
}

/// The packets of `bytes` bytes that words of the command line say.
fn packets_of_words(
    alloc: Global,
    words: &[String],
    bytes: usize,
    notation: Notation,
) -> Result<Vec<Vec<u8>>, Ending>
    requires { bytes ≤ 256 }
    ensures { IfOk result (λ packets. All (λ p. length p.items ≡ bytes) packets.items) }
{
    let mut packets = Vec::new(alloc);
    for line in words {
        push_said(alloc, &mut packets, line.as_str(), bytes, notation)?;
    }
    Ok(packets)
}

/// The failure of a file, which is named in it.
fn in_file(alloc: Global, name: &str, failure: Failure) -> Ending {
    match failure.in_file(alloc, name) {
        Ok(failure) => Ending::Failed(failure),
        Err(_) => Ending::Failed(Failure::Memory),
    }
}

/// The fault of a file that says no messages.
fn no_messages(alloc: Global, name: &str, fault: PacketFault) -> Ending {
    match (fault, Input::named(alloc, name)) {
        (PacketFault::At(_, _), Ok(input)) => Ending::NoMessages(input, fault),
        _ => Ending::Failed(Failure::Memory),
    }
}

/// The bytes of a file of messages.
fn bytes_in<T: Files, R: Read>(
    alloc: Global,
    inputs: &mut Inputs<'_, T, R>,
    name: &str,
) -> Result<Vec<u8>, Ending> {
    match inputs.read_file(alloc, name) {
        Ok(bytes) => Ok(bytes),
        Err(failure) => Err(in_file(alloc, name, failure)),
    }
}

/// The packets of `bytes` bytes that a file says, one a line.
fn packets_in<T: Files, R: Read>(
    alloc: Global,
    inputs: &mut Inputs<'_, T, R>,
    name: &str,
    bytes: usize,
    notation: Notation,
) -> Result<Vec<Vec<u8>>, Ending>
    requires { bytes ≤ 256 }
    ensures bytes { IfOk result (λ packets. All (λ p. length p.items ≡ bytes) packets.items) }
    ensures said { IfOk result (λ packets. (text : List ℕ)
        × (packets_said notation bytes text ≡ Some (map (λ p. p.items) packets.items))) }
{
    let file = bytes_in(alloc, inputs, name)?;
    match text_of(&file) {
        Ok(text) => match packets_of(alloc, text, bytes, notation) {
            Ok(packets) => Ok(packets),
            Err(fault) => Err(no_messages(alloc, name, fault)),
        },
        Err(failure) => Err(in_file(alloc, name, failure)),
    }
}

/// Where a packet is said: by words of the command line, or in a file, where it has a number.
#[derive(Clone, Copy, Debug, PartialEq, Eq)]
pub enum Origin<'a> {
    Words(&'a str),
    File(&'a str, usize),
}

impl PacketSource {
    /// The words of a number.
    fn said(&self, number: usize) -> Option<Origin<'_>>
        ensures { option_map origin_said result
            ≡ slice_get (words_said (map (λ w. string_bytes w) self.now.words.items)) number }
    {
        match self.words.get(number) {
            Some(words) => Some(Origin::Words(words.as_str())),
            None => None,
        }
    }

    /// Where the packet of a number is said, where some of them are in a file.
    fn said_beside<'a>(
        &'a self,
        file: &'a PacketFile,
        number: usize,
        packets: usize,
    ) -> Option<Origin<'a>>
        ensures { option_map origin_said result
            ≡ slice_get (origins (map (λ w. string_bytes w) self.now.words.items) (Some file.now) packets) number }
    {
        let before = file.after.min(self.words.len());
        let in_file = packets.saturating_sub(self.words.len());
        if number < before {
            self.said(number)
        } else if number - before < in_file {
            Some(Origin::File(file.name.as_str(), number - before))
        } else {
            self.said(number - in_file)
        }
    }

    /// Where the packet of a number is said.
    pub fn origin(&self, number: usize, packets: usize) -> Option<Origin<'_>>
        ensures { option_map origin_said result
            ≡ slice_get (origins (map (λ w. string_bytes w) self.now.words.items) self.now.file packets) number }
    {
        match &self.file {
            Some(file) => self.said_beside(file, number, packets),
            None => self.said(number),
        }
    }

    /// Whether the file is standard input.
    pub fn is_standard(&self) -> bool
        ensures { result ≡ is_standard_file self.now.file }
    {
        match &self.file {
            Some(file) => is_standard(file.name.as_str()),
            None => false,
        }
    }

    /// The packets that are asked for, in the order in which the command line says them.
    pub fn packets<T: Files, R: Read>(
        &self,
        alloc: Global,
        inputs: &mut Inputs<'_, T, R>,
        bytes: usize,
    ) -> Result<Vec<Vec<u8>>, Ending>
        requires { bytes ≤ 256 }
        ensures { IfOk result (λ packets. All (λ p. length p.items ≡ bytes) packets.items) }
    {
        let notation = self.notation;
        let Some(PacketFile { name, after }) = &self.file else {
            return packets_of_words(alloc, &self.words, bytes, notation);
        };
        let (before, behind) = self.words.split_at((*after).min(self.words.len()));
        let mut packets = packets_of_words(alloc, before, bytes, notation)?;
        packets.append(&mut packets_in(alloc, inputs, name.as_str(), bytes, notation)?)?;
        packets.append(&mut packets_of_words(alloc, behind, bytes, notation)?)?;
        Ok(packets)
    }
}

impl Expecting {
    /// The results of `bytes` bytes that are expected.
    pub fn results<T: Files, R: Read>(
        &self,
        alloc: Global,
        inputs: &mut Inputs<'_, T, R>,
        bytes: usize,
    ) -> Result<Vec<Expected>, Ending>
        requires { bytes ≤ 256 }
        ensures { IfOk result (λ results. (text : List ℕ)
            × (results_said self.now.notation bytes text ≡ Some (map expected_said results.items))) }
    {
        let name = self.name.as_str();
        let file = bytes_in(alloc, inputs, name)?;
        match text_of(&file) {
            Ok(text) => match results_of(alloc, text, bytes, self.notation) {
                Ok(results) => Ok(results),
                Err(fault) => Err(no_messages(alloc, name, fault)),
            },
            Err(failure) => Err(in_file(alloc, name, failure)),
        }
    }
}
