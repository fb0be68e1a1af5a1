//! A machine that is set as a row says.

use std::process::Abort;
use test_effects::rows::Setting;
use tp_step::profile::MEM_START;
use tpw_machine::{Machine, Phase, Registers};

/// The words of a machine's workspace.
const WORDS: u32 = 512;

/// The words of the bare state.
const BARE_WORDS: u32 = 16;

/// The word at which Wptr begins.
const START_WORD: u32 = 8;

/// All of a state but its memory: the registers, how far the worker is, and the bytes of its messages, those to come on
/// link 0 and those that were sent on links 0 and 1.
#[derive(Clone, Copy)]
pub(crate) struct Place {
    pub(crate) registers: Registers,
    pub(crate) phase: Phase,
    pub(crate) coming: &'static [u8],
    pub(crate) sent: &'static [u8],
    pub(crate) traced: &'static [u8],
}

/// The bare state with Iptr here, and with these settings.
pub(crate) fn place_of(iptr: i64, settings: &[Setting]) -> Place {
    let mut place = Place {
        registers: Registers {
            iptr,
            oreg: 0,
            wptr: MEM_START + 4 * START_WORD,
            areg: None,
            breg: None,
            creg: None,
            error: false,
        },
        phase: Phase::BeforePacket,
        coming: &[],
        sent: &[],
        traced: &[],
    };
    for setting in settings {
        set(&mut place, *setting);
    }
    place
}

/// Applies a setting, but of the memory.
fn set(place: &mut Place, setting: Setting) {
    match setting {
        Setting::One(a) => set_stack(place, Some(a), None, None),
        Setting::Two(a, b) => set_stack(place, Some(a), Some(b), None),
        Setting::Three(a, b, c) => set_stack(place, Some(a), Some(b), Some(c)),
        Setting::WithoutAreg(b, c) => set_stack(place, None, Some(b), Some(c)),
        Setting::GivenWay => set_stack(place, None, None, None),
        Setting::Flagged => place.registers.error = true,
        Setting::Wptr(wptr) => place.registers.wptr = wptr,
        Setting::Oreg(oreg) => place.registers.oreg = oreg,
        Setting::Iptr(iptr) => place.registers.iptr = iptr,
        Setting::AfterPacket => place.phase = Phase::BeforeResult,
        Setting::AfterResult => place.phase = Phase::AfterResult,
        Setting::Stopped => place.phase = Phase::Stopped,
        Setting::Coming(bytes) => place.coming = bytes,
        Setting::Sent(bytes) => place.sent = bytes,
        Setting::Traced(bytes) => place.traced = bytes,
        Setting::Holding(..) | Setting::Lacking(..) | Setting::LackingByte(_) | Setting::Filled =>
            {}
    }
}

fn set_stack(place: &mut Place, areg: Option<u32>, breg: Option<u32>, creg: Option<u32>) {
    place.registers.areg = areg;
    place.registers.breg = breg;
    place.registers.creg = creg;
}

/// A machine with these registers, whose workspace is that of the bare state with these settings.
pub(crate) fn machine_of(rt: &impl Abort, registers: Registers, settings: &[Setting]) -> Machine {
    let mut machine = Machine::new();
    assert!(rt; registers.oreg % 16 == 0, "Oreg is no multiple of 16");
    machine.set_registers(registers);
    hold(rt, &mut machine, 0, &[0; BARE_WORDS as usize]);
    for setting in settings {
        set_memory(rt, &mut machine, *setting);
    }
    machine
}

/// Applies a setting of the memory.
fn set_memory(rt: &impl Abort, machine: &mut Machine, setting: Setting) {
    match setting {
        Setting::Holding(word, words) => hold(rt, machine, word, words),
        Setting::Lacking(word, count) => lack(rt, machine, word, count),
        Setting::LackingByte(address) => lack_byte(rt, machine, address),
        Setting::GivenWay => lack(rt, machine, 3, 5),
        Setting::Filled => fill(machine),
        _ => {}
    }
}

/// The words from this one on hold these.
fn hold(rt: &impl Abort, machine: &mut Machine, word: u32, words: &[u32]) {
    let mut number = word;
    for value in words {
        assert!(rt; number < WORDS, "no such word");
        machine.put(MEM_START + 4 * number, &value.to_le_bytes());
        number += 1;
    }
}

/// Every byte is 7.
fn fill(machine: &mut Machine) {
    for byte in 0..4 * WORDS {
        machine.put(MEM_START + byte, &[7]);
    }
}

/// From the first word on, this many words are undefined.
fn lack(rt: &impl Abort, machine: &mut Machine, word: u32, count: u32) {
    assert!(rt; word <= WORDS && count <= WORDS - word, "no such words");
    machine.undefine(MEM_START + 4 * word, 4 * count as usize);
}

/// The byte at this address is undefined.
fn lack_byte(rt: &impl Abort, machine: &mut Machine, address: u32) {
    assert!(rt;
        address >= MEM_START && address - MEM_START < 4 * WORDS,
        "no such byte"
    );
    machine.undefine(address, 1);
}

/// The first address of a workspace at which two machines differ.
pub(crate) fn first_difference(one: &Machine, other: &Machine) -> Option<u32> {
    for byte in 0..4 * WORDS {
        let address = MEM_START + byte;
        if one.cell(address) != other.cell(address) {
            return Some(address);
        }
    }
    None
}

/// A workspace word, if all of its bytes are defined.
pub(crate) fn word(machine: &Machine, number: u32) -> Option<u32> {
    if number >= WORDS {
        return None;
    }
    let address = MEM_START + 4 * number;
    let b0 = machine.cell(address)?;
    let b1 = machine.cell(address + 1)?;
    let b2 = machine.cell(address + 2)?;
    let b3 = machine.cell(address + 3)?;
    Some(u32::from_le_bytes([b0, b1, b2, b3]))
}
