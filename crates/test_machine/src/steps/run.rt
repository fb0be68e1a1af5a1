//! A vector on the machine.

use super::fields::Cells;
use super::vector::Vector;
use anyhow::{Result, anyhow};
use std::alloc::Global;
use tp_link::{LinkDevice, Links, Medium, Wire};
use tp_outcome::Outcome;
use tp_step::profile::MEM_START;
use tpw_machine::{Machine, Phase, Registers, RunFault, WORKSPACE_BYTES};

/// The room of each medium.
const ROOM: usize = 265;

/// The bytes sent before, on links 0 and 1.
pub(crate) const SENT: &[u8] = &[0xA5];

pub(crate) const TRACED: &[u8] = &[0x5A, 0xC3];

/// The answer of a machine, and what it leaves.
#[derive(Drop)]
pub(crate) struct Ran {
    pub(crate) answer: Result<Outcome, RunFault>,
    pub(crate) registers: Registers,
    pub(crate) phase: Phase,
    pub(crate) cells: Cells,
    pub(crate) source: Medium,
    pub(crate) sink: Medium,
    pub(crate) trace: Medium,
}

/// The machine holds these bytes.
fn fill(machine: &mut Machine, cells: &Cells) {
    for i in 0..WORKSPACE_BYTES {
        let address = MEM_START + i as u32;
        match cells[i] {
            Some(byte) => machine.put(address, &[byte]),
            None => machine.undefine(address, 1),
        }
    }
}

/// The bytes that the machine holds.
fn held(machine: &Machine) -> Cells {
    let mut cells = [None; WORKSPACE_BYTES];
    for i in 0..WORKSPACE_BYTES {
        cells[i] = machine.cell(MEM_START + i as u32);
    }
    cells
}

/// A machine in the vector's first state.
fn machine_at(vector: &Vector) -> Result<Machine> {
    if vector.registers.oreg % 16 != 0 {
        return Err(anyhow!("Oreg is no multiple of 16"));
    }
    let mut machine = Machine::new();
    machine.set_registers(vector.registers);
    fill(&mut machine, &vector.cells);
    Ok(machine)
}

/// A medium that holds these bytes.
fn holding(alloc: Global, bytes: &[u8]) -> Result<Medium> {
    let mut medium = Medium::new(alloc, ROOM)?;
    Wire::new(&mut medium)
        .send(bytes)
        .map_err(|fault| anyhow!("{fault}"))?;
    Ok(medium)
}

/// Runs a vector.
pub(crate) fn run(alloc: Global, vector: &Vector) -> Result<Ran> {
    let mut machine = machine_at(vector)?;
    let mut phase = vector.phase;
    let mut source = holding(alloc, &vector.to_come)?;
    let mut sink = holding(alloc, SENT)?;
    let mut trace = holding(alloc, TRACED)?;
    let mut links = Links {
        source: Wire::new(&mut source),
        sink: Wire::new(&mut sink),
        trace: Wire::new(&mut trace),
    };
    let answer = machine.resume(&vector.image, &mut links, &mut phase, vector.steps);
    drop(links);
    Ok(Ran {
        answer,
        registers: machine.registers(),
        phase,
        cells: held(&machine),
        source,
        sink,
        trace,
    })
}
