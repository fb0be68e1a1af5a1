//! A code that is being written, with its loops.

ghost use Rattle.std.specs.Prelude.{◌<◌, ◌≢◌};

use std::alloc::{AllocError, Global};
use tp_prefix::encode;

pub(crate) const LDLP: u8 = 1;

pub(crate) const LDNL: u8 = 3;

pub(crate) const LDC: u8 = 4;

pub(crate) const LDL: u8 = 7;

pub(crate) const ADC: u8 = 8;

pub(crate) const AJW: u8 = 11;

pub(crate) const EQC: u8 = 12;

pub(crate) const STL: u8 = 13;

pub(crate) const STNL: u8 = 14;

const OPR: u8 = 15;

/// The most loops of a code.
const MAX_LOOPS: usize = 3;

/// The first local word of the loops' blocks.
const BLOCKS: u8 = 6;

/// The first value of Wptr.
const START: u16 = 8;

/// An open part of a code: a jump whose target comes later, or a loop whose end does.
#[derive(Clone, Copy)]
enum Open {
    Jump(usize),
    Loop(usize),
}

/// A loop: its head, its lend, its block's first local word, its count and its first index.
#[derive(Clone, Copy)]
struct Row {
    head: u16,
    lend: u16,
    block: u8,
    count: u16,
    start: u16,
}

/// A code, as far as it is written.
#[derive(Drop)]
pub(crate) struct Draft {
    code: Vec<u8>,
    rows: Vec<Row>,
    open: Vec<Open>,
    instructions: usize,
}

impl Draft {
    pub(crate) fn new(alloc: Global) -> Draft {
        Draft {
            code: Vec::new(alloc),
            rows: Vec::new(alloc),
            open: Vec::new(alloc),
            instructions: 0,
        }
    }

    /// How many instructions are written.
    pub(crate) fn len(&self) -> usize {
        self.instructions
    }

    /// An instruction follows.
    pub(crate) fn put(&mut self, function: u8, operand: i32) -> Result<(), AllocError>
        requires function { function < 16 }
        requires no_pfix { function ≢ 2 }
        requires no_nfix { function ≢ 6 }
    {
        self.instructions = self.instructions.wrapping_add(1);
        self.code.extend_from_slice(&encode(function, operand))
    }

    /// An operation follows.
    pub(crate) fn operate(&mut self, operation: i32) -> Result<(), AllocError> {
        self.put(OPR, operation)
    }

    /// A j or a cj follows, with a target that comes later.
    pub(crate) fn put_jump(&mut self, is_conditional: bool) -> Result<(), AllocError> {
        self.instructions = self.instructions.wrapping_add(1);
        self.open.push(Open::Jump(self.code.len()))?;
        let function = if is_conditional { 0xA0 } else { 0x00 };
        self.code.extend_from_slice(&[0x20, function])
    }

    /// A loop begins, if there are not too many; its block takes these numbers.
    pub(crate) fn put_head(
        &mut self,
        start: u16,
        count: u16,
        stored: i32,
    ) -> Result<(), AllocError> {
        let number = self.rows.len();
        if number >= MAX_LOOPS {
            return Ok(());
        }
        let block = BLOCKS.wrapping_add(low_byte(number).wrapping_mul(2));
        self.put(LDC, i32::from(start))?;
        self.put(STL, i32::from(block))?;
        self.put(LDC, stored)?;
        self.put(STL, i32::from(block).wrapping_add(1))?;
        self.open.push(Open::Loop(number))?;
        self.rows.push(Row {
            head: address(self.code.len()),
            lend: 0,
            block,
            count,
            start,
        })?;
        Ok(())
    }

    /// Closes the part that was opened some places before the last, or the last.
    pub(crate) fn close(&mut self, back: usize) -> Result<(), AllocError> {
        let many = self.open.len();
        let at = if back < many {
            many - 1 - back
        } else {
            many.saturating_sub(1)
        };
        if at >= many {
            return Ok(());
        }
        match self.open.remove(at) {
            Open::Jump(from) => {
                self.lead_here(from);
                Ok(())
            }
            Open::Loop(number) => self.put_end(number),
        }
    }

    /// All that is open is closed, the last first.
    pub(crate) fn close_all(&mut self) -> Result<(), AllocError> {
        for _ in 0..self.open.len() {
            self.close(0)?;
        }
        Ok(())
    }

    /// The jump at an address leads to what comes next.
    fn lead_here(&mut self, from: usize) {
        let distance = low_byte(self.code.len().wrapping_sub(from).wrapping_sub(2));
        if let Some(byte) = self.code.get_mut(from) {
            *byte |= distance >> 4;
        }
        if let Some(byte) = self.code.get_mut(from.wrapping_add(1)) {
            *byte |= distance & 15;
        }
    }

    /// A loop ends.
    fn put_end(&mut self, number: usize) -> Result<(), AllocError> {
        let Some(row) = self.rows.get(number) else {
            return Ok(());
        };
        let Row { head, block, .. } = *row;
        self.put(LDLP, i32::from(block))?;
        let lend = address(self.code.len()).wrapping_add(2);
        let distance = low_byte(usize::from(lend.wrapping_add(2).wrapping_sub(head)));
        self.code
            .extend_from_slice(&[0x20 | distance >> 4, 0x40 | distance & 15])?;
        self.code.extend_from_slice(&[0x22, 0xF1])?;
        self.instructions = self.instructions.wrapping_add(2);
        if let Some(row) = self.rows.get_mut(number) {
            row.lend = lend;
        }
        Ok(())
    }

    /// The image of the code, of version 2, with this many workspace words and these first ones.
    pub(crate) fn image(
        &self,
        alloc: Global,
        words: u16,
        first: &[u32],
    ) -> Result<Vec<u8>, AllocError> {
        let mut bytes = Vec::from_slice(alloc, b"TPW2")?;
        let (code, loops) = (address(self.code.len()), address(self.rows.len()));
        for field in [code, words, START, 1, 1, loops, address(first.len())] {
            bytes.extend_from_slice(&field.to_le_bytes())?;
        }
        for row in &self.rows {
            let control = u16::from(row.block).wrapping_add(START);
            for field in [row.head, row.lend, control, row.count, row.start, 0] {
                bytes.extend_from_slice(&field.to_le_bytes())?;
            }
        }
        for word in first {
            bytes.extend_from_slice(&word.to_le_bytes())?;
        }
        bytes.extend_from_slice(&self.code)?;
        Ok(bytes)
    }
}

/// An address or a length as a field.
fn address(len: usize) -> u16 {
    (len % 65_536) as u16
}

fn low_byte(n: usize) -> u8 {
    (n % 256) as u8
}
