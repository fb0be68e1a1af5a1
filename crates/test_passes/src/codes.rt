//! Codes that look like those of workers, each by its seed.

ghost use Rattle.std.specs.Prelude.{◌<◌, ◌≢◌};

use crate::draft::*;
use crate::random::Random;
use std::alloc::{AllocError, Global};

/// No step is begun behind this many instructions: a step has at most 5, the ends of three loops 9, and the end 6.
const LAST_STEP: usize = 20;

/// How many variables a code has.
const VARIABLES: u8 = 6;

/// Workspaces have this many words: one word of bits has the cells of the first, and two have those of the other.
const SMALL: u16 = 20;

const LARGE: u16 = 80;

/// In a large workspace all variables but the first lie this many words further on, about the end of 64 words.
const FAR: i32 = 52;

/// Operations of two numbers, and one of one: add, sub, and, or, diff, prod, gt, rem, shr, not.
const OPERATIONS: [i32; 10] = [0x05, 0x0C, 0x46, 0x4B, 0x04, 0x08, 0x09, 0x1F, 0x40, 0x32];

/// rev, lb, bsub, diff, add, in, gt, wsub, out, seterr, csub0, sb, mint, div.
const ANY_OPERATIONS: [i32; 14] = [
    0x00, 0x01, 0x02, 0x04, 0x05, 0x07, 0x09, 0x0A, 0x0B, 0x10, 0x13, 0x3B, 0x42, 0x2C,
];

const MINT: i32 = 0x42;

const INPUT: i32 = 0x07;

const OUTPUT: i32 = 0x0B;

const STOPP: i32 = 0x15;

const WSUB: i32 = 0x0A;

const SHL: i32 = 0x41;

const SB: i32 = 0x3B;

const MOVE: i32 = 0x4A;

/// A code that is being written, with what its next steps come from.
#[derive(Drop)]
struct Writer {
    random: Random,
    draft: Draft,
    is_large: bool,
}

/// The image of a seed.
pub(crate) fn image_of(alloc: Global, seed: u64) -> Result<Vec<u8>, AllocError> {
    let mut random = Random::of(seed);
    let is_large = random.is_once_in(4);
    let draft = Draft::new(alloc);
    let mut writer = Writer {
        random,
        draft,
        is_large,
    };
    writer.write()?;
    let first = [u32::from(writer.random.below(4)), 7];
    let words = if is_large { LARGE } else { SMALL };
    writer.draft.image(alloc, words, &first)
}

impl Writer {
    /// The whole code.
    fn write(&mut self) -> Result<(), AllocError> {
        if !self.random.is_once_in(32) {
            self.take_packet()?;
        }
        if self.random.is_once_in(2) {
            self.chain()?;
        }
        for _ in 0..self.random.below(14) {
            if self.draft.len() <= LAST_STEP {
                self.step()?;
            }
        }
        self.draft.close_all()?;
        if !self.random.is_once_in(32) {
            self.send(0)?;
        }
        self.draft.operate(STOPP)
    }

    /// ldlp 0, mint, ldnlp 4, ldc 4, in.
    fn take_packet(&mut self) -> Result<(), AllocError> {
        self.draft.put(LDLP, 0)?;
        self.draft.operate(MINT)?;
        self.draft.put(5, 4)?;
        self.draft.put(LDC, 4)?;
        self.draft.operate(INPUT)
    }

    /// A word goes to link 0, or 1.
    fn send(&mut self, link: i32) -> Result<(), AllocError> {
        self.draft.put(LDLP, 0)?;
        self.draft.operate(MINT)?;
        if link != 0 {
            self.draft.put(ADC, 4)?;
        }
        self.draft.put(LDC, 4)?;
        self.draft.operate(OUTPUT)
    }

    /// A variable, as a local word.
    fn variable(&mut self) -> i32 {
        let number = self.random.below(VARIABLES);
        self.word_of(number)
    }

    fn word_of(&self, number: u8) -> i32 {
        let number = i32::from(number);
        if self.is_large && number != 0 {
            number.wrapping_add(FAR)
        } else {
            number
        }
    }

    /// One of a variable's words is pushed.
    fn load(&mut self) -> Result<(), AllocError> {
        let n = self.variable();
        self.draft.put(LDL, n)
    }

    fn store(&mut self) -> Result<(), AllocError> {
        let n = self.variable();
        self.draft.put(STL, n)
    }

    fn small(&mut self) -> i32 {
        i32::from(self.random.below(4))
    }

    /// One step: some instructions, the beginning of a loop or a jump, or the end of one.
    fn step(&mut self) -> Result<(), AllocError> {
        match self.random.below(32) {
            0..=2 => self.put_number(),
            3..=6 => self.move_on(),
            7..=9 => self.count_up(),
            10..=11 => self.work_out(),
            12..=14 => self.look_up(),
            15 => self.write_by_index(),
            16..=17 => self.shift(),
            18 => self.write_pointer(),
            19 => self.any_instruction(),
            20 => self.message_or_move(),
            21..=22 => self.begin_jump(),
            23 => self.jump_to_the_next(),
            24..=27 => self.begin_loop(),
            _ => self.end_one(),
        }
    }

    /// A loop in which a variable is used, then takes the next one's word, which takes the one behind it, and so on;
    /// the last counts up. So each pass knows less of one more.
    fn chain(&mut self) -> Result<(), AllocError> {
        self.begin_loop()?;
        if self.random.is_once_in(2) {
            self.use_word(1)?;
        }
        let last = self.random.below(VARIABLES - 1).wrapping_add(1);
        for number in 1..last {
            self.put_variable(LDL, number.wrapping_add(1))?;
            self.put_variable(STL, number)?;
        }
        self.put_variable(LDL, last)?;
        self.draft.put(ADC, 1)?;
        self.put_variable(STL, last)?;
        if self.random.is_once_in(4) {
            self.use_word(1)?;
        }
        Ok(())
    }

    /// Something is shifted by a variable, or the word this many words behind another is taken.
    fn use_word(&mut self, number: u8) -> Result<(), AllocError> {
        if self.random.is_once_in(2) {
            self.draft.put(LDC, 1)?;
            self.put_variable(LDL, number)?;
            return self.draft.operate(SHL);
        }
        self.put_variable(LDL, number)?;
        self.draft.put(LDLP, 0)?;
        self.draft.operate(WSUB)?;
        self.draft.put(LDNL, 0)
    }

    /// A variable, by its number, is read or written.
    fn put_variable(&mut self, function: u8, number: u8) -> Result<(), AllocError>
        requires function { function < 16 }
        requires no_pfix { function ≢ 2 }
        requires no_nfix { function ≢ 6 }
    {
        let n = self.word_of(number);
        self.draft.put(function, n)
    }

    /// A variable takes a number.
    fn put_number(&mut self) -> Result<(), AllocError> {
        let n = self.small().wrapping_sub(1);
        self.draft.put(LDC, n)?;
        self.store()
    }

    /// A variable takes another.
    fn move_on(&mut self) -> Result<(), AllocError> {
        self.load()?;
        self.store()
    }

    /// A variable is counted up.
    fn count_up(&mut self) -> Result<(), AllocError> {
        let n = self.variable();
        self.draft.put(LDL, n)?;
        self.draft.put(ADC, 1)?;
        self.draft.put(STL, n)
    }

    /// A variable takes what is worked out of two.
    fn work_out(&mut self) -> Result<(), AllocError> {
        self.load()?;
        self.load()?;
        let operation = OPERATIONS[usize::from(self.random.below(10))];
        self.draft.operate(operation)?;
        self.store()
    }

    /// A variable takes the word as many words behind another as a third has.
    fn look_up(&mut self) -> Result<(), AllocError> {
        self.load()?;
        let n = self.variable();
        self.draft.put(LDLP, n)?;
        self.draft.operate(WSUB)?;
        self.draft.put(LDNL, 0)?;
        self.store()
    }

    /// The same word takes a variable.
    fn write_by_index(&mut self) -> Result<(), AllocError> {
        self.load()?;
        self.load()?;
        let n = self.variable();
        self.draft.put(LDLP, n)?;
        self.draft.operate(WSUB)?;
        self.draft.put(STNL, 0)
    }

    /// A variable is shifted by another.
    fn shift(&mut self) -> Result<(), AllocError> {
        self.draft.put(LDC, 1)?;
        self.load()?;
        self.draft.operate(SHL)?;
        self.store()
    }

    /// A variable takes a pointer, or a byte of it is written.
    fn write_pointer(&mut self) -> Result<(), AllocError> {
        let n = self.variable();
        if self.random.is_once_in(2) {
            self.draft.put(LDLP, n)?;
            return self.store();
        }
        self.load()?;
        self.draft.put(LDLP, n)?;
        self.draft.operate(SB)
    }

    /// One instruction, whatever is known before it.
    fn any_instruction(&mut self) -> Result<(), AllocError> {
        let n = self.variable();
        match self.random.below(8) {
            0 => self.draft.put(AJW, n.wrapping_sub(2)),
            1 => self.draft.put(EQC, n),
            2 => self.draft.put(LDL, n),
            3 => self.draft.put(STL, n),
            4 => self.draft.put(LDNL, n),
            _ => {
                let operation = ANY_OPERATIONS[usize::from(self.random.below(14))];
                self.draft.operate(operation)
            }
        }
    }

    /// A word goes to a link, the packet is taken, or words are copied.
    fn message_or_move(&mut self) -> Result<(), AllocError> {
        match self.random.below(8) {
            0 => self.send(0),
            1 => self.take_packet(),
            2..=4 => self.send(1),
            _ => {
                let (from, to) = (self.variable(), self.variable());
                self.draft.put(LDLP, from)?;
                self.draft.put(LDLP, to)?;
                self.draft.put(LDC, 4)?;
                self.draft.operate(MOVE)
            }
        }
    }

    /// A jump to what comes later.
    fn begin_jump(&mut self) -> Result<(), AllocError> {
        if self.random.is_once_in(6) {
            return self.draft.put_jump(false);
        }
        self.load()?;
        self.draft.put_jump(true)
    }

    /// A conditional jump to what comes next.
    fn jump_to_the_next(&mut self) -> Result<(), AllocError> {
        self.load()?;
        self.draft.put(10, 0)
    }

    /// A loop begins; now and then its block has another count than its row.
    fn begin_loop(&mut self) -> Result<(), AllocError> {
        let start = u16::from(self.random.below(3));
        let count = u16::from(self.random.below(4)).wrapping_add(1);
        let stored = if self.random.is_once_in(32) {
            9
        } else {
            i32::from(count)
        };
        self.draft.put_head(start, count, stored)
    }

    /// A jump's target, or the end of a loop.
    fn end_one(&mut self) -> Result<(), AllocError> {
        let back = if self.random.is_once_in(8) { 1 } else { 0 };
        self.draft.close(back)
    }
}
