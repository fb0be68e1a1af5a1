//! Short runs, as rows of a table: what they begin from, and their outcomes.
//!
//! `specs/Rows.antt` says what a row means by the definitions.

/// A difference of a state from the bare one, in which nothing is on the stack and each word is 0. Settings are made
/// one after another. Workspace words are named by their numbers, bytes by their addresses.
#[derive(Clone, Copy)]
pub enum Setting {
    /// One word on the stack, or two, or three, Areg first.
    One(u32),
    Two(u32, u32),
    Three(u32, u32, u32),
    /// Breg and Creg alone.
    WithoutAreg(u32, u32),
    /// The error flag is set.
    Flagged,
    Wptr(u32),
    Oreg(u32),
    Iptr(i64),
    /// The packet was received.
    AfterPacket,
    /// The result was sent too.
    AfterResult,
    /// The worker has stopped, after its result.
    Stopped,
    /// The words from this one on hold these.
    Holding(u32, &'static [u32]),
    /// From the first word on, this many words are undefined.
    Lacking(u32, u32),
    /// The byte at this address is undefined.
    LackingByte(u32),
    /// The registers, and the words 3 to 7, which are the five below Wptr, are undefined.
    GivenWay,
    /// Every byte is 7, in the workspace and outside.
    Filled,
    /// The bytes to come on link 0.
    Coming(&'static [u8]),
    /// The bytes that were sent on link 0.
    Sent(&'static [u8]),
    /// The bytes that were sent on link 1.
    Traced(&'static [u8]),
}

/// Whose code runs: a worker of version 1 with 16 words, with Wptr at word 8, whose packet and result have one word
/// each; or one that differs from it in one thing.
#[derive(Clone, Copy)]
pub enum Worker {
    Plain,
    /// Of version 2.
    Second,
    /// With 80 words.
    Roomy,
    TwoWordPacket,
    TwoWordResult,
}

/// The outcome of a run.
#[derive(Clone, Copy)]
pub enum Expected {
    /// Its code is executed byte by byte, from its first byte on, and leaves the bare state with these settings. Iptr
    /// is behind the code, where they do not say otherwise.
    Leads(&'static [Setting]),
    /// All bytes of the code but the last are executed, and it is stuck at the last.
    Sticks,
    /// It is stuck at once, with Iptr at this address, wrapped.
    SticksAtOnce(u32),
    /// All bytes but the last are executed, which is an in without its packet: by the definitions it is stuck, and on a
    /// machine the source refuses to give more than it has.
    LacksPacket,
    /// After this many steps Iptr is here, and of these words each is this, if it is defined.
    Shows(u32, i64, &'static [(u32, Option<u32>)]),
    /// After this many steps it has stopped, and makes no step more.
    Ends(u32),
}

/// A short run.
#[derive(Clone, Copy)]
pub struct Row {
    pub name: &'static str,
    pub worker: Worker,
    pub code: &'static [u8],
    pub from: &'static [Setting],
    pub expected: Expected,
}

/// An instruction, and its rows.
#[derive(Clone, Copy)]
pub struct Group(pub &'static str, pub &'static [Row]);

/// The worker of a row.
macro_rules! worker {
    () => { Worker::Plain };
    ($worker:ident) => { Worker::$worker };
}

/// Rows, each written `name: code, from => expected;`, or `name in worker: ..` where the worker is not the plain one.
macro_rules! rows {
    ($($name:ident $(in $worker:ident)?: $code:expr, $from:expr => $expected:expr;)*) => {
        &[$(Row {
            name: stringify!($name),
            worker: worker!($($worker)?),
            code: &$code,
            from: &$from,
            expected: $expected,
        }),*]
    };
}

pub(crate) use rows;
pub(crate) use worker;
