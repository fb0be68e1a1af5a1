//! The cases that only a caller of `tpw_commands` sees: reads and writes that fail, inputs without end, and a check by
//! the meaning of another text. `cases/` has what `tpw` writes. There is no code here but tests.
#![tactic(auto)]

#[cfg(test)]
mod asserts;
#[cfg(test)]
mod checking;
#[cfg(test)]
mod digits;
#[cfg(test)]
mod program;
#[cfg(test)]
mod streams;
