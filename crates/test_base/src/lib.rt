//! Worked examples, images, wires and their ends, and tests that cross crates. There is no code here but tests.
#![tactic(auto)]

#[cfg(test)]
mod asserts;
#[cfg(test)]
mod collecting;
#[cfg(test)]
mod ends;
#[cfg(test)]
mod images;
#[cfg(test)]
mod latch;
#[cfg(test)]
mod sizes;
#[cfg(test)]
mod spellings;
#[cfg(test)]
mod wires;
