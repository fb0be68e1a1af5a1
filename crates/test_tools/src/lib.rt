//! The parts of the authors' tools that `cases/` cannot see: the faults of programs, the values of texts, images that
//! come back from their text, first refusals, and hostile texts and images. There is no code here but tests.
#![tactic(auto)]

#[cfg(test)]
mod assembly;
#[cfg(test)]
mod asserts;
#[cfg(test)]
mod hostile;
#[cfg(test)]
mod passes;
#[cfg(test)]
mod texts;
