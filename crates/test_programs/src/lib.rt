//! The output and statuses of `farmd`, from its words and streams on. There is no code here but tests.
#![tactic(auto)]

#[cfg(test)]
mod asserts;
#[cfg(test)]
mod daemon;
