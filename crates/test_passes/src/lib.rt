//! The passes as their definition has them, beside `check_states`, over generated codes. There is no code here but a
//! test.
#![tactic(auto)]

#[cfg(test)]
mod codes;
#[cfg(test)]
mod compared;
#[cfg(test)]
mod draft;
#[cfg(test)]
mod random;
#[cfg(test)]
mod whole;
