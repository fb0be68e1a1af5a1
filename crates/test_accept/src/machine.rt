//! Runs of accepted images on the machine, whatever it held before.

mod faults;
pub(crate) mod media;
pub(crate) mod runs;
