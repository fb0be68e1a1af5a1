//! Languages of workers.

use crate::input::Input;

/// The language that a worker is written in.
#[derive(Clone, Copy, Debug, PartialEq, Eq)]
pub enum Language {
    /// Assembly text, or an image in hexadecimal.
    Assembly,
    Occam,
}

/// The end of the names of files in occam.
const OCCAM: &str = ".occ";

impl Language {
    /// That of an input, by its name.
    pub fn of(input: &Input) -> Language {
        match input {
            Input::File(name) if name.as_str().ends_with(OCCAM) => Language::Occam,
            Input::File(_) | Input::Standard => Language::Assembly,
        }
    }
}
