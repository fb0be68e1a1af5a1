//! The packets that a command line asks for, the results that are expected, and how results are shown.

ghost use Rattle.std.specs.Prelude.{◌≤◌};

use crate::ending::Ending;
use crate::packet_source::{Expecting, PacketSource};
use std::alloc::Global;
use std::io::Read;
use std::rt::Files;
use tpw_files::{Inputs, is_standard};
use tpw_runs::{Expected, Form, Style};

/// Packets, and how what is made of them is shown.
#[derive(Drop)]
pub struct OutputOptions {
    pub source: PacketSource,
    /// The results that are expected, where they are.
    pub expect: Option<Expecting>,
    pub style: Style,
    pub raw: bool,
}

impl OutputOptions {
    /// Whether the results that are expected are standard input.
    pub fn is_standard(&self) -> bool {
        match &self.expect {
            Some(expecting) => is_standard(expecting.name.as_str()),
            None => false,
        }
    }

    /// The results that are expected, where they are asked for.
    pub fn expected<T: Files, R: Read>(
        &self,
        alloc: Global,
        inputs: &mut Inputs<'_, T, R>,
        bytes: usize,
    ) -> Result<Option<Vec<Expected>>, Ending>
        requires { bytes ≤ 256 }
    {
        match &self.expect {
            Some(expecting) => Ok(Some(expecting.results(alloc, inputs, bytes)?)),
            None => Ok(None),
        }
    }

    /// How results are shown, where these are expected.
    pub fn form<'e>(&self, expected: &'e Option<Vec<Expected>>) -> Form<'e> {
        match expected {
            Some(expected) => Form::Differences(self.style, expected),
            None if self.raw => Form::Raw,
            None => Form::Lines(self.style),
        }
    }
}
