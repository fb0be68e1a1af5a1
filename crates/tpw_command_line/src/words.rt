//! The words of a command line.

use crate::ending::Ending;
use crate::refusal::Refusal;
use std::alloc::Global;
use std::env;
use std::env::Env;
use std::io::ErrorKind;
use tpw_files::Failure;

/// The words of a command line, the first of which names the program.
pub fn words_of<E: Env>(environment: &E, alloc: Global) -> Result<Vec<String>, Ending> {
    let words = match env::args(&(environment, alloc)) {
        Ok(words) => words,
        Err(error) if error.kind() == ErrorKind::OutOfMemory => return Err(Ending::Failed(
            Failure::Memory,
        )),
        Err(_) => return Err(Ending::Refused(Refusal::NotText)),
    };
    let mut all = Vec::new(alloc);
    for word in words {
        all.push(word)?;
    }
    Ok(all)
}
