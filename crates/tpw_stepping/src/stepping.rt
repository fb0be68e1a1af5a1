//! A run, an instruction at a time.

ghost use Rattle.std.specs.Prelude.{◌≡◌};
ghost use Rattle.tpw_stepping.specs.Runs.{of_run};
ghost use Rattle.tpw_stepping.specs.declared.stepping.WatchFault.TheVariants as watch;

use crate::place::place_of;
use std::alloc::{AllocError, AllocFailed, Global};
use std::io::Write;
use tp_image::Image;
use tp_image::layout::WORD_BYTES;
use tpw_command_line::{Ending, FROM, PlaceKind, Refusal, StepOptions, UNTIL, WatchKind};
use tpw_debug::{Named, SourceText};
use tpw_files::{Failure, Outcome};
use tpw_step::{End, Place, Shown, Span, Watched, show_run};

/// The part of a run that is shown: from where and as far as what, the words whose changes are shown, and how.
#[derive(Drop)]
pub struct Excerpt<'a> {
    span: Span,
    watched: Vec<Watched>,
    source: SourceText<'a>,
    hexadecimal: bool,
    statements: bool,
}

/// The address of a statement of a text, or of a label.
fn at_address(at: usize, otherwise: PlaceKind) -> Result<Place, PlaceKind> {
    match u32::try_from(at) {
        Ok(address) => Ok(Place::Address(address)),
        Err(_) => Err(otherwise),
    }
}

/// The address of the first instruction that a line of a text says.
fn place_of_line(source: SourceText<'_>, line: &str) -> Result<Place, PlaceKind> {
    let line = line.parse::<usize>().or(Err(PlaceKind::NoLine))?;
    let found = source
        .statements
        .iter()
        .find(|statement| statement.line == line);
    match found {
        Some(statement) => at_address(statement.at, PlaceKind::NoLine),
        None => Err(PlaceKind::NoLine),
    }
}

/// The address of a label.
fn place_of_label(source: SourceText<'_>, word: &str) -> Result<Place, PlaceKind> {
    match source.labels.iter().find(|label| label.name == word) {
        Some(label) => at_address(label.at, PlaceKind::NoLabel),
        None => Err(PlaceKind::NoLabel),
    }
}

/// The place that a word names which is no number: a line, as `line:37`, or a label.
fn place_in_text(source: SourceText<'_>, word: &str) -> Result<Place, PlaceKind> {
    if word.is_empty() || word.starts_with(|c: char| c.is_ascii_digit() || c == '+') {
        return Err(PlaceKind::NoNumber);
    }
    if source.statements.is_empty() {
        return Err(PlaceKind::NoText);
    }
    match word.strip_prefix("line:") {
        Some(line) => place_of_line(source, line),
        None => place_of_label(source, word),
    }
}

/// The place that the word of an option names: an address, a count of steps, a line or a label.
fn place_named(
    alloc: Global,
    source: SourceText<'_>,
    option: &'static str,
    word: &Option<String>,
) -> Result<Option<Place>, Ending> {
    let Some(word) = word else {
        return Ok(None);
    };
    let word = word.as_str();
    if let Some(place) = place_of(word) {
        return Ok(Some(place));
    }
    match place_in_text(source, word) {
        Ok(place) => Ok(Some(place)),
        Err(kind) => {
            let word = String::from_str(alloc, word)?;
            Err(Ending::Refused(Refusal::NoPlace(word, option, kind)))
        }
    }
}

/// A name as the option has it: of each local that has it, or of the one that a line declares, as `k@12`.
#[derive(Clone, Copy)]
struct Wanted<'w> {
    name: &'w str,
    line: Option<usize>,
}

/// The name that a word says, with the line behind it where it has one.
fn wanted_of(word: &str) -> Result<Wanted<'_>, WatchKind> {
    let Some((name, line)) = word.split_once("@") else {
        return Ok(Wanted {
            name: word,
            line: None,
        });
    };
    match line.parse::<usize>() {
        Ok(line) => Ok(Wanted {
            name,
            line: Some(line),
        }),
        Err(_) => Err(WatchKind::NotDeclared),
    }
}

impl Wanted<'_> {
    /// Whether a local is one of those that are wanted.
    fn has(&self, local: &Named<'_>) -> bool {
        local.name == self.name && self.line.unwrap_or(local.line) == local.line
    }

    /// Why there is none.
    fn missing(&self) -> WatchKind {
        match self.line {
            Some(_) => WatchKind::NotDeclared,
            None => WatchKind::NoLocal,
        }
    }
}

/// Why an item of the option names no words, or why they are not kept.
#[derive(Clone, Copy, Debug, PartialEq, Eq)]
enum WatchFault {
    None(WatchKind),
    Memory,
}

impl From<AllocError> for WatchFault {
    ghost from_gives = { λ _ e. e ≡ watch.Memory };

    fn from(_: AllocError) -> Self {
        WatchFault::Memory
    }
}

impl<T: Drop> From<AllocFailed<T>> for WatchFault {
    ghost from_gives = { λ _ e. e ≡ watch.Memory };

    fn from(_: AllocFailed<T>) -> Self {
        WatchFault::Memory
    }
}

impl From<WatchKind> for WatchFault {
    ghost from_gives = { λ kind e. e ≡ watch.None kind };

    fn from(kind: WatchKind) -> Self {
        WatchFault::None(kind)
    }
}

/// Adds the locals that a word names: each of its name, or that of a line.
fn push_locals(
    watched: &mut Vec<Watched>,
    source: SourceText<'_>,
    word: &str,
) -> Result<(), WatchFault> {
    let wanted = wanted_of(word)?;
    let before = watched.len();
    for local in source.words {
        if wanted.has(local) {
            watched.push(Watched::of(local))?;
        }
    }
    if watched.len() == before {
        return Err(WatchFault::None(wanted.missing()));
    }
    Ok(())
}

/// The element of a local that has a number: a word, or a byte of an array of such.
fn element_of(local: &Named<'_>, index: usize) -> Option<Watched> {
    match local.bytes {
        Some(bytes) if index < bytes => Some(Watched::of(local).part(index, 1)),
        None if index < local.words => {
            Some(Watched::of(local).part(index.saturating_mul(WORD_BYTES), WORD_BYTES))
        }
        _ => None,
    }
}

/// Why a local has no element.
fn no_element(local: &Named<'_>) -> WatchKind {
    match local.bytes {
        Some(bytes) => WatchKind::NoByte(bytes),
        None => WatchKind::NoIndex(local.words),
    }
}

/// Adds what `buf[2]` names: an element of each local that has as many.
fn push_indexed(
    watched: &mut Vec<Watched>,
    source: SourceText<'_>,
    word: &str,
    index: &str,
) -> Result<(), WatchFault> {
    let wanted = wanted_of(word)?;
    let mut missing = wanted.missing();
    let before = watched.len();
    let index = index.parse::<usize>().ok();
    for local in source.words {
        if wanted.has(local) {
            missing = no_element(local);
            if let Some(element) = index.and_then(|index| element_of(local, index)) {
                watched.push(element)?;
            }
        }
    }
    if watched.len() == before {
        return Err(WatchFault::None(missing));
    }
    Ok(())
}

/// The word that `w5` names.
fn numbered(image: &Image, number: &str) -> Result<Watched, WatchKind> {
    let first = number.parse::<usize>().or(Err(WatchKind::NoLocal))?;
    if first < image.workspace as usize {
        Ok(Watched::word(first))
    } else {
        Err(WatchKind::NoWord(image.workspace))
    }
}

/// Adds the words that an item of the option names.
fn push_watched(
    watched: &mut Vec<Watched>,
    image: &Image,
    source: SourceText<'_>,
    item: &str,
) -> Result<(), WatchFault> {
    if let Some((name, index)) = item.strip_suffix("]").and_then(|item| item.split_once("[")) {
        return push_indexed(watched, source, name, index);
    }
    match push_locals(watched, source, item) {
        Err(WatchFault::None(WatchKind::NoLocal)) => {}
        added => return added,
    }
    match item.strip_prefix("w") {
        Some(number) => {
            watched.push(numbered(image, number)?)?;
            Ok(())
        }
        None => Err(WatchFault::None(WatchKind::NoLocal)),
    }
}

/// The words that the option names, between commas.
fn watched_of(
    alloc: Global,
    image: &Image,
    source: SourceText<'_>,
    watch: &Option<String>,
) -> Result<Vec<Watched>, Ending> {
    let mut watched = Vec::new(alloc);
    let Some(watch) = watch else {
        return Ok(watched);
    };
    for item in watch.split(',') {
        match push_watched(&mut watched, image, source, item) {
            Ok(()) => {}
            Err(WatchFault::Memory) => return Err(Ending::Failed(Failure::Memory)),
            Err(WatchFault::None(kind)) => {
                let item = String::from_str(alloc, item)?;
                return Err(Ending::Refused(Refusal::NoWatched(item, kind)));
            }
        }
    }
    Ok(watched)
}

/// The part of a run that is to be shown.
pub fn excerpt_of<'a>(
    alloc: Global,
    image: &Image,
    source: SourceText<'a>,
    stepping: &StepOptions,
) -> Result<Excerpt<'a>, Ending> {
    Ok(Excerpt {
        span: Span {
            from: place_named(alloc, source, FROM, &stepping.from)?,
            until: place_named(alloc, source, UNTIL, &stepping.until)?,
        },
        watched: watched_of(alloc, image, source, &stepping.watch)?,
        source,
        hexadecimal: stepping.hexadecimal,
        statements: stepping.statements,
    })
}

/// The outcome of a command whose run has ended so.
pub fn outcome_of(end: End) -> Outcome
    ensures { result ≡ of_run end }
{
    match end {
        End::Stopped | End::Left => Outcome::Good,
        End::Stuck(_, _) | End::Refused(_) | End::Unended => Outcome::Bad,
    }
}

/// Runs an image with a packet, and writes what is to be shown of the run.
pub fn write_step<W: Write>(
    alloc: Global,
    image: Image,
    packet: &[u8],
    excerpt: &Excerpt<'_>,
    writer: &mut W,
) -> Result<Outcome, Failure> {
    let shown = Shown {
        span: excerpt.span,
        watched: &excerpt.watched,
        source: excerpt.source,
        hexadecimal: excerpt.hexadecimal,
        statements: excerpt.statements,
    };
    let ran = show_run(alloc, image, packet, shown, writer);
    let flushed = writer.flush();
    let end = ran?;
    match flushed {
        Ok(()) => Ok(outcome_of(end)),
        Err(_) => Err(Failure::Write),
    }
}
