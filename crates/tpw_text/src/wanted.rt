//! The words that a statement wants.

ghost use Rattle.std.specs.Prelude.{◌≡◌, ◌≤◌, IfOk};
ghost use Rattle.tpw_text.specs.Statements.{word_said, is_no_name, name_said, expect_said, end_said, one_number_said};
ghost use Rattle.tpw_text.specs.Statements.{target_said};

use crate::draft::Target;
use crate::fault::{SourceFault, TextFault};
use crate::number::{count_of, is_number};
use crate::words::{Word, is_mark};

/// The word of a number, which has to be there.
#[tactic(auto, unfolding(crate::specs::Statements::word_said))]
pub fn word_at<'a>(words: &[Word<'a>], i: usize, behind: &Word<'a>) -> Result<Word<'a>, SourceFault>
    ensures { result ≡ word_said words.now i behind.now }
{
    match words.get(i) {
        Some(word) => Ok(*word),
        None => Err(behind.fault(TextFault::Missing)),
    }
}

/// Whether a word is no name: a mark, or what begins as a number does.
#[tactic(auto, unfolding(crate::specs::Statements::is_no_name))]
fn is_no_name(word: &Word<'_>) -> bool
    ensures { result ≡ is_no_name word.now.text.now }
{
    match word.text.first() {
        Some(byte) => is_mark(*byte) || is_number(word),
        None => false,
    }
}

/// A word that has to be a name.
pub fn name_of<'a>(word: &Word<'a>) -> Result<Word<'a>, SourceFault>
    ensures { result ≡ name_said word.now }
{
    if is_no_name(word) {
        Err(word.fault(TextFault::NoName))
    } else {
        Ok(*word)
    }
}

/// A word of a number, which has to be this one.
#[tactic(auto, unfolding(crate::specs::Statements::expect_said))]
pub fn expect<'a>(
    words: &[Word<'a>],
    i: usize,
    behind: &Word<'a>,
    name: &str,
) -> Result<Word<'a>, SourceFault>
    ensures { result ≡ expect_said words.now i behind.now name.now }
{
    let word = word_at(words, i, behind)?;
    if word.is(name) {
        Ok(word)
    } else {
        Err(word.fault(TextFault::Unexpected))
    }
}

/// Nothing is at this word, or behind it.
#[tactic(auto, unfolding(crate::specs::Statements::end_said))]
pub fn expect_end(words: &[Word<'_>], i: usize) -> Result<(), SourceFault>
    ensures { result ≡ end_said words.now i }
{
    match words.get(i) {
        Some(word) => Err(word.fault(TextFault::Extra)),
        None => Ok(()),
    }
}

/// The one number of a statement.
#[tactic(auto, unfolding(crate::specs::Statements::one_number_said))]
pub fn one_number(words: &[Word<'_>], first: &Word<'_>, most: u32) -> Result<u32, SourceFault>
    ensures said { result ≡ one_number_said words.now first.now most }
    ensures most { IfOk result (λ n. n ≤ most) }
{
    let word = word_at(words, 1, first)?;
    expect_end(words, 2)?;
    count_of(&word, most)
}

/// A label or an address.
#[tactic(auto, unfolding(crate::specs::Statements::target_said))]
pub fn target_of<'a>(word: &Word<'a>) -> Result<Target<'a>, SourceFault>
    ensures { result ≡ target_said word.now }
{
    if is_number(word) {
        Ok(Target::Address(count_of(word, 0xFFFF)? as u16))
    } else {
        Ok(Target::Label(*word))
    }
}
