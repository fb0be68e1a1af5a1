//! The grammar of statements: what each says, by its words alone.

ghost use Rattle.std.specs.Prelude.{◌≡◌};
ghost use Rattle.tpw_text.specs.Grammar.{field_said, version_said, initial_said, byte_said, row_said, keyword_said};
ghost use Rattle.tpw_text.specs.Grammar.{statement_said};

use crate::draft::{DraftLine, MAX_WORDS, Row};
use crate::fault::{SourceFault, TextFault};
use crate::instructions::instruction_of;
use crate::keyword::{Keyword, keyword_of};
use crate::number::{count_of, number_of};
use crate::statement::{NewLine, Statement};
use crate::wanted::{expect, expect_end, one_number, target_of, word_at};
use crate::words::Word;
use tp_image::Version;
use tpw_asm::Line;

/// The largest number of 16 bits.
const MAX_COUNT: u32 = 0xFFFF;

/// The one number of a statement, of 16 bits.
fn field(words: &[Word<'_>], first: &Word<'_>) -> Result<u16, SourceFault>
    ensures { result ≡ field_said words.now first.now }
{
    Ok(one_number(words, first, MAX_COUNT)? as u16)
}

/// `version N`
#[tactic(auto, unfolding(crate::specs::Grammar::version_said))]
fn version(words: &[Word<'_>], first: &Word<'_>) -> Result<Version, SourceFault>
    ensures { result ≡ version_said words.now first.now }
{
    match one_number(words, first, 2)? {
        1 => Ok(Version::One),
        2 => Ok(Version::Two),
        _ => Err(first.fault(TextFault::OutOfRange)),
    }
}

/// `init WORD: VALUE`
#[tactic(auto, unfolding(crate::specs::Grammar::initial_said))]
fn initial<'a>(words: &[Word<'a>], first: &Word<'a>) -> Result<Statement<'a>, SourceFault>
    ensures { result ≡ initial_said words.now first.now }
{
    let at = word_at(words, 1, first)?;
    let place = count_of(&at, u32::from(MAX_WORDS))? as u16;
    let colon = expect(words, 2, &at, ":")?;
    let value = number_of(&word_at(words, 3, &colon)?)?.cast_unsigned();
    expect_end(words, 4)?;
    Ok(Statement::Initial(at, place, value))
}

/// `byte N`
#[tactic(auto, unfolding(crate::specs::Grammar::byte_said))]
fn byte<'a>(words: &[Word<'a>], first: &Word<'a>) -> Result<NewLine<'a>, SourceFault>
    ensures { result ≡ byte_said words.now first.now }
{
    let word = word_at(words, 1, first)?;
    expect_end(words, 2)?;
    let byte = count_of(&word, 0xFF)? as u8;
    let line = DraftLine::Known(Line::Byte(byte));
    Ok(NewLine { word, line })
}

/// `loop head SPOT lend SPOT control WORD turns N start N`
#[tactic(auto, unfolding(crate::specs::Grammar::row_said))]
fn row<'a>(words: &[Word<'a>], first: &Word<'a>) -> Result<Row<'a>, SourceFault>
    ensures { result ≡ row_said words.now first.now }
{
    expect(words, 1, first, "head")?;
    let head = target_of(&word_at(words, 2, first)?)?;
    expect(words, 3, first, "lend")?;
    let lend = target_of(&word_at(words, 4, first)?)?;
    expect(words, 5, first, "control")?;
    let control = count_of(&word_at(words, 6, first)?, MAX_COUNT)? as u16;
    expect(words, 7, first, "turns")?;
    let count = count_of(&word_at(words, 8, first)?, MAX_COUNT)? as u16;
    expect(words, 9, first, "start")?;
    let start = number_of(&word_at(words, 10, first)?)?;
    expect_end(words, 11)?;
    Ok(Row {
        head,
        lend,
        control,
        count,
        start,
    })
}

/// The statement of a keyword.
#[tactic(auto, unfolding(crate::specs::Grammar::keyword_said))]
fn of_keyword<'a>(
    keyword: Keyword,
    words: &[Word<'a>],
    first: &Word<'a>,
) -> Result<Statement<'a>, SourceFault>
    ensures { result ≡ keyword_said keyword words.now first.now }
{
    let word = *first;
    Ok(match keyword {
        Keyword::Packet => Statement::Packet(word, field(words, first)?),
        Keyword::Results => Statement::Results(word, field(words, first)?),
        Keyword::Start => Statement::Start(word, field(words, first)?),
        Keyword::Workspace => Statement::Workspace(word, field(words, first)?),
        Keyword::Version => Statement::Version(word, version(words, first)?),
        Keyword::Init => return initial(words, first),
        Keyword::Byte => Statement::Line(byte(words, first)?),
        Keyword::Loop => Statement::Row(word, row(words, first)?),
    })
}

/// The statement of words, by them alone.
#[tactic(auto, unfolding(crate::specs::Grammar::statement_said))]
pub fn read_statement<'a>(words: &[Word<'a>]) -> Result<Statement<'a>, SourceFault>
    ensures { result ≡ statement_said words.now }
{
    let Some(first) = words.first() else {
        return Ok(Statement::Nothing);
    };
    match keyword_of(first) {
        Some(keyword) => of_keyword(keyword, words, first),
        None => Ok(Statement::Line(instruction_of(words, first)?)),
    }
}
