//! The first words of statements.

ghost use Rattle.std.specs.Prelude.{◌≡◌};
ghost use Rattle.tpw_text.specs.Keywords.{keyword_name, keyword_named};

use crate::words::Word;

/// The kind of statement that a first word begins. A statement with another first word is an instruction.
#[derive(Clone, Copy)]
pub enum Keyword {
    Packet,
    Results,
    Start,
    Workspace,
    Version,
    Init,
    Byte,
    Loop,
}

const KEYWORDS: [Keyword; 8] = [
    Keyword::Packet,
    Keyword::Results,
    Keyword::Start,
    Keyword::Workspace,
    Keyword::Version,
    Keyword::Init,
    Keyword::Byte,
    Keyword::Loop,
];

/// How a text writes it.
fn name_of(keyword: Keyword) -> &'static str
    ensures { result.now ≡ keyword_name keyword }
{
    match keyword {
        Keyword::Packet => "packet",
        Keyword::Results => "result",
        Keyword::Start => "start",
        Keyword::Workspace => "workspace",
        Keyword::Version => "version",
        Keyword::Init => "init",
        Keyword::Byte => "byte",
        Keyword::Loop => "loop",
    }
}

/// The keyword that a word is, in capitals or not.
#[tactic(auto, unfolding(crate::specs::Keywords::keyword_named))]
pub fn keyword_of(word: &Word<'_>) -> Option<Keyword>
    ensures { result ≡ keyword_named word.now.text.now }
{
    KEYWORDS.iter().copied().find(|k| word.is(name_of(*k)))
}
