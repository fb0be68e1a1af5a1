//! Keywords.

ghost use Rattle.std.specs.Prelude.{◌≡◌};
ghost use Rattle.tpw_occam_lexing.specs.Keywords.{spelling, listed, keyword_of, is_open_word, is_between_word};

use tpw_occam_terms::Unsupported;

/// A keyword of occam.
#[derive(Clone, Copy, PartialEq)]
pub enum Keyword {
    After,
    And,
    BitAnd,
    BitNot,
    BitOr,
    Bool,
    Byte,
    Case,
    Chan,
    Else,
    False,
    For,
    Function,
    If,
    Int,
    Is,
    Minus,
    MostNeg,
    MostPos,
    Not,
    Of,
    Or,
    Plus,
    Proc,
    Rem,
    Retypes,
    Seq,
    Size,
    Skip,
    Stop,
    Times,
    True,
    Val,
    Alt,
    At,
    BytesIn,
    Data,
    From,
    Inline,
    Int16,
    Int64,
    OffsetOf,
    Packed,
    Par,
    Place,
    Placed,
    Port,
    Pri,
    Processor,
    Protocol,
    Real32,
    Real64,
    Record,
    Reshapes,
    Result,
    Round,
    Step,
    Timer,
    Trunc,
    Type,
    ValOf,
    VecSpace,
    While,
    Workspace,
}

const KEYWORDS: [Keyword; 64] = [
    Keyword::After,
    Keyword::And,
    Keyword::BitAnd,
    Keyword::BitNot,
    Keyword::BitOr,
    Keyword::Bool,
    Keyword::Byte,
    Keyword::Case,
    Keyword::Chan,
    Keyword::Else,
    Keyword::False,
    Keyword::For,
    Keyword::Function,
    Keyword::If,
    Keyword::Int,
    Keyword::Is,
    Keyword::Minus,
    Keyword::MostNeg,
    Keyword::MostPos,
    Keyword::Not,
    Keyword::Of,
    Keyword::Or,
    Keyword::Plus,
    Keyword::Proc,
    Keyword::Rem,
    Keyword::Retypes,
    Keyword::Seq,
    Keyword::Size,
    Keyword::Skip,
    Keyword::Stop,
    Keyword::Times,
    Keyword::True,
    Keyword::Val,
    Keyword::Alt,
    Keyword::At,
    Keyword::BytesIn,
    Keyword::Data,
    Keyword::From,
    Keyword::Inline,
    Keyword::Int16,
    Keyword::Int64,
    Keyword::OffsetOf,
    Keyword::Packed,
    Keyword::Par,
    Keyword::Place,
    Keyword::Placed,
    Keyword::Port,
    Keyword::Pri,
    Keyword::Processor,
    Keyword::Protocol,
    Keyword::Real32,
    Keyword::Real64,
    Keyword::Record,
    Keyword::Reshapes,
    Keyword::Result,
    Keyword::Round,
    Keyword::Step,
    Keyword::Timer,
    Keyword::Trunc,
    Keyword::Type,
    Keyword::ValOf,
    Keyword::VecSpace,
    Keyword::While,
    Keyword::Workspace,
];

/// The first of keywords that is spelled so.
fn listed(keywords: &[Keyword], word: &str) -> Option<Keyword>
    ensures { result ≡ listed keywords.now word.now }
{
    for keyword in keywords {
        if keyword.spelling() == word {
            return Some(*keyword);
        }
    }
    None
}

impl Keyword {
    #[tactic(auto, unfolding(crate::specs::Keywords::spelling))]
    pub fn spelling(self) -> &'static str
        ensures { result.now ≡ spelling self }
    {
        match self {
            Keyword::After => "AFTER",
            Keyword::And => "AND",
            Keyword::BitAnd => "BITAND",
            Keyword::BitNot => "BITNOT",
            Keyword::BitOr => "BITOR",
            Keyword::Bool => "BOOL",
            Keyword::Byte => "BYTE",
            Keyword::Case => "CASE",
            Keyword::Chan => "CHAN",
            Keyword::Else => "ELSE",
            Keyword::False => "FALSE",
            Keyword::For => "FOR",
            Keyword::Function => "FUNCTION",
            Keyword::If => "IF",
            Keyword::Int => "INT",
            Keyword::Is => "IS",
            Keyword::Minus => "MINUS",
            Keyword::MostNeg => "MOSTNEG",
            Keyword::MostPos => "MOSTPOS",
            Keyword::Not => "NOT",
            Keyword::Of => "OF",
            Keyword::Or => "OR",
            Keyword::Plus => "PLUS",
            Keyword::Proc => "PROC",
            Keyword::Rem => "REM",
            Keyword::Retypes => "RETYPES",
            Keyword::Seq => "SEQ",
            Keyword::Size => "SIZE",
            Keyword::Skip => "SKIP",
            Keyword::Stop => "STOP",
            Keyword::Times => "TIMES",
            Keyword::True => "TRUE",
            Keyword::Val => "VAL",
            Keyword::Alt => "ALT",
            Keyword::At => "AT",
            Keyword::BytesIn => "BYTESIN",
            Keyword::Data => "DATA",
            Keyword::From => "FROM",
            Keyword::Inline => "INLINE",
            Keyword::Int16 => "INT16",
            Keyword::Int64 => "INT64",
            Keyword::OffsetOf => "OFFSETOF",
            Keyword::Packed => "PACKED",
            Keyword::Par => "PAR",
            Keyword::Place => "PLACE",
            Keyword::Placed => "PLACED",
            Keyword::Port => "PORT",
            Keyword::Pri => "PRI",
            Keyword::Processor => "PROCESSOR",
            Keyword::Protocol => "PROTOCOL",
            Keyword::Real32 => "REAL32",
            Keyword::Real64 => "REAL64",
            Keyword::Record => "RECORD",
            Keyword::Reshapes => "RESHAPES",
            Keyword::Result => "RESULT",
            Keyword::Round => "ROUND",
            Keyword::Step => "STEP",
            Keyword::Timer => "TIMER",
            Keyword::Trunc => "TRUNC",
            Keyword::Type => "TYPE",
            Keyword::ValOf => "VALOF",
            Keyword::VecSpace => "VECSPACE",
            Keyword::While => "WHILE",
            Keyword::Workspace => "WORKSPACE",
        }
    }

    /// The keyword that a word is. `INT32` is another name of `INT`, which has 32 bits.
    #[tactic(auto, unfolding(crate::specs::Keywords::keyword_of))]
    pub fn of(word: &str) -> Option<Keyword>
        ensures { result ≡ keyword_of word.now }
    {
        if word == "INT32" {
            return Some(Keyword::Int);
        }
        listed(&KEYWORDS, word)
    }

    /// The keyword, in capitals, that a word is but for these.
    pub fn in_capitals(word: &str) -> Option<Keyword> {
        KEYWORDS
            .iter()
            .copied()
            .find(|keyword| keyword.spelling().eq_ignore_ascii_case(word))
    }

    /// The part of occam that a word begins, and that this language has not.
    pub fn unsupported(self) -> Option<Unsupported> {
        match self {
            Keyword::Alt | Keyword::Pri => Some(Unsupported::Alternative),
            Keyword::At
            | Keyword::Place
            | Keyword::Placed
            | Keyword::Port
            | Keyword::Processor
            | Keyword::VecSpace
            | Keyword::Workspace => Some(Unsupported::Hardware),
            Keyword::BytesIn
            | Keyword::Data
            | Keyword::OffsetOf
            | Keyword::Packed
            | Keyword::Protocol
            | Keyword::Record
            | Keyword::Type => Some(Unsupported::Type),
            Keyword::From => Some(Unsupported::Slice),
            Keyword::Inline => Some(Unsupported::Inline),
            Keyword::Int16 | Keyword::Int64 => Some(Unsupported::Width),
            Keyword::Par => Some(Unsupported::Par),
            Keyword::Real32 | Keyword::Real64 | Keyword::Round | Keyword::Trunc => Some(
                Unsupported::Real,
            ),
            Keyword::Reshapes => Some(Unsupported::Reshape),
            Keyword::Step => Some(Unsupported::Step),
            Keyword::Timer => Some(Unsupported::Timer),
            Keyword::While => Some(Unsupported::While),
            _ => None,
        }
    }

    /// Whether a line may go on behind it on the next line: operators, and `IS`.
    pub fn is_open(self) -> bool
        ensures { result ≡ is_open_word self }
    {
        matches!(
            self,
            Keyword::Is
                | Keyword::After
                | Keyword::And
                | Keyword::BitAnd
                | Keyword::BitNot
                | Keyword::BitOr
                | Keyword::Minus
                | Keyword::Not
                | Keyword::Or
                | Keyword::Plus
                | Keyword::Rem
                | Keyword::Size
                | Keyword::Times
        )
    }

    /// Whether something stands in front of it wherever it stands, so that no line begins with it.
    pub fn is_between(self) -> bool
        ensures { result ≡ is_between_word self }
    {
        matches!(
            self,
            Keyword::Is
                | Keyword::After
                | Keyword::And
                | Keyword::BitAnd
                | Keyword::BitOr
                | Keyword::For
                | Keyword::Of
                | Keyword::Or
                | Keyword::Plus
                | Keyword::Rem
                | Keyword::Retypes
                | Keyword::Times
        )
    }
}
