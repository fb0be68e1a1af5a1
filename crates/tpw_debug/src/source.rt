//! Debug information, borrowed.

ghost use Rattle.std.specs.Prelude.{◌≡◌, Some, option_map};
ghost use Rattle.tpw_debug.specs.Said.{statement_at, line_before, is_word_of, is_in_scope, named, first_declared};

use crate::printable::Printable;
use std::fmt;
use tp_image::LoopRow;
use tp_image::layout::WORD_BYTES;

/// A statement of a text, at the address of an instruction that it says.
#[derive(Clone, Copy, Debug, PartialEq, Eq)]
pub struct Statement<'a> {
    pub at: usize,
    /// The line of the text and the column of the statement, counted from 1.
    pub line: usize,
    pub column: usize,
    pub text: Printable<'a>,
}

/// A label of a text, and its address.
#[derive(Clone, Copy, Debug, PartialEq, Eq)]
pub struct Label<'a> {
    pub at: usize,
    pub name: &'a str,
}

/// A name of workspace words: of the first, and of those behind it. It names them at the addresses from one on up to
/// another; elsewhere the words may have other names.
#[derive(Clone, Copy, Debug, PartialEq, Eq)]
pub struct Named<'a> {
    pub first: usize,
    pub words: usize,
    pub name: &'a str,
    pub from: usize,
    pub to: usize,
    /// The line that declares it, counted from 1; 0 where no text does.
    pub line: usize,
    /// How many bytes it names, where they have a number each.
    pub bytes: Option<usize>,
}

impl<'a> Named<'a> {
    /// Whether it names a word.
    pub fn has(&self, word: usize) -> bool
        ensures { result ≡ is_word_of self.now word }
    {
        self.first <= word && word.saturating_sub(self.first) < self.words
    }

    /// Whether it names words at an address; where none is at hand, it does.
    pub fn is_in_scope(&self, at: Option<usize>) -> bool
        ensures { result ≡ is_in_scope at self.now }
    {
        match at {
            Some(at) => self.from <= at && at < self.to,
            None => true,
        }
    }

    /// The number that the first byte of a word has in an array of bytes.
    pub fn first_byte(&self, word: usize) -> usize {
        word.saturating_sub(self.first).saturating_mul(WORD_BYTES)
    }

    /// A word of the name, as a text writes it: of an array of bytes the first of its bytes.
    pub fn of(self, word: usize) -> Indexed<'a> {
        let index = match self.bytes {
            Some(_) => self.first_byte(word),
            None => word.saturating_sub(self.first),
        };
        Indexed { named: self, index }
    }

    /// The byte that has a number in an array of bytes, as a text writes it.
    pub fn of_byte(self, index: usize) -> Indexed<'a> {
        Indexed { named: self, index }
    }
}

/// An element of a name: `k` where the name has one word, else `buf[2]`.
#[derive(Clone, Copy)]
pub struct Indexed<'a> {
    named: Named<'a>,
    index: usize,
}

impl fmt::Display for Indexed<'_> {
    fn fmt<W: fmt::Write>(&self, f: &mut fmt::Formatter<W>) -> fmt::Result {
        let Indexed { named, index } = *self;
        f.write_str(named.name)?;
        if named.words == 1 && named.bytes.is_none() {
            return Ok(());
        }
        write!(f, "[{index}]")
    }
}

/// A call in which a loop stands: the address at which the loop's turns begin, and the line of the call. The calls of a
/// loop follow one another, the innermost first.
#[derive(Clone, Copy, Debug, PartialEq, Eq)]
pub struct Called {
    pub head: usize,
    pub line: usize,
}

/// The same as [`DebugInfo`](crate::DebugInfo), borrowed. An image that no text says has [`SourceText::NONE`].
#[derive(Clone, Copy)]
pub struct SourceText<'a> {
    /// The name of the text, as faults of it have it.
    pub name: &'a str,
    pub statements: &'a [Statement<'a>],
    pub labels: &'a [Label<'a>],
    pub words: &'a [Named<'a>],
    pub calls: &'a [Called],
    /// The address at hand: a word has the names that are in scope there. Where there is none, it has all.
    pub at: Option<usize>,
}

impl<'a> SourceText<'a> {
    /// Nothing.
    pub const NONE: SourceText<'static> = SourceText {
        name: "",
        statements: &[],
        labels: &[],
        words: &[],
        calls: &[],
        at: None,
    };

    /// The same, with an address at hand.
    pub fn at(self, at: usize) -> SourceText<'a>
        ensures { result ≡ record self.entry { at = Some at } }
    {
        SourceText {
            at: Some(at),
            ..self
        }
    }

    /// The statement that says the instruction at an address.
    pub fn statement_at(&self, at: usize) -> Option<Statement<'a>>
        ensures { result ≡ statement_at self.now.statements.now at }
    {
        self.statements
            .iter()
            .copied()
            .find(|statement| statement.at == at)
    }

    /// The name that a line declares, whose first word this is.
    pub fn declared(&self, word: usize, line: usize) -> Option<&'a str>
        ensures { result ≡ option_map (λ n. n.name) (first_declared self.now.words.now word line) }
    {
        self.words
            .iter()
            .find(|named| named.first == word && named.line == line)
            .map(|named| named.name)
    }

    /// The line of the last statement before an address.
    pub fn line_before(&self, at: usize) -> Option<usize>
        ensures { result ≡ line_before self.now.statements.now at }
    {
        self.statements
            .iter()
            .rev()
            .find(|statement| statement.at < at)
            .map(|statement| statement.line)
    }

    /// The loop of a row, by its name.
    pub fn loop_name(&self, number: usize, row: &LoopRow) -> LoopName<'a> {
        LoopName {
            source: *self,
            number,
            control: row.control,
            head: row.head,
        }
    }

    /// The name that a word has, if it has one.
    pub fn named(&self, word: usize) -> Option<Named<'a>>
        ensures { result ≡ named self.now.words.now self.now.at word }
    {
        self.words
            .iter()
            .copied()
            .find(|named| named.has(word) && named.is_in_scope(self.at))
    }

    /// A word, with its name if it has one.
    pub fn word(&self, number: usize) -> WordName<'a> {
        WordName {
            number,
            named: self.named(number),
        }
    }
}

/// A workspace word by its number, with its name behind it if it has one.
#[derive(Clone, Copy)]
pub struct WordName<'a> {
    number: usize,
    named: Option<Named<'a>>,
}

impl fmt::Display for WordName<'_> {
    fn fmt<W: fmt::Write>(&self, f: &mut fmt::Formatter<W>) -> fmt::Result {
        let number = self.number;
        write!(f, "word {number}")?;
        match self.named {
            None => Ok(()),
            Some(Named { first, name, .. }) if first == number => write!(f, " ({name})"),
            Some(Named { first, name, .. }) => {
                let behind = number.saturating_sub(first);
                write!(f, " ({name} + {behind})")
            }
        }
    }
}

/// The name of a loop: by its index's name and the line that begins it where a text says it, with the lines of the calls
/// in which it stands, and by its row elsewhere.
#[derive(Clone, Copy)]
pub struct LoopName<'a> {
    source: SourceText<'a>,
    number: usize,
    /// The workspace word of its index.
    control: u32,
    head: u32,
}

impl fmt::Display for LoopName<'_> {
    fn fmt<W: fmt::Write>(&self, f: &mut fmt::Formatter<W>) -> fmt::Result {
        let number = self.number;
        let Some(line) = self.source.line_before(self.head as usize) else {
            return write!(f, "row {number}");
        };
        match self.source.declared(self.control as usize, line) {
            Some(name) => write!(f, "{name} (line {line}")?,
            None => write!(f, "row {number} (line {line}")?,
        }
        let mut is_first = true;
        for call in self.source.calls {
            if call.head == self.head as usize {
                let line = call.line;
                f.write_str(if is_first {
                    ", called on line "
                } else {
                    ", on line "
                })?;
                write!(f, "{line}")?;
                is_first = false;
            }
        }
        f.write_str(")")
    }
}

/// The names of words from one on up to another, behind white space and in parentheses, if there are any.
#[derive(Clone, Copy)]
pub struct Names<'a> {
    pub source: SourceText<'a>,
    pub first: usize,
    pub last: usize,
}

impl fmt::Display for Names<'_> {
    fn fmt<W: fmt::Write>(&self, f: &mut fmt::Formatter<W>) -> fmt::Result {
        let mut between = " (";
        for named in self.source.words {
            let end = named.first.saturating_add(named.words);
            if named.first <= self.last && self.first < end && named.is_in_scope(self.source.at) {
                f.write_str(between)?;
                f.write_str(named.name)?;
                between = ", ";
            }
        }
        if between == ", " {
            f.write_str(")")
        } else {
            Ok(())
        }
    }
}
