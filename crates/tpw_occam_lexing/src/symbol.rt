//! Symbols.

ghost use Rattle.std.specs.Prelude.{◌≡◌, ◌<◌, ◌≤◌, ◌-◌, option_map, IfSome, OnSome, length, slice_index};
ghost use Rattle.tpw_occam_lexing.specs.Symbols.{sign_of_two, sign_of_one, sign, is_open_sign, is_between_sign};

/// An operator, a mark or a bracket.
#[derive(Clone, Copy, PartialEq)]
pub enum Symbol {
    /// `:=`
    Becomes,
    /// `:`
    Colon,
    /// `,`
    Comma,
    /// `?`
    Receive,
    /// `!`
    Send,
    /// `+`
    Add,
    /// `-`
    Subtract,
    /// `*`
    Multiply,
    /// `/`
    Divide,
    /// `\`
    Remainder,
    /// `/\`
    BitAnd,
    /// `\/`
    BitOr,
    /// `><`
    BitXor,
    /// `~`
    BitNot,
    /// `<<`
    ShiftLeft,
    /// `>>`
    ShiftRight,
    /// `=`
    Equal,
    /// `<>`
    NotEqual,
    /// `<`
    Less,
    /// `>`
    Greater,
    /// `<=`
    AtMost,
    /// `>=`
    AtLeast,
    /// `(`
    OpenRound,
    /// `)`
    CloseRound,
    /// `[`
    OpenSquare,
    /// `]`
    CloseSquare,
}

/// The symbol of two bytes.
fn of_two(first: u8, second: u8) -> Option<Symbol>
    ensures symbol { result ≡ sign_of_two first second }
    ensures narrow { OnSome result (second < 128) }
{
    match (first, second) {
        (b':', b'=') => Some(Symbol::Becomes),
        (b'/', b'\\') => Some(Symbol::BitAnd),
        (b'\\', b'/') => Some(Symbol::BitOr),
        (b'>', b'<') => Some(Symbol::BitXor),
        (b'<', b'<') => Some(Symbol::ShiftLeft),
        (b'>', b'>') => Some(Symbol::ShiftRight),
        (b'<', b'>') => Some(Symbol::NotEqual),
        (b'<', b'=') => Some(Symbol::AtMost),
        (b'>', b'=') => Some(Symbol::AtLeast),
        _ => None,
    }
}

/// The symbol of one byte.
fn of_one(byte: u8) -> Option<Symbol>
    ensures symbol { result ≡ sign_of_one byte }
    ensures narrow { OnSome result (byte < 128) }
{
    match byte {
        b':' => Some(Symbol::Colon),
        b',' => Some(Symbol::Comma),
        b'?' => Some(Symbol::Receive),
        b'!' => Some(Symbol::Send),
        b'+' => Some(Symbol::Add),
        b'-' => Some(Symbol::Subtract),
        b'*' => Some(Symbol::Multiply),
        b'/' => Some(Symbol::Divide),
        b'\\' => Some(Symbol::Remainder),
        b'~' => Some(Symbol::BitNot),
        b'=' => Some(Symbol::Equal),
        b'<' => Some(Symbol::Less),
        b'>' => Some(Symbol::Greater),
        b'(' => Some(Symbol::OpenRound),
        b')' => Some(Symbol::CloseRound),
        b'[' => Some(Symbol::OpenSquare),
        b']' => Some(Symbol::CloseSquare),
        _ => None,
    }
}

/// The longest symbol at the front of bytes, and how many it has.
pub(crate) fn at_front(bytes: &[u8]) -> Option<(Symbol, usize)>
    ensures symbol { option_map (λ x. (x.0, x.1)) result ≡ sign bytes.now }
    ensures some { IfSome result (λ x. (0 < x.1) × (x.1 ≤ length bytes.now)) }
    ensures narrow { IfSome result (λ x. slice_index bytes.now (x.1 - 1) < 128) }
{
    let (first, more) = bytes.split_first()?;
    if let Some(second) = more.first() {
        if let Some(symbol) = of_two(*first, *second) {
            return Some((symbol, 2));
        }
    }
    Some((of_one(*first)?, 1))
}

impl Symbol {
    /// Whether a line may go on behind it on the next line.
    pub fn is_open(self) -> bool
        ensures { result ≡ is_open_sign self }
    {
        !matches!(
            self,
            Symbol::Colon
                | Symbol::Receive
                | Symbol::Send
                | Symbol::CloseRound
                | Symbol::CloseSquare
        )
    }

    /// Whether something stands in front of it wherever it stands, so that no line begins with it.
    pub fn is_between(self) -> bool
        ensures { result ≡ is_between_sign self }
    {
        !matches!(
            self,
            Symbol::Colon
                | Symbol::Subtract
                | Symbol::BitNot
                | Symbol::OpenRound
                | Symbol::OpenSquare
        )
    }
}
