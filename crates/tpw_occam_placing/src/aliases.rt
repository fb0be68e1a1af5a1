//! Cells that have the words of others: those of arguments of FUNCTIONs that are variables.

ghost use Rattle.std.specs.Prelude.{◌≡◌};
ghost use Rattle.tpw_occam_meaning.specs.States.{State};
ghost use Rattle.tpw_occam_placing.specs.Placing.{seen, is_mentioned};

/// Cells, each with the one whose word it has, from the innermost on.
#[derive(Clone, Copy)]
pub enum Aliases<'s> {
    None,
    Alias(usize, usize, &'s Aliases<'s>),
}

impl Aliases<'_> {
    /// The cell whose word a cell has.
    pub(crate) fn origin(&self, cell: usize) -> usize
        ensures { (s : State) → (seen self.now s).cells cell ≡ s.cells result }
    {
        match self {
            Aliases::None => cell,
            Aliases::Alias(alias, of, before) => {
                if cell == *alias {
                    before.origin(*of)
                } else {
                    before.origin(cell)
                }
            }
        }
    }

    /// Whether a cell is one of these, or has the word of one.
    pub(crate) fn mentions(&self, cell: usize) -> bool
        ensures { result ≡ is_mentioned self.now cell }
    {
        match self {
            Aliases::None => false,
            Aliases::Alias(alias, of, before) => {
                cell == *alias || cell == *of || before.mentions(cell)
            }
        }
    }
}
