//! Laws of live control words.

ghost use Rattle.std.specs.Prelude.{◌≡◌, ℕ, Bool, IsTrue, List, Some, Ok, length};
ghost use Rattle.tp_decode.specs.declared.instr.Instr.{Instr};
ghost use Rattle.tp_image.specs.declared.image.LoopRow.{LoopRow};
ghost use Rattle.tp_image.specs.Image.{ImageValue};
ghost use Rattle.tp_flow.specs.declared.edge.Edge.{Edge};
ghost use Rattle.tp_flow.specs.NestRanges.{ranges};
ghost use Rattle.tp_flow.specs.Edges.{target};
ghost use Rattle.tp_flow.specs.LoopsAround.{is_around, IsOutside};
ghost use Rattle.tp_flow.specs.AroundKept.{KeepsAround};
ghost use Rattle.tp_state.specs.declared.cell.Cell.{Cell};
ghost use Rattle.tp_state.specs.declared.state.State.{State};
ghost use Rattle.tp_state.specs.CellRules.{cell_at};
ghost use Rattle.tp_state.specs.Conditions.{IsPlaced};
ghost use Rattle.tp_state.specs.Order.{cells_agree, joined_cells};
ghost use Rattle.tp_state.specs.Entry.{entry};
ghost use Rattle.tp_state.specs.After.{after};
ghost use Rattle.tp_state.specs.Live.{LiveWordsAre};

/// At first no word is a live control word, and no loop is around the first instruction.
pub fn no_word_is_live_at_first()
    ensures { (image : ImageValue) → IsOutside (ranges image.loops) 0 →
        LiveWordsAre image.loops (is_around (ranges image.loops) 0) (entry image).cells }
{}

/// Where no rule of flow is broken at an instruction, and the live control words are those of the loops around it, they
/// are those of the loops around the target of an edge on which nothing is refused.
pub fn live_words_follow_the_loops()
    ensures { (image : ImageValue) (at next : ℕ) (instr : Instr) (edge : Edge) (to : ℕ) (t u : State) →
        KeepsAround image.loops image.workspace at next instr → IsPlaced image t →
        LiveWordsAre image.loops (is_around (ranges image.loops) at) t.cells →
        target (ranges image.loops) at next instr edge ≡ Some to → after image at next instr edge t ≡ Ok u →
        LiveWordsAre image.loops (is_around (ranges image.loops) to) u.cells }
{}

/// Where the same loops' words are live, each word's cells agree, and in a join the same words are live.
pub fn words_of_the_same_loops_agree()
    ensures agree { (rows : List LoopRow) (around : ℕ → Bool) (cells others : List Cell) →
        LiveWordsAre rows around cells → LiveWordsAre rows around others →
        (x : ℕ) → IsTrue (cells_agree (cell_at cells x) (cell_at others x)) }
    ensures join { (rows : List LoopRow) (around : ℕ → Bool) (cells others : List Cell) → length others ≡ length cells →
        LiveWordsAre rows around cells → LiveWordsAre rows around others →
        LiveWordsAre rows around (joined_cells cells others) }
{}
