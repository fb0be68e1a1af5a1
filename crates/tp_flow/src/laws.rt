//! Laws of the flow of a code: each function's contract is the law.

ghost use Rattle.std.specs.Prelude.{◌≡◌, ℕ, ◌+◌, ◌<◌, ◌≤◌, List, None, Some, length, filter, slice_get, Contains};
ghost use Rattle.std.specs.Prelude.{IsTrue};
ghost use Rattle.tp_decode.specs.Cutting.{Cut, IsCutting, starts_from, cut_at};
ghost use Rattle.tp_image.specs.Image.{ImageValue};
ghost use Rattle.tp_flow.specs.declared.range.LoopRange.{LoopRange};
ghost use Rattle.tp_flow.specs.NestRanges.{ranges, contains};
ghost use Rattle.tp_flow.specs.FlowFaults.{first_flow_fault};
ghost use Rattle.tp_flow.specs.NestKept.{depth_at, KeepsNest};
ghost use Rattle.tp_flow.specs.Limits.{most_depth};
ghost use Rattle.tp_flow.specs.LoopsAround.{rows_around};
ghost use Rattle.tp_flow.specs.AroundKept.{KeepsAround};
ghost use Rattle.tp_flow.specs.RowRules.{is_start};
ghost use Rattle.tp_image.specs.declared.image.LoopRow.{LoopRow};
ghost use Rattle.tp_flow.specs.NestAround.{loops_around, IsOutermostFirst};
ghost use Rattle.std.specs.List.{AllByRecursion};

/// No rule of flow is broken exactly where the loops are a nest in the code and its edges keep to them: heads and lends
/// are each loop's own, of two loops that overlap one lies within the other, no address lies in more than four; each
/// edge goes to an instruction, all but Back go forward; edges enter loops at their heads alone and leave them from
/// their lends alone.
#[tactic(auto, using(crate::proofs::FlowKept::nest_kept, crate::proofs::FlowExact::nest_passes))]
pub fn edges_keep_the_nest()
    ensures kept { (image : ImageValue) (cuts : List Cut) → IsCutting image.code cuts →
        first_flow_fault image cuts ≡ None → KeepsNest image.loops image.workspace cuts }
    ensures exact { (image : ImageValue) (cuts : List Cut) → IsCutting image.code cuts →
        KeepsNest image.loops image.workspace cuts → first_flow_fault image cuts ≡ None }
{}

/// In such a nest, the loops around the target of each edge are those around its source, without the one that the edge
/// leaves, with the one that it enters; and a lend ends a loop that is around it.
#[tactic(auto, using(crate::proofs::LoopMoves::keeps_around))]
pub fn edges_move_between_loops()
    ensures { (rows : List LoopRow) (workspace : ℕ) (cuts : List Cut) → KeepsNest rows workspace cuts →
        (at : ℕ) (cut : Cut) → cut_at cuts at ≡ Some cut →
        KeepsAround rows workspace at (at + length cut.bytes) cut.instr }
{}

/// The instructions of a nest's code by their places in its list: as many start as there are, and the one at the i-th
/// start is the i-th; each has bytes, and none starts among the bytes of another.
#[tactic(auto, using(crate::proofs::FlowSpelled::length_starts, crate::proofs::FlowSpelled::cut_at_its_start, crate::proofs::FlowSpelled::some_bytes, crate::proofs::FlowCuts::none_between))]
pub fn instructions_stand_in_order()
    ensures number { (cuts : List Cut) → length (starts_from 0 cuts) ≡ length cuts }
    ensures each { (rows : List LoopRow) (workspace : ℕ) (cuts : List Cut) → KeepsNest rows workspace cuts →
        (i at : ℕ) → slice_get (starts_from 0 cuts) i ≡ Some at → cut_at cuts at ≡ slice_get cuts i }
    ensures bytes { (rows : List LoopRow) (workspace : ℕ) (cuts : List Cut) → KeepsNest rows workspace cuts →
        (at : ℕ) (cut : Cut) → cut_at cuts at ≡ Some cut → 0 < length cut.bytes }
    ensures apart { (cuts : List Cut) (at to : ℕ) (cut : Cut) → cut_at cuts at ≡ Some cut → IsTrue (is_start cuts to) →
        at < to → at + length cut.bytes ≤ to }
{}

/// The loops around an address are as many as contain it, at most four in a nest that passed; and where no rule of flow
/// is broken, each of them is a loop of the nest that contains it, and lies within all before it.
#[tactic(auto, using(crate::proofs::FlowAround::length_around, crate::proofs::FlowAround::each_around, crate::proofs::FlowAround::outermost_first, crate::proofs::RowNumbers::length_numbers))]
pub fn loops_around_an_address()
    ensures number { (nest : List LoopRange) (at : ℕ) →
        length (loops_around nest at) ≡ length (filter (λ range. contains range at) nest) }
    ensures rows { (nest : List LoopRange) (at : ℕ) → length (rows_around nest at) ≡ depth_at nest at }
    ensures few { (rows : List LoopRow) (workspace : ℕ) (cuts : List Cut) → KeepsNest rows workspace cuts →
        (at : ℕ) → length (rows_around (ranges rows) at) ≤ most_depth }
    ensures each { (image : ImageValue) (cuts : List Cut) (at : ℕ) → first_flow_fault image cuts ≡ None →
        AllByRecursion (λ range. Contains (ranges image.loops) range × IsTrue (contains range at))
        (loops_around (ranges image.loops) at) }
    ensures outermost { (image : ImageValue) (cuts : List Cut) (at : ℕ) → first_flow_fault image cuts ≡ None →
        IsOutermostFirst (loops_around (ranges image.loops) at) }
{}
