//! Laws of what names and expressions mean: each function's contract is the law.

ghost use Rattle.std.specs.Prelude.{◌≡◌, ◌≢◌, ℕ};
ghost use Rattle.std.specs.declared.boxed.Box.{Box};
ghost use Rattle.std.specs.declared.alloc.Global.{Global};
ghost use Rattle.tpw_occam_terms.specs.declared.name.Primitive.{Primitive};
ghost use Rattle.tpw_occam_terms.specs.declared.span.Span.{Span};
ghost use Rattle.tpw_occam_terms.specs.declared.name.Name.{Name};
ghost use Rattle.tpw_occam_meaning.specs.declared.expression.Expression.{Expression};
ghost use Rattle.tpw_occam_meaning.specs.declared.expression.Expression.TheVariants.{Bracketed};
ghost use Rattle.tpw_occam_meaning.specs.Names.{Entry, Names, found, with_name};
ghost use Rattle.tpw_occam_meaning.specs.Expressions.{value_of};

/// A name that is declared again hides the outer one.
pub fn a_name_hides_the_outer_one()
    ensures { (name : Name) (entry : Entry) (names : Names) → found name (with_name name entry names) ≡ entry }
{}

/// A name hides no other.
pub fn a_name_hides_no_other()
    ensures { (name other : Name) (entry : Entry) (names : Names) → name.text.now ≢ other.text.now
        → found name (with_name other entry names) ≡ found name names }
{}

/// Brackets around an expression mean nothing.
pub fn brackets_mean_nothing()
    ensures { (e : Box Expression Global) (span : Span) (of : Primitive) (names : Names) (d : ℕ)
        → value_of (Bracketed e span) of names d ≡ value_of e.value of names d }
{}
