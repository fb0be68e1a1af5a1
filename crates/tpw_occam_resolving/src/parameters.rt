//! Parameters.

ghost use Rattle.std.specs.Prelude.{◌≡◌, MatchOption};
ghost use Rattle.tpw_occam_meaning.specs.declared.types.Parameters.TheVariants.{End};
ghost use Rattle.tpw_occam_resolving.specs.Passing.{BeginsWith};

use tpw_occam_meaning::Parameters;
use tpw_occam_terms::Name;

/// The first parameter, and those behind it.
pub fn first<'r, 'a>(takes: &'r Parameters<'a>) -> Option<(Name<'a>, &'r Parameters<'a>)>
    ensures { MatchOption result (takes.now ≡ End) (λ r. BeginsWith takes.now r.0.text.now r.1.now) }
{
    match takes {
        Parameters::End => None,
        Parameters::Typed { name, more, .. } | Parameters::Further { name, more, .. } => {
            Some((*name, more))
        }
    }
}
