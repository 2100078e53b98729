ghost use Rattle.std.specs.Prelude.{◌≡◌};
ghost use Rattle.tu_core.specs.Effects.{is_one as is_one_of, is_outer as is_outer_of};
ghost use Rattle.tu_core.specs.Rooms.{is_same as is_same_of};
ghost use Rattle.tu_acts.specs.ActViews.{subject_view};

use tu_acts::Subject;
use tu_core::Variable;

fn is_same(x: Variable, y: Variable) -> bool
    ensures { result ≡ is_same_of x y }
{
    match x {
        Variable::Global(x) => match y {
            Variable::Global(y) => x == y,
            Variable::Local(_) => false,
        },
        Variable::Local(x) => match y {
            Variable::Global(_) => false,
            Variable::Local(y) => x == y,
        },
    }
}

/// Whether two subjects are the same.
pub fn is_one(x: Subject, y: Subject) -> bool
    ensures { result ≡ is_one_of (subject_view x) (subject_view y) }
{
    match x {
        Subject::AVariable(x) => match y {
            Subject::AVariable(y) => is_same(x, y),
            Subject::ACollection(_) => false,
        },
        Subject::ACollection(c) => match y {
            Subject::AVariable(_) => false,
            Subject::ACollection(d) => c == d,
        },
    }
}

/// Whether a subject is a variable or collection of the program or of a module.
pub fn is_outer(x: Subject) -> bool
    ensures { result ≡ is_outer_of (subject_view x) }
{
    match x {
        Subject::AVariable(Variable::Global(_)) => true,
        Subject::AVariable(Variable::Local(_)) => false,
        Subject::ACollection(_) => true,
    }
}
