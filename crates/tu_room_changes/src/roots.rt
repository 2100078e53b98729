// The local that is the root of a place.
#![tactic(auto, using(crate::proofs::Appending::appending))]

ghost use Rattle.std.specs.Prelude.{◌≡◌, [], ◌∷◌, ◌++◌, OnOk};
ghost use Rattle.tu_core_expressions.specs.ExpressionViews.{actuals_view};
ghost use Rattle.tu_room_changes.specs.Changed.{local_of, root_of, var_root_of, actual_changes};

use tu_base::{Memory, Numbers};
use tu_core::Variable;
use tu_core_expressions::{Actual, Path, Root};

fn note_local(name: Variable, found: &mut Numbers) -> Result<(), Memory>
    ensures { OnOk result (found.new ≡ found.old ++ local_of name) }
{
    match name {
        Variable::Global(_) => Ok(()),
        Variable::Local(x) => found.add(x as u64),
    }
}

/// Notes the local that a place has as its root.
pub fn note_root(p: &Path, found: &mut Numbers) -> Result<(), Memory>
    ensures { OnOk result (found.new ≡ found.old ++ root_of p.now) }
{
    match &p.root {
        Root::Name(name) => note_local(*name, found),
        Root::OpenItem { name, .. } => note_local(*name, found),
        Root::Element { .. } => Ok(()),
        Root::ResultOf { .. } => Ok(()),
    }
}

/// Notes the local that a place has as its root, where it is lent or bound as `var`.
pub fn note_var_root(is_var: bool, p: &Path, found: &mut Numbers) -> Result<(), Memory>
    ensures { OnOk result (found.new ≡ found.old ++ var_root_of is_var p.now) }
{
    if is_var { note_root(p, found) } else { Ok(()) }
}

/// Notes the local that an actual changes.
pub fn note_actual(actual: &Actual, found: &mut Numbers) -> Result<(), Memory>
    ensures { OnOk result (found.new ≡ found.old ++ actual_changes (actuals_view (actual.now ∷ []))) }
{
    match actual {
        Actual::Given { .. } => Ok(()),
        Actual::Lent { is_var, place, .. } => note_var_root(*is_var, place, found),
    }
}
