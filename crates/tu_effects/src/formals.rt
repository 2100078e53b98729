// `var` among the formals of a function.
ghost use Rattle.std.specs.Prelude.{◌≡◌};
ghost use Rattle.tu_core.specs.Effects.{Among, FunctionVar, IsVarFormal, is_function as is_function_of};
ghost use Rattle.tu_effects.specs.Faults.{HasVar};
ghost use Rattle.tu_effects.specs.Least.{IsLeast};

use crate::earlier;
use tu_core::{At, CallResult, Formal};
use tu_core_types::{Program, Routine};

/// Whether a routine is a function, or an invariant. All others are procedures.
pub fn is_function(r: &Routine) -> bool
    ensures { result ≡ is_function_of r.now }
{
    if r.is_invariant {
        return true;
    }
    match r.gives {
        CallResult::Nothing => false,
        CallResult::OneValue(_) => true,
        CallResult::OnePlace { .. } => true,
    }
}

fn var_formal(f: &Formal) -> Option<At>
    ensures { IsLeast (IsVarFormal f.now) result }
{
    match f {
        Formal::ByValue(_) => None,
        Formal::ByCopy(_) => None,
        Formal::ByVar(at, _) => Some(*at),
    }
}

fn var_formals(fs: &[Formal]) -> Option<At>
    ensures { IsLeast (Among IsVarFormal fs.now) result }
{
    let mut least = None;
    for f in fs {
        least = earlier(least, var_formal(f));
    }
    least
}

fn var_of_function(r: &Routine) -> Option<At>
    ensures { IsLeast (HasVar r.now) result }
{
    if is_function(r) {
        var_formals(r.formals.as_slice())
    } else {
        None
    }
}

/// The first `var` among the formals of a function.
pub fn function_var(program: &Program) -> Option<At>
    ensures { IsLeast (FunctionVar program.now) result }
{
    let mut least = None;
    for r in program.routines.as_slice() {
        least = earlier(least, var_of_function(r));
    }
    least
}
