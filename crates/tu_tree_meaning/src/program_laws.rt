ghost use Rattle.tu_token.specs.Rules.{r-program};
ghost use Rattle.tu_token.specs.Syntax.{Of};
ghost use Rattle.tu_tree_meaning.specs.Laws.{IsFinal, TraceGrows, UnitsGrow};
ghost use Rattle.tu_tree_meaning.specs.ProgramLaws.{DepthIsEnough, TurnsAreExact};
ghost use Rattle.tu_tree_meaning.specs.Programs.{meaning};

/// With more turns a program that has ended or stopped does the same, at the same cost. The files
/// that it leaves are those that its trace makes.
pub fn program_is_final()
    ensures { (program : Of r-program) → IsFinal (meaning program) }
{}

/// With one more turn a program only adds to its trace.
pub fn program_trace_grows()
    ensures { (program : Of r-program) → TraceGrows (meaning program) }
{}

/// With one more turn a program does not cost less.
pub fn program_units_grow()
    ensures { (program : Of r-program) → UnitsGrow (meaning program) }
{}

/// A program that goes on has begun all its turns.
pub fn turns_are_exact()
    ensures { TurnsAreExact }
{}

/// No loop ends by the depth of the definition.
pub fn depth_is_enough()
    ensures { DepthIsEnough }
{}
