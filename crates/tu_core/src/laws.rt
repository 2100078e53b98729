ghost use Rattle.tu_core.specs.Core.{Program};
ghost use Rattle.tu_core.specs.Laws.{WellFormedIsTyped};

/// In a well formed program what is changed is a variable, what is written as a constant has its
/// value, and places that begin alike go on alike.
pub fn well_formed_is_typed()
    ensures { (program : Program) → WellFormedIsTyped program }
{}
