// What holds of all texts.
ghost use Rattle.tu_scope_rules.specs.Laws.{ClosedIsUnseen, LeastIsTold};

/// Of several faults the one at the least place is told, and of those at one place the first kind.
pub fn least_is_told()
    ensures { LeastIsTold }
{}

/// Behind the end of a scope nothing of it is seen.
pub fn closed_is_unseen()
    ensures { ClosedIsUnseen }
{}
