// What holds of all programs.
ghost use Rattle.tu_overlap.specs.Laws.{NoFaultIsAllRules};

/// A program has no fault of effects and of overlap exactly where it keeps the rules: functions
/// change nothing outside and do not talk, names that are imported to be read are not changed, and
/// no two names of a text overlap.
pub fn no_fault_is_all_rules()
    ensures { NoFaultIsAllRules }
{}
