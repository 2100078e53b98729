ghost use Rattle.ir_build.specs.Laws.{ConditionsAdd, ConditionsDo, ConditionsFit, ExpressionsAdd, ExpressionsDo, ExpressionsFit};

/// The code of expressions and conditions does what they mean, within a bound on its cost.
pub fn expressions_do()
    ensures expressions { ExpressionsDo }
    ensures conditions { ConditionsDo }
{}

/// It may stand wherever the variables are known, its values are in order, it has no Guards, and it
/// defines and weighs at most 12 for each token.
pub fn expressions_fit()
    ensures expressions { ExpressionsFit }
    ensures conditions { ConditionsFit }
{}

/// It changes its own values alone, and defines at most 6 for each node.
pub fn expressions_add()
    ensures expressions { ExpressionsAdd }
    ensures conditions { ConditionsAdd }
{}
