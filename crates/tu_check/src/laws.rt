ghost use Rattle.tu_check.specs.Laws.{AcceptedHasLimits, IsAcceptedOnce, IsEitherWay, IsNeverBoth, IsRefusedOnce};

use tu_lex::{tokens_or_fault, tokens_within_limits};
use tu_token::{one_fault, one_syntax_fault, one_token_list, one_tree, tree_or_fault};

/// A source is accepted as one tree at most or refused for one reason at most, and never both.
pub fn one_answer()
    ensures accepted { IsAcceptedOnce }
    ensures refused { IsRefusedOnce }
    ensures apart { IsNeverBoth }
{
    one_token_list();
    one_fault();
    one_tree();
    one_syntax_fault();
}

/// A source is accepted or refused.
pub fn some_answer()
    ensures { IsEitherWay }
{
    tokens_or_fault();
    tree_or_fault();
}

/// An accepted source is a tree of at most 65,536 tokens, whose numbers are at most 2147483647, on at
/// most 1,048,577 lines.
pub fn accepted_has_limits()
    ensures { AcceptedHasLimits }
{
    tokens_within_limits();
}
