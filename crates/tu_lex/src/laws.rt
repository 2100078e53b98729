ghost use Rattle.tu_lex.specs.Laws.{TokensAreWithinLimits, TokensOrFault};

use tu_token::one_token_list;

/// A source is tokens, or it has a first lexical fault.
pub fn tokens_or_fault()
    ensures { TokensOrFault }
{}

/// The tokens of a source without a lexical fault are at most 65,536, on its lines, and their
/// numbers are at most `MOST_INT`.
pub fn tokens_within_limits()
    ensures { TokensAreWithinLimits }
{
    one_token_list();
}
