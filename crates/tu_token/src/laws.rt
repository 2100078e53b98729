ghost use Rattle.std.specs.Prelude.{◌≡◌, ℕ, List};
ghost use Rattle.tu_token.specs.TokenList.{TokenList};
ghost use Rattle.tu_token.specs.declared.fault.LexError.{LexError};
ghost use Rattle.tu_token.specs.Lexemes.{IsLexed};
ghost use Rattle.tu_token.specs.LexFaults.{IsLexFault};

/// A source is at most one list of tokens.
pub fn one_token_list()
    ensures { (source : List ℕ) (a b : TokenList) → IsLexed source a → IsLexed source b → a ≡ b }
{}

/// A source has at most one first fault.
pub fn one_fault()
    ensures { (source : List ℕ) (a b : LexError) → IsLexFault source a → IsLexFault source b → a ≡ b }
{}
