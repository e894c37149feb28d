// Laws of tokens.
ghost use Rattle.std.specs.Prelude.{◌≡◌, ℕ, List};
ghost use Rattle.header_tokens.specs.declared.token.Alphabet.{Alphabet};
ghost use Rattle.header_tokens.specs.Lexemes.{AreLeadingLexemes};
ghost use Rattle.header_tokens.specs.Tokens.{Spelled, AreTokens};

/// No text has two rows of tokens, and none has two rows of lexemes at its front.
pub fn one_row_of_tokens()
    ensures tokens { (a : Alphabet) (one other : List Spelled) (t : List ℕ) → AreTokens a one t → AreTokens a other t → one ≡ other }
    ensures lexemes { (a : Alphabet) (one other : List Spelled) (t : List ℕ) → AreLeadingLexemes a one t → AreLeadingLexemes a other t → one ≡ other }
{}
