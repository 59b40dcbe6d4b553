//! Laws of the definitions, each the contract of a function that does nothing.
ghost use Rattle.std.specs.Prelude.{◌≡◌, ◌⊎◌, ℕ, All, List, Option};
ghost use Rattle.sql_lex.specs.Lexemes.{Lexeme};
ghost use Rattle.sql_lex.specs.Tokens.{AreInOrder, IsFirstFault, IsSliceOf, Lexes, TokensOf};
ghost use Rattle.sql_lex.specs.declared.token.LexFault.{LexFault as Fault};

/// No text has two lists of tokens, nor two first faults, nor two lists of tokens up to one.
pub fn one_list_of_tokens()
    ensures { (text : List ℕ) (a b : List Lexeme) (f g : Option Fault) → Lexes 0 text a f → Lexes 0 text b g → (a ≡ b) × (f ≡ g) }
{}

/// A text has a list of tokens or a first fault, and never both.
pub fn tokens_or_a_fault()
    ensures either { (text : List ℕ) → ((tokens : List Lexeme) × TokensOf text tokens) ⊎ ((fault : Fault) × IsFirstFault text fault) }
    ensures never_both { (text : List ℕ) (tokens : List Lexeme) (fault : Fault) → TokensOf text tokens → IsFirstFault text fault → ⊥ }
{}

/// Each token is the slice of the text at its start, and they come in order, also up to a fault.
pub fn slices_in_order()
    ensures slices { (text : List ℕ) (tokens : List Lexeme) (fault : Option Fault) → Lexes 0 text tokens fault → All (IsSliceOf text) tokens }
    ensures in_order { (text : List ℕ) (tokens : List Lexeme) (fault : Option Fault) → Lexes 0 text tokens fault → AreInOrder 0 tokens }
{}
