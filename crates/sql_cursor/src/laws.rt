//! Laws of the definitions, each the contract of a function that does nothing.
ghost use Rattle.std.specs.Prelude.{◌≡◌, ℕ, List};
ghost use Rattle.sql_lex.specs.declared.token.TokenKind.{TokenKind as Kind};
ghost use Rattle.sql_cursor.specs.Names.{SpellsName};

/// No token spells two names.
#[tactic(auto, using(crate::proofs::code::Unquoting::same_name))]
pub fn one_name()
    ensures { (kind : Kind) (bytes a b : List ℕ) → SpellsName kind bytes a → SpellsName kind bytes b → a ≡ b }
{}
