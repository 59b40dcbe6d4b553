//! Laws of the definitions, each the contract of a function that does nothing.
ghost use Rattle.std.specs.Prelude.{◌≡◌, ◌++◌, List, [], length, ℕ};
ghost use Rattle.data_model.specs.Lists.{Each};
ghost use Rattle.grammar.specs.Form.{Room};
ghost use Rattle.grammar.specs.Language.{HasPrefixes, Includes, IsUnambiguous};
ghost use Rattle.sql_lex.specs.Lexemes.{Lexeme};
ghost use Rattle.sql_grammar.specs.Numbering.{Built, Numbers};
ghost use Rattle.sql_read.specs.ReadingTexts.{Passes, PassesDepth, TextLimit};
ghost use Rattle.schema_read.specs.FewEntries.{HasFewEntries, ViewHasFew};
ghost use Rattle.sql_grammar.specs.Queries.{of_form};
ghost use Rattle.sql_grammar.specs.QueryEntries.{most_entries};
ghost use Rattle.case_core.specs.declared.text.CaseText.{CaseText as Written};
ghost use Rattle.case_core.specs.CaseGrammar as g;
ghost use Rattle.case_core.specs.Cases.{BeginsCase, IsRead, SpellsCase, cases, shallow_cases, texts};
ghost use Rattle.case_core.specs.Fitting.{TextFits};

/// No text spells two cases, and no list of tokens two values of one.
pub fn one_case()
    ensures texts { (text : List ℕ) (one other : Written) (numbers numbers_too : Numbers) →
        SpellsCase text one numbers → SpellsCase text other numbers_too → (one ≡ other) × (numbers ≡ numbers_too) }
    ensures values { (room : Room) → IsUnambiguous (of_form room g.case) }
{}

/// A text may go on after no tokens, after fewer tokens than it may go on after, and after a whole case; there nothing goes on.
pub fn prefixes()
    ensures empty { BeginsCase [] }
    ensures shorter { (x y : List Lexeme) → BeginsCase (x ++ y) → BeginsCase x }
    ensures spelled { (tokens : List Lexeme) (read : Built Written) → cases.spells tokens read → BeginsCase tokens }
    ensures last { (x y : List Lexeme) (read : Built Written) → cases.spells x read → BeginsCase (x ++ y) → y ≡ [] }
    ensures limited { (room : Room) → HasPrefixes (of_form room g.case) }
{}

/// What is spelled within the limits is spelled, and a prefix within them is a prefix.
pub fn limits()
    ensures { Includes cases shallow_cases }
{}

/// Each limit is passed at no more than one token of a text.
pub fn passed_once()
    ensures tokens { (copied : ℕ) (tokens : List Lexeme) (which : TextLimit) (one other : Passes texts copied tokens which) →
        (one.taken ≡ other.taken) × (one.token ≡ other.token) }
    ensures places { (copied : ℕ) (tokens : List Lexeme) (at place : ℕ) → PassesDepth texts copied tokens at → PassesDepth texts copied tokens place → at ≡ place }
{}

/// A text passes one limit at most: that on depth and length, that on columns, entries or relations, or that on copies.
pub fn one_limit()
    ensures { (copied : ℕ) (tokens : List Lexeme) (which other : TextLimit) → Passes texts copied tokens which → Passes texts copied tokens other → which ≡ other }
{}

/// No block of a case that is read has more than 32 entries: of its queries, of its views, or of a subquery of these.
pub fn few_in_each_block()
    ensures views { (text : List ℕ) (written : Written) (numbers : Numbers) → IsRead text written numbers → Each (ViewHasFew most_entries) written.statements }
    ensures left { (text : List ℕ) (written : Written) (numbers : Numbers) → IsRead text written numbers → HasFewEntries most_entries written.left }
    ensures right { (text : List ℕ) (written : Written) (numbers : Numbers) → IsRead text written numbers → HasFewEntries most_entries written.right }
{}

/// The number of each literal in the views and the two queries that a text spells is that of one of the case's literals.
pub fn literals_have_numbers()
    ensures { (text : List ℕ) (written : Written) (numbers : Numbers) → SpellsCase text written numbers → TextFits (length numbers.literals) written }
{}
