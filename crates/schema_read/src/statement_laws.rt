//! Laws of the grammar of statements, each the contract of a function that does nothing.
ghost use Rattle.std.specs.Prelude.{◌≡◌, ◌≤◌, ◌<◌, ◌+◌, ℕ, suc, ◌++◌, ◌∷◌, List, [], length, None};
ghost use Rattle.data_model.specs.Lists.{Each};
ghost use Rattle.grammar.specs.Completions.{Completed, Completes};
ghost use Rattle.grammar.specs.Form.{Room, language};
ghost use Rattle.grammar.specs.Language.{HasPrefixes, Includes, IsUnambiguous};
ghost use Rattle.grammar.specs.Lookahead.{HasLookahead};
ghost use Rattle.sql_lex.specs.Lexemes.{Lexeme};
ghost use Rattle.sql_model.specs.declared.statement.Statement.{Statement};
ghost use Rattle.sql_model.specs.declared.tree.Query.{Query as Tree};
ghost use Rattle.sql_grammar.specs.Kinds.{kind_of};
ghost use Rattle.sql_grammar.specs.Numbering.{Built, Numbers};
ghost use Rattle.sql_grammar.specs.Queries.{queries, of_form};
ghost use Rattle.sql_grammar.specs.QueryCopies.{copies_nothing, most_copies};
ghost use Rattle.sql_grammar.specs.QueryEntries.{few_rules, most_further};
ghost use Rattle.sql_grammar.specs.QueryGrammar.{query};
ghost use Rattle.schema_read.specs.FewEntries.{HasFewEntries, ViewHasFew};
ghost use Rattle.schema_read.specs.StatementGrammar as g;
ghost use Rattle.schema_read.specs.StatementLimits.{CopiesFew, IsColumnTooMany, IsCopyTooMany, IsEntryTooMany, IsRelationTooMany, column_count, few_entry_statements, few_statements, narrow_statements, rule_count};
ghost use Rattle.schema_read.specs.StatementLookahead.{of_statements};
ghost use Rattle.schema_read.specs.Statements.{Begins, IsTooDeep, Spells, SpellsIn, shallow_statements, statements};
ghost use Rattle.sql_grammar.specs.FactoredQueries.{in_factored};

/// Statements may go on after no tokens, after fewer tokens than they may go on after, and after whole ones.
pub fn prefixes()
    ensures empty { Begins [] }
    ensures shorter { (x y : List Lexeme) → Begins (x ++ y) → Begins x }
    ensures spelled { (before after : Numbers) (ts : List Lexeme) (list : List Statement) → Spells before ts list after → Begins ts }
    ensures limited { (room : Room) → HasPrefixes (of_form room g.statements) }
{}

/// What is spelled within a limit is spelled, and a prefix within it is a prefix.
pub fn limits()
    ensures shallow { Includes statements shallow_statements }
    ensures narrow { (most : ℕ) → Includes statements (narrow_statements most) }
    ensures few { (most : ℕ) → Includes statements (few_statements most) }
    ensures few_entries { Includes statements (few_entry_statements most_further) }
{}

/// Each limit is passed at no more than one token of a text.
pub fn passed_once()
    ensures depth { (x more y others : List Lexeme) (t u : Lexeme) →
        IsTooDeep x t → IsTooDeep y u → x ++ t ∷ more ≡ y ++ u ∷ others → (x ≡ y) × (t ≡ u) }
    ensures columns { (x more y others : List Lexeme) (t u : Lexeme) →
        IsColumnTooMany x t → IsColumnTooMany y u → x ++ t ∷ more ≡ y ++ u ∷ others → (x ≡ y) × (t ≡ u) }
    ensures relations { (x more y others : List Lexeme) (t u : Lexeme) →
        IsRelationTooMany x t → IsRelationTooMany y u → x ++ t ∷ more ≡ y ++ u ∷ others → (x ≡ y) × (t ≡ u) }
    ensures entries { (x more y others : List Lexeme) (t u : Lexeme) →
        IsEntryTooMany x t → IsEntryTooMany y u → x ++ t ∷ more ≡ y ++ u ∷ others → (x ≡ y) × (t ≡ u) }
{}

/// No token is one too many for two of the limits on columns, entries and relations.
pub fn one_limit()
    ensures columns_or_entries { (x : List Lexeme) (t : Lexeme) → IsColumnTooMany x t → IsEntryTooMany x t → ⊥ }
    ensures relations_or_columns { (x : List Lexeme) (t : Lexeme) → IsRelationTooMany x t → IsColumnTooMany x t → ⊥ }
    ensures relations_or_entries { (x : List Lexeme) (t : Lexeme) → IsRelationTooMany x t → IsEntryTooMany x t → ⊥ }
{}

/// No list of tokens spells two lists of statements, nor two values of them within the limits.
pub fn one_list()
    ensures lists { (before after other : Numbers) (ts : List Lexeme) (p q : List Statement) →
        Spells before ts p after → Spells before ts q other → (p ≡ q) × (after ≡ other) }
    ensures values { (room : Room) → IsUnambiguous (of_form room g.statements) }
{}

/// Over the left-factored grammar of queries statements spell and begin the same, within the limits and without.
pub fn same_languages()
    ensures left_factored { (room : Room) → Includes (in_factored room g.statements) (of_form room g.statements) }
    ensures known { (room : Room) → Includes (of_form room g.statements) (in_factored room g.statements) }
{}

/// One token of lookahead tells of statements what the table says.
pub fn lookahead()
    ensures { (room : Room) → HasLookahead kind_of (of_form room g.statements) of_statements }
{}

/// Statements are spelled with few columns exactly where their tables have no more than that.
pub fn few_columns()
    ensures few { (most : ℕ) (before after : Numbers) (ts : List Lexeme) (list : List Statement) →
        SpellsIn (narrow_statements most) before ts list after → Each (λ s. column_count s ≤ suc most) list }
    ensures others { (most : ℕ) (before after : Numbers) (ts : List Lexeme) (list : List Statement) →
        Spells before ts list after → Each (λ s. column_count s ≤ suc most) list → SpellsIn (narrow_statements most) before ts list after }
{}

/// Few statements are spelled exactly where there are no more than that.
pub fn few_relations()
    ensures few { (most : ℕ) (before after : Numbers) (ts : List Lexeme) (list : List Statement) →
        SpellsIn (few_statements most) before ts list after → length list ≤ most }
    ensures others { (most : ℕ) (before after : Numbers) (ts : List Lexeme) (list : List Statement) →
        Spells before ts list after → length list ≤ most → SpellsIn (few_statements most) before ts list after }
{}

/// A table has no more rules than its text has tokens.
pub fn few_rules()
    ensures { (before after : Numbers) (ts : List Lexeme) (list : List Statement) →
        Spells before ts list after → Each (λ s. rule_count s ≤ length ts) list }
{}

/// Where as many further entries are allowed as a text has tokens, it spells what it spells without that limit.
pub fn few_entries()
    ensures { (most : ℕ) (before after : Numbers) (ts : List Lexeme) (list : List Statement) →
        length ts ≤ most → Spells before ts list after → SpellsIn (few_entry_statements most) before ts list after }
{}

/// With so many further entries in each block exactly the trees are spelled in which no block has more, at any depth.
pub fn few_in_each_block()
    ensures queries { (most : ℕ) (before after : Numbers) (ts : List Lexeme) (tree : Tree) (read : Built Tree) →
        (language kind_of (few_rules most) None query).spells ts read → read.build before ≡ (tree, after) → HasFewEntries (suc most) tree }
    ensures views { (most : ℕ) (before after : Numbers) (ts : List Lexeme) (list : List Statement) →
        SpellsIn (few_entry_statements most) before ts list after → Each (ViewHasFew (suc most)) list }
    ensures other_queries { (most : ℕ) (before after : Numbers) (ts : List Lexeme) (tree : Tree) (read : Built Tree) →
        queries.spells ts read → read.build before ≡ (tree, after) → HasFewEntries (suc most) tree → (language kind_of (few_rules most) None query).spells ts read }
    ensures other_views { (most : ℕ) (before after : Numbers) (ts : List Lexeme) (list : List Statement) →
        Spells before ts list after → Each (ViewHasFew (suc most)) list → SpellsIn (few_entry_statements most) before ts list after }
{}

/// The limit on what views copy is passed at no more than one token of a text, and at none of statements that are within it. Each prefix of
/// statements goes on to statements with tokens that copy nothing, and the limit is passed exactly where what goes on so from before the
/// token is within it, and what goes on so from behind the token is not.
pub fn copied_too_much_once()
    ensures once { (copied : ℕ) (x more y others : List Lexeme) (t u : Lexeme) → IsCopyTooMany copied x t → IsCopyTooMany copied y u →
        x ++ t ∷ more ≡ y ++ u ∷ others → (x ≡ y) × (t ≡ u) }
    ensures never { (copied : ℕ) (ts : List Lexeme) (read : Built (List Statement)) → statements.spells ts read → copied + read.copies ≤ most_copies →
        CopiesFew copied ts }
    ensures completed { (ts : List Lexeme) → Begins ts → Completed copies_nothing statements ts }
    ensures passed { (copied : ℕ) (x : List Lexeme) (t : Lexeme) (read other : Built (List Statement)) →
        Completes copies_nothing statements x read → Completes copies_nothing statements (x ++ t ∷ []) other →
        copied + read.copies ≤ most_copies → most_copies < copied + other.copies → IsCopyTooMany copied x t }
    ensures counted { (copied : ℕ) (x : List Lexeme) (t : Lexeme) (read other : Built (List Statement)) →
        Completes copies_nothing statements x read → Completes copies_nothing statements (x ++ t ∷ []) other →
        IsCopyTooMany copied x t → (copied + read.copies ≤ most_copies) × (most_copies < copied + other.copies) }
{}
