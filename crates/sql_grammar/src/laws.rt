//! Laws of the grammar of queries, each the contract of a function that does nothing.
ghost use Rattle.std.specs.Prelude.{◌≡◌, ◌++◌, ◌+◌, ◌∷◌, ◌≤◌, ◌<◌, ◌||◌, List, [], bytes_eq, length, None, ℕ};
ghost use Rattle.std.specs.List.{list_any};
ghost use Rattle.grammar.specs.Completions.{Completed, Completes, Overspends};
ghost use Rattle.grammar.specs.Form.{Room, language};
ghost use Rattle.grammar.specs.Language.{HasPrefixes, Includes, IsUnambiguous};
ghost use Rattle.grammar.specs.Limits.{KeepsWithin};
ghost use Rattle.grammar.specs.Lookahead.{HasLookahead};
ghost use Rattle.grammar.specs.Parses.{name_parses, whole_values};
ghost use Rattle.sql_lex.specs.Lexemes.{Lexeme};
ghost use Rattle.sql_model.specs.declared.tree.Query.{Query};
ghost use Rattle.sql_grammar.specs.Kinds.{is_reserved, kind_of, left_out_words, used_kinds};
ghost use Rattle.sql_grammar.specs.Numbering.{Built, Numbers};
ghost use Rattle.sql_grammar.specs.Queries.{Begins, IsTooDeep, of_production, queries, rules, shallow_queries, Spells};
ghost use Rattle.sql_grammar.specs.QueryCopies.{IsCopyTooMany, copies_nothing, most_copies, within_copies};
ghost use Rattle.sql_grammar.specs.QueryEntries.{IsEntryTooMany, few_queries, few_rules, most_further};
ghost use Rattle.sql_grammar.specs.FactoredQueries.{few_factored, of_factored};
ghost use Rattle.sql_grammar.specs.QueryLookahead.{table};
ghost use Rattle.sql_grammar.specs.QueryGrammar.{Production, query};

/// A word is reserved where it is one of those that the grammar uses or leaves out, and nowhere else.
pub fn reserved_words()
    ensures { (word : List ℕ) → is_reserved word ≡ (list_any (λ row. bytes_eq row.0 word) used_kinds || list_any (bytes_eq word) left_out_words) }
{}

/// A text may go on after no tokens, after fewer tokens than it may go on after, and after a query.
pub fn prefixes()
    ensures empty { Begins [] }
    ensures shorter { (x y : List Lexeme) → Begins (x ++ y) → Begins x }
    ensures spelled { (before after : Numbers) (ts : List Lexeme) (q : Query) → Spells before ts q after → Begins ts }
    ensures productions { (room : Room) (p : Production) → HasPrefixes (of_production room p) }
{}

/// What is spelled within the limits is spelled, and a prefix within them is a prefix.
pub fn limits()
    ensures { Includes queries shallow_queries }
{}

/// The limits are passed at no more than one token of a text.
pub fn passed_once()
    ensures { (x more y others : List Lexeme) (t u : Lexeme) → IsTooDeep x t → IsTooDeep y u → x ++ t ∷ more ≡ y ++ u ∷ others → (x ≡ y) × (t ≡ u) }
{}

/// Queries whose blocks have few enough entries are queries, and their prefixes are prefixes. Where as many further entries are allowed as a text
/// has tokens, the text spells what it spells as a query.
pub fn few_entries()
    ensures included { Includes queries few_queries }
    ensures nothing_else { (most : ℕ) (ts : List Lexeme) (read : Built Query) → length ts ≤ most → queries.spells ts read → (language kind_of (few_rules most) None query).spells ts read }
{}

/// An entry is too many for its block at no more than one token of a text.
pub fn too_many_once()
    ensures { (x more y others : List Lexeme) (t u : Lexeme) → IsEntryTooMany x t → IsEntryTooMany y u → x ++ t ∷ more ≡ y ++ u ∷ others → (x ≡ y) × (t ≡ u) }
{}

/// Each prefix of a query goes on to a query with tokens that copy nothing, and what goes on so begins a query; a whole query goes on with none.
/// No query that goes on from a prefix copies less than one that goes on so, so these copy one number, which is what the prefix has copied, and
/// a longer prefix has copied no less.
pub fn copies()
    ensures begins { (ts : List Lexeme) (read : Built Query) → Completes copies_nothing queries ts read → Begins ts }
    ensures completed { (ts : List Lexeme) → Begins ts → Completed copies_nothing queries ts }
    ensures whole { (ts : List Lexeme) (read : Built Query) → queries.spells ts read → Completes copies_nothing queries ts read }
    ensures least { (ts more : List Lexeme) (read other : Built Query) → Completes copies_nothing queries ts read → queries.spells (ts ++ more) other →
        read.copies ≤ other.copies }
    ensures one { (ts : List Lexeme) (read other : Built Query) → Completes copies_nothing queries ts read → Completes copies_nothing queries ts other →
        read.copies ≡ other.copies }
    ensures grows { (x y : List Lexeme) (read other : Built Query) → Completes copies_nothing queries (x ++ y) read → Completes copies_nothing queries x other →
        other.copies ≤ read.copies }
{}

/// What the left-factored grammar has copied at a prefix of a query, the prefix has copied, and the other way round. Where a prefix of the
/// left-factored grammar is within the limit on copies, and with the next token is not, that token of the query is the one that passes it.
pub fn factored_copies()
    ensures there { (ts : List Lexeme) (read : Built Query) → Completes copies_nothing (of_factored None query) ts read → Completes copies_nothing queries ts read }
    ensures back { (ts : List Lexeme) (read : Built Query) → Completes copies_nothing queries ts read → Completes copies_nothing (of_factored None query) ts read }
    ensures too_much { (copied : ℕ) (start before more : List Lexeme) (token : Lexeme) → start ≡ before ++ token ∷ more →
        Overspends copies_nothing (of_factored None query) (λ read. read.copies) most_copies copied start (token ∷ more) → IsCopyTooMany copied before token }
{}

/// The limit on copies is passed at no more than one token of a text, and at none of a prefix within it. It is passed exactly where what goes on
/// from before the token with tokens that copy nothing is within it, and what goes on so from behind the token is not.
pub fn copied_too_much_once()
    ensures once { (copied : ℕ) (x more y others : List Lexeme) (t u : Lexeme) → IsCopyTooMany copied x t → IsCopyTooMany copied y u →
        x ++ t ∷ more ≡ y ++ u ∷ others → (x ≡ y) × (t ≡ u) }
    ensures never { (copied : ℕ) (ts : List Lexeme) → (within_copies copied queries).prefix ts → KeepsWithin queries (within_copies copied queries) ts }
    ensures passed { (copied : ℕ) (x : List Lexeme) (t : Lexeme) (read other : Built Query) →
        Completes copies_nothing queries x read → Completes copies_nothing queries (x ++ t ∷ []) other →
        copied + read.copies ≤ most_copies → most_copies < copied + other.copies → IsCopyTooMany copied x t }
    ensures counted { (copied : ℕ) (x : List Lexeme) (t : Lexeme) (read other : Built Query) →
        Completes copies_nothing queries x read → Completes copies_nothing queries (x ++ t ∷ []) other →
        IsCopyTooMany copied x t → (copied + read.copies ≤ most_copies) × (most_copies < copied + other.copies) }
{}

/// No list of tokens spells two queries, nor two values of any production.
pub fn one_query()
    ensures queries { (before after other : Numbers) (ts : List Lexeme) (p q : Query) → Spells before ts p after → Spells before ts q other → (p ≡ q) × (after ≡ other) }
    ensures productions { (room : Room) (p : Production) → IsUnambiguous (of_production room p) }
{}

/// One token of lookahead tells of each production what the table says.
pub fn lookahead()
    ensures { (room : Room) (p : Production) → HasLookahead kind_of (of_production room p) (table p) }
{}

/// The left-factored grammar spells and begins what the grammar does, each of its names, within the limits and without.
pub fn same_languages()
    ensures left_factored { (room : Room) (p : Production) → Includes (of_factored room p) (of_production room p) }
    ensures known { (room : Room) (p : Production) → Includes (of_production room p) (of_factored room p) }
{}

/// With few entries in each block too, the left-factored grammar spells and begins what the grammar does.
pub fn few_languages()
    ensures left_factored { (room : Room) (p : Production) → Includes (language kind_of (few_factored most_further) room p) (language kind_of (few_rules most_further) room p) }
    ensures known { (room : Room) (p : Production) → Includes (language kind_of (few_rules most_further) room p) (language kind_of (few_factored most_further) room p) }
    ensures fewer { (room : Room) (p : Production) → Includes (of_factored room p) (language kind_of (few_factored most_further) room p) }
{}

/// A query that is computed from tokens is spelled by them.
pub fn computing()
    ensures { (height : ℕ) (ts : List Lexeme) (read : Built Query) (others : List (Built Query)) (before after : Numbers) (q : Query) →
        whole_values (name_parses kind_of rules height None query ts) ≡ read ∷ others → read.build before ≡ (q, after) →
        Spells before ts q after }
{}
