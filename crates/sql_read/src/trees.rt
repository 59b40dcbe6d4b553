//! The trees of queries, made from their parts.
ghost use Rattle.std.specs.Prelude.{◌≡◌, ◌<◌, ◌^◌, [], ◌∷◌, IfOk, Some, None};
ghost use Rattle.sql_lex.specs.Lexemes.{lexeme_of};
ghost use Rattle.sql_model.specs.declared.tree.Query.TheVariants as a_query;
ghost use Rattle.sql_model.specs.declared.tree.Expr.TheVariants as an_expr;
ghost use Rattle.sql_grammar.specs.QueryTrees.{bounds, column, compared, operator, place_of};

use plain_data::{Boxed, Kept, List, Shared, SharedList};
use sql_cursor::{Tokens, place};
use sql_grammar::Kind;
use sql_lex::Token;
use sql_model::{Expr, NoMemory, Query, SetOp};
use std::alloc::Global;

/// Two queries under a set operator.
pub fn set_query(
    alloc: Global,
    op: SetOp,
    left: Query,
    right: Query,
    at: u32,
) -> Result<Query, NoMemory>
    ensures { IfOk result (λ query. query ≡ a_query.Set op left right at) }
{
    Ok(Query::Set {
        op,
        left: Boxed::new(alloc, left)?,
        right: Boxed::new(alloc, right)?,
        at,
    })
}

/// The place of an expression: that of its first operand in the text, or of its operator where that comes first.
#[tactic(auto, unfolding(sql_model::specs::Compute::everything))]
pub fn place_of(expr: &Expr) -> u32
    ensures { result ≡ place_of expr.now }
{
    match expr {
        Expr::Col {
            qual: Some(_),
            qual_at,
            ..
        } => *qual_at,
        Expr::Col { qual: None, at, .. } => *at,
        Expr::Lit { at, .. } => *at,
        Expr::Fun { at, .. } => *at,
        Expr::Pred { at, .. } => *at,
        Expr::Call { at, .. } => *at,
        Expr::Agg { at, .. } => *at,
        Expr::Sub { at, .. } => *at,
        Expr::Eq { at, .. } => *at,
        Expr::And { at, .. } => *at,
        Expr::Or { at, .. } => *at,
        Expr::Not { at, .. } => *at,
        Expr::Exists { at, .. } => *at,
        Expr::In { at, .. } => *at,
    }
}

fn one_part(alloc: Global, part: Expr) -> Result<List<Expr>, NoMemory>
    ensures { IfOk result (λ parts. parts ≡ part ∷ []) }
{
    Ok(List::from_vec(vec![in alloc; part]?))
}

fn two_parts(alloc: Global, left: Expr, right: Expr) -> Result<List<Expr>, NoMemory>
    ensures { IfOk result (λ parts. parts ≡ left ∷ right ∷ []) }
{
    Ok(List::from_vec(vec![in alloc; left, right]?))
}

/// `left = right`. Others may have the same left side.
pub fn equal(alloc: Global, left: &Shared<Expr>, right: Expr) -> Result<Expr, NoMemory>
    ensures { IfOk result (λ expr. expr ≡ an_expr.Eq left.now right (place_of left.now)) }
{
    let at = place_of(left.get());
    let right = Boxed::new(alloc, right)?;
    Ok(Expr::Eq {
        left: left.share()?,
        right,
        at,
    })
}

/// `left = right`
fn equality(alloc: Global, left: Expr, right: Expr) -> Result<Expr, NoMemory>
    ensures { IfOk result (λ expr. expr ≡ an_expr.Eq left right (place_of left)) }
{
    equal(alloc, &Shared::new(alloc, left)?, right)
}

/// The predicate of this number on the two in this order, at the place of one of them.
fn predicate(alloc: Global, sym: u32, first: Expr, second: Expr, at: u32) -> Result<Expr, NoMemory>
    ensures { IfOk result (λ expr. expr ≡ an_expr.Pred sym (first ∷ second ∷ []) at) }
{
    Ok(Expr::Pred {
        sym,
        args: two_parts(alloc, first, second)?,
        at,
    })
}

/// A `NOT` around the part, at the part's place.
pub fn negated(alloc: Global, part: Expr) -> Result<Expr, NoMemory>
    ensures { IfOk result (λ expr. expr ≡ an_expr.Not part (place_of part)) }
{
    let at = place_of(&part);
    Ok(Expr::Not {
        part: Boxed::new(alloc, part)?,
        at,
    })
}

/// A `NOT` at this place.
pub fn not_at(alloc: Global, part: Expr, at: u32) -> Result<Expr, NoMemory>
    ensures { IfOk result (λ expr. expr ≡ an_expr.Not part at) }
{
    Ok(Expr::Not {
        part: Boxed::new(alloc, part)?,
        at,
    })
}

/// `left LIKE right`
pub fn like(alloc: Global, left: Expr, right: Expr) -> Result<Expr, NoMemory>
    ensures { IfOk result (λ expr. expr ≡ an_expr.Pred 2 (left ∷ right ∷ []) (place_of left)) }
{
    let at = place_of(&left);
    predicate(alloc, 2, left, right, at)
}

/// A comparison by this sign.
pub fn compared(alloc: Global, sign: Kind, left: Expr, right: Expr) -> Result<Expr, NoMemory>
    ensures { IfOk result (λ expr. expr ≡ compared sign left right) }
{
    let at = place_of(&left);
    match sign {
        Kind::Equals => equality(alloc, left, right),
        Kind::Differs => not_at(alloc, equality(alloc, left, right)?, at),
        Kind::Less => predicate(alloc, 0, left, right, at),
        Kind::AtMost => predicate(alloc, 1, left, right, at),
        Kind::Greater => predicate(alloc, 0, right, left, at),
        _ => predicate(alloc, 1, right, left, at),
    }
}

/// `value <= high`, of a copy of the value.
fn at_most(alloc: Global, value: &Expr, high: Kept<Expr>) -> Result<Expr, NoMemory>
    ensures { IfOk result (λ expr. expr ≡ an_expr.Pred 1 (value.now ∷ high ∷ []) (place_of value.now)) }
{
    let copy = value.copy(alloc)?;
    predicate(alloc, 1, copy, high.into_inner(), place_of(value))
}

/// `value BETWEEN low AND high`
pub fn between(
    alloc: Global,
    value: Kept<Expr>,
    low: Kept<Expr>,
    high: Kept<Expr>,
) -> Result<Expr, NoMemory>
    ensures { IfOk result (λ expr. expr ≡ bounds value low high) }
{
    let at = place_of(value.get());
    let below = Kept::new(at_most(alloc, value.get(), high)?);
    let above = predicate(alloc, 1, low.into_inner(), value.into_inner(), at)?;
    let parts = two_parts(alloc, above, below.into_inner())?;
    Ok(Expr::And {
        parts: SharedList::new(alloc, parts)?,
        at,
    })
}

/// The number of the symbol of an operator.
fn operator_number(sign: Kind) -> u32
    ensures { result ≡ operator sign }
{
    match sign {
        Kind::Plus => 3,
        Kind::Minus => 4,
        Kind::Star => 5,
        Kind::Slash => 6,
        _ => 7,
    }
}

/// An operator on two values.
pub fn operated(alloc: Global, sign: Kind, left: Expr, right: Expr) -> Result<Expr, NoMemory>
    ensures { IfOk result (λ expr. expr ≡ an_expr.Fun (operator sign) (left ∷ right ∷ []) (place_of left)) }
{
    let at = place_of(&left);
    Ok(Expr::Fun {
        sym: operator_number(sign),
        args: two_parts(alloc, left, right)?,
        at,
    })
}

/// Unary minus, at the place of its sign.
pub fn minus(alloc: Global, part: Expr, at: u32) -> Result<Expr, NoMemory>
    ensures { IfOk result (λ expr. expr ≡ an_expr.Fun 4 (part ∷ []) at) }
{
    Ok(Expr::Fun {
        sym: 4,
        args: one_part(alloc, part)?,
        at,
    })
}

/// A scalar subquery, at the place of its parenthesis.
pub fn subquery(alloc: Global, query: Query, at: u32) -> Result<Expr, NoMemory>
    ensures { IfOk result (λ expr. expr ≡ an_expr.Sub query at) }
{
    Ok(Expr::Sub {
        query: Boxed::new(alloc, query)?,
        at,
    })
}

/// `value IN (query)`, with the place of its word.
pub fn in_query(
    alloc: Global,
    value: &Shared<Expr>,
    query: Query,
    in_at: u32,
) -> Result<Expr, NoMemory>
    ensures { IfOk result (λ expr. expr ≡ an_expr.In value.now query (place_of value.now) in_at) }
{
    let at = place_of(value.get());
    let query = Boxed::new(alloc, query)?;
    Ok(Expr::In {
        value: value.share()?,
        query,
        at,
        in_at,
    })
}

/// A column without a qualifier.
pub fn bare_column(alloc: Global, tokens: &Tokens<'_>, word: &Token<'_>) -> Result<Expr, NoMemory>
    requires { word.now.start < 2 ^ 32 }
    ensures { IfOk result (λ expr. expr ≡ column (None, lexeme_of word.now)) }
{
    Ok(Expr::Col {
        qual: None,
        qual_at: 0,
        name: tokens.name(alloc, word)?,
        at: place(word),
    })
}

/// A column with a qualifier.
pub fn qualified_column(
    alloc: Global,
    tokens: &Tokens<'_>,
    qual: &Token<'_>,
    word: &Token<'_>,
) -> Result<Expr, NoMemory>
    requires qual { qual.now.start < 2 ^ 32 }
    requires word { word.now.start < 2 ^ 32 }
    ensures { IfOk result (λ expr. expr ≡ column (Some (lexeme_of qual.now), lexeme_of word.now)) }
{
    Ok(Expr::Col {
        qual: Some(tokens.name(alloc, qual)?),
        qual_at: place(qual),
        name: tokens.name(alloc, word)?,
        at: place(word),
    })
}
