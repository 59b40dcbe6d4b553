//! The whole way from a text to a case.
ghost use Rattle.std.specs.Prelude.{◌≡◌, ◌≤◌, ℕ, List, length, IfErr, IfOk, OnOk};
ghost use Rattle.data_model.specs.Lists.{Each};
ghost use Rattle.sql_cursor.specs.Cursor.{most_bytes, numbers_of};
ghost use Rattle.schema_read.specs.Declarations.{IsSmall};
ghost use Rattle.schema_read.specs.StatementLimits.{most_relations};
ghost use Rattle.scope_core.specs.Fitting.{FitsViews};
ghost use Rattle.scope_core.specs.Width.{width};
ghost use Rattle.sql_grammar.specs.Numbering.{Numbers};
ghost use Rattle.sql_model.specs.declared.symbols.Symbols.{Symbols as TheSymbols};
ghost use Rattle.case_core.specs.Answer.{IsCase, IsRefused};
ghost use Rattle.case_core.specs.Cases.{IsRead};

use crate::case::Case;
use crate::facts::facts_of;
use crate::fault::CaseFault;
use crate::text::{CaseText, read_text};
use plain_data::Kept;
use schema_read::read_schema;
use scope_core::{Resolved, Views, resolve, resolve_views};
use sql_model::Schema;
use std::alloc::Global;
use u_terms::Facts;

/// Reads a case. The first fault is told: of the text, then of the statements, then of the views and the two queries, and last that
/// the queries have two widths.
pub fn read_case(alloc: Global, bytes: &[u8]) -> Result<Case, CaseFault>
    requires { length bytes.now ≤ most_bytes }
    ensures read { IfOk result (λ case. IsCase bytes.now case) }
    ensures refused { IfErr result (λ fault. IsRefused bytes.now fault) }
{
    let (text, symbols) = read_text(alloc, bytes)?;
    let resolved = resolve_text(alloc, &text)?;
    let queries = (resolved.left, resolved.right);
    Ok(Case::new(
        resolved.schema,
        resolved.views,
        resolved.facts,
        queries,
        symbols,
    ))
}

/// A case but for its symbols: the schema that the statements build, and the queries over it.
#[derive(Drop)]
struct ResolvedText {
    schema: Schema,
    views: Views,
    facts: Facts,
    left: Resolved,
    right: Resolved,
}

/// Builds the schema, and resolves the views and then the queries over it, where the queries have one width.
fn resolve_text(alloc: Global, text: &CaseText) -> Result<ResolvedText, CaseFault>
    requires few { length text.now.statements ≤ most_relations }
    requires small { Each IsSmall text.now.statements }
    ensures read { IfOk result (λ r. (symbols : TheSymbols) (bytes : List ℕ) → IsRead bytes text.now (numbers_of symbols)
        → IsCase bytes (record { schema = r.schema; views = r.views; facts = r.facts; left = r.left; right = r.right; symbols = symbols })) }
    ensures one_width { IfOk result (λ r. width r.left ≡ width r.right) }
    ensures left { IfOk result (λ r. FitsViews r.views r.left) }
    ensures right { IfOk result (λ r. FitsViews r.views r.right) }
    ensures refused { IfErr result (λ fault. (bytes : List ℕ) (numbers : Numbers) → IsRead bytes text.now numbers → IsRefused bytes fault) }
{
    let schema = Kept::new(read_schema(alloc, &text.statements)?);
    let views = Kept::new(resolve_views(alloc, schema.get())?);
    let left = Kept::new(resolve(alloc, schema.get(), views.get(), &text.left)?);
    let right = Kept::new(resolve(alloc, schema.get(), views.get(), &text.right)?);
    expect_one_width(left.get(), right.get())?;
    let facts = facts_of(alloc, schema.get())?;
    Ok(ResolvedText {
        schema: schema.into_inner(),
        views: views.into_inner(),
        facts,
        left: left.into_inner(),
        right: right.into_inner(),
    })
}

/// That the two queries have as many columns.
fn expect_one_width(left: &Resolved, right: &Resolved) -> Result<(), CaseFault>
    ensures same { OnOk result (width left.now ≡ width right.now) }
    ensures differ { IfErr result (λ fault. (fault ≡ CaseFault.QueriesDiffer (width left.now) (width right.now)) × (width left.now ≡ width right.now → ⊥)) }
{
    let (left, right) = (left.width(), right.width());
    if left != right {
        return Err(CaseFault::QueriesDiffer { left, right });
    }
    Ok(())
}
