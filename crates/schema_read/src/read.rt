//! Statements to a schema.
ghost use Rattle.std.specs.Prelude.{◌≤◌, length, IfOk, IfErr};
ghost use Rattle.data_model.specs.Lists.{Each};
ghost use Rattle.schema_read.specs.Declarations.{IsSmall};
ghost use Rattle.schema_read.specs.Builds.{Builds, schema_fault};
ghost use Rattle.schema_read.specs.Building.{no_statements, fault_from, built_from};
ghost use Rattle.schema_read.specs.Order.{Refuses};
ghost use Rattle.schema_read.specs.StatementLimits.{most_relations};
ghost use Rattle.schema_read.specs.Views.{Gives, seen_schema, shown};

use crate::builder::Builder;
use crate::fault::SchemaFault;
use plain_data::List;
use sql_model::{Schema, Statement};
use std::alloc::Global;

fn build_schema(alloc: Global, statements: &[Statement]) -> Result<Schema, SchemaFault>
    requires few { length statements.now ≤ most_relations }
    requires small { Each IsSmall statements.now }
    ensures { Gives seen_schema result (fault_from no_statements statements.now)
        (shown (built_from no_statements statements.now)) }
{
    let mut builder = Builder::new(alloc);
    for statement in statements {
        builder.add(alloc, statement)?;
    }
    let Builder {
        relations,
        fkeys,
        ..
    } = builder;
    Ok(Schema { relations, fkeys })
}

/// The schema that the statements declare (SQL, ISO/IEC 9075-2, 11.3; `CREATE INDEX` is not of that standard). The first rule
/// that a statement breaks is refused at its place.
pub fn read_schema(alloc: Global, statements: &List<Statement>) -> Result<Schema, SchemaFault>
    requires few { length statements.now ≤ most_relations }
    requires small { Each IsSmall statements.now }
    ensures built { IfOk result (Builds statements.now) }
    ensures refused { IfErr result (λ fault. Refuses fault (schema_fault statements.now)) }
{
    build_schema(alloc, statements.as_slice())
}
