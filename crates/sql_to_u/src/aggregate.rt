//! The aggregates, as terms have them.
ghost use Rattle.std.specs.Prelude.{◌≡◌};
ghost use Rattle.sql_model.specs.Aggregates.{counts_rows, number_of};

use sql_model::AggFun;

/// Whether an aggregate is of the rows and not of its argument.
pub fn counts_rows(fun: AggFun, distinct: bool) -> bool
    ensures { result ≡ counts_rows fun distinct }
{
    match fun {
        AggFun::Count => !distinct,
        AggFun::Sum => false,
        AggFun::Avg => false,
        AggFun::Min => false,
        AggFun::Max => false,
    }
}

/// The number of an aggregate.
pub fn number_of(fun: AggFun) -> u32
    ensures { result ≡ number_of fun }
{
    match fun {
        AggFun::Count => 0,
        AggFun::Sum => 1,
        AggFun::Avg => 2,
        AggFun::Min => 3,
        AggFun::Max => 4,
    }
}
