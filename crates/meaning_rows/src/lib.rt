//! What queries mean, computed on trees that are written out: operators, predicates, called names, conditions and joins. `specs/` has the
//! samples; a wrong definition stops the check. The crate has nothing else.
#![tactic(auto)]
