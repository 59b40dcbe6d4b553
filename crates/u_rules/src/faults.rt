//! Why a rule's row gives no sides.
ghost use Rattle.std.specs.Prelude.{◌≡◌};
ghost use Rattle.u_rules.specs.Misfits.{why_of};

use crate::rule::Why;

/// What may be wrong with closed arguments of the right kinds.
#[derive(Clone, Copy)]
pub enum Misfit {
    ZeroCount,
    NoSuchTable,
    NoSuchKey,
    NoSuchFkey,
    WidthDiffers,
}

impl Misfit {
    pub fn why(self) -> Why
        ensures { result ≡ why_of self }
    {
        match self {
            Misfit::ZeroCount => Why::ZeroCount,
            Misfit::NoSuchTable => Why::NoSuchTable,
            Misfit::NoSuchKey => Why::NoSuchKey,
            Misfit::NoSuchFkey => Why::NoSuchFkey,
            Misfit::WidthDiffers => Why::WidthDiffers,
        }
    }
}

/// Why there is no row without a fault, the arguments' closedness aside.
#[derive(Clone, Copy)]
pub enum Unfit {
    /// There are more, fewer or other arguments than the rule takes.
    ArgKinds,
    Wrong(Misfit),
}
