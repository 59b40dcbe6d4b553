ghost use Rattle.std.specs.Prelude.{◌≡◌, ◌+◌, ◌^◌, ◌<◌};
ghost use Rattle.u_deriv.specs.Walk as walk;

/// Where a path ends in a term.
#[derive(Clone, Copy, Debug, PartialEq, Eq)]
pub struct Place {
    /// How many binders there are on the path.
    pub binders: u32,
    /// How many turns it takes: so many nodes stand above the place on the way to it.
    pub turns: u32,
}

impl Place {
    /// The root of a term.
    pub(crate) fn root() -> Place
        ensures { result ≡ walk.root }
    {
        Place {
            binders: 0,
            turns: 0,
        }
    }

    /// One turn further, into a part that no binder stands before.
    pub(crate) fn next(self) -> Place
        requires fits { self.turns + 1 < 2 ^ 32 }
        ensures { result ≡ walk.next self }
    {
        Place {
            binders: self.binders,
            turns: self.turns + 1,
        }
    }

    /// One turn further, under a binder.
    pub(crate) fn under(self) -> Place
        requires fits { self.turns + 1 < 2 ^ 32 }
        requires bound { self.binders + 1 < 2 ^ 32 }
        ensures { result ≡ walk.under self }
    {
        Place {
            binders: self.binders + 1,
            turns: self.turns + 1,
        }
    }
}
