//! A closed term written in the place of another one, under names for the binders on the path.
ghost use Rattle.std.specs.Prelude.{◌+◌, ◌<◌, ◌^◌};
ghost use Rattle.u_terms.specs.Size.{depth};
ghost use Rattle.u_deriv.specs.Applying.{HasRoomAt, Replaces};

use crate::edit::{Edit, edit_at};
use crate::fault::StepFault;
use crate::path::Path;
use crate::place::Place;
use crate::way::Way;
use u_terms::U;

/// Where the subterm at the end of the path is `from` after the names from `outs` on are closed in it, one for each binder on
/// the path and the first for the outermost one, writes `to` in its place, closed by the same names. Else there is no
/// result, and the term is as before. In a closed term with names below `outs` alone, and for a closed `from`, that is where
/// the subterm opened by these names is `from` (`laws::opening_a_path`). Takes no memory.
pub fn replace(outs: u32, u: &mut U, path: &Path, from: &U, to: U) -> Result<(), StepFault>
    requires shallow { outs + depth u.old < 2 ^ 32 }
    requires room { HasRoomAt outs path.now u.old to }
    ensures { Replaces outs path.now u.old from.now to u.new result }
{
    let mut other = to;
    match edit_at(
        u,
        Way::along(path),
        Place::root(),
        outs,
        &Edit::Term { from, names: 0 },
        &mut other,
    ) {
        Ok(_) => Ok(()),
        Err(fault) => Err(fault),
    }
}
