//! Steps the other way.
ghost use Rattle.std.specs.Prelude.{◌≡◌, map};
ghost use Rattle.u_moves.specs.Turning.{flipped, turned_back};

use u_deriv::Step;

/// Turns each step, and puts the last one first. Takes no memory.
pub fn turn_back(steps: &mut [Step])
    ensures { steps.new ≡ turned_back steps.old }
{
    steps.reverse();
    flip_all(steps);
}

fn flip_all(steps: &mut [Step])
    ensures { steps.new ≡ map flipped steps.old }
{
    for step in steps.iter_mut() {
        flip(step);
    }
}

fn flip(step: &mut Step)
    ensures { step.new ≡ flipped step.old }
{
    step.forward = !step.forward;
}
