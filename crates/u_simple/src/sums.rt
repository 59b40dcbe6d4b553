//! The sums over all values that a term begins with.
ghost use Rattle.std.specs.Prelude.{◌≡◌, ◌+◌, ◌≤◌, MatchOption};
ghost use Rattle.u_terms.specs.Binding.{sums};
ghost use Rattle.u_simple.specs.Sums.{HasAllSums, HasSums};

use u_terms::U;

/// How many sums over all values a term begins with. None where these are more than the most.
pub fn sums_of(u: &U, most: u32) -> Option<u32>
    ensures { MatchOption result (HasSums (most + 1) u.now) (λ count. HasAllSums count u.now × count ≤ most) }
{
    match u {
        U::Sum(f) => match most.checked_sub(1) {
            Some(left) => Some(sums_of(f.get(), left)? + 1),
            None => None,
        },
        _ => Some(0),
    }
}

/// What stands inside so many sums.
pub fn inside_sums(u: &U, count: u32) -> &U
    requires { HasSums count u.now }
    ensures { u.now ≡ sums count result.now }
{
    match u {
        U::Sum(f) if count > 0 => inside_sums(f.get(), count - 1),
        _ => u,
    }
}
