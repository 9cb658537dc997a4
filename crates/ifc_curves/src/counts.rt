ghost use Rattle.std.specs.Prelude.{◌≡◌, ◌≤◌, ◌^◌, IfOk};
ghost use Rattle.spec_geometry.specs.Profiles.{count_with, count_loop};

use ix_profile::Loop;
use spec_refusal::Refusal;

/// The count of triangles and half-spaces of an element, with so many more; it may have 4096 (a limit of this project).
///
/// # Errors
///
/// `ElementTooLarge` exactly where it has more.
pub fn count_with(count: u128, more: u128) -> Result<u128, Refusal>
    requires count { count ≤ 4096 }
    requires more { more ≤ 2 ^ 70 }
    ensures value { result ≡ count_with count more }
    ensures few { IfOk result (λ reached. reached ≤ 4096) }
{
    let reached = count + more;
    if reached > 4096 {
        return Err(Refusal::ElementTooLarge { triangles: reached });
    }
    Ok(reached)
}

/// The count with six triangles more for each edge of a loop that is swept.
///
/// # Errors
///
/// `ElementTooLarge` exactly where the element has more than 4096.
pub fn count_loop(count: u128, swept: &Loop) -> Result<u128, Refusal>
    requires { count ≤ 4096 }
    ensures value { result ≡ count_loop count swept.now }
    ensures few { IfOk result (λ reached. reached ≤ 4096) }
{
    count_with(count, 6 * swept.len() as u128)
}
