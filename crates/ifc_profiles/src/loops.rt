ghost use Rattle.std.specs.Prelude.{◌≡◌, ◌≤◌, ◌^◌, ◌*◌, IfOk};
ghost use Rattle.spec_geometry.specs.Profiles.{count_loops, placed_by, profile_loops};
ghost use Rattle.ix_profile.specs.Outlines.{IsOutline};

use ifc_axes::PlaneAxes;
use ifc_curves::count_loop;
use ix_profile::{Loop, Loops};
use spec_refusal::Refusal;

/// The count with six triangles more for each edge of some loops.
fn count_loops(count: u128, loops: &[Loop]) -> Result<u128, Refusal>
    requires { count ≤ 4096 }
    ensures value { result ≡ count_loops count loops.now }
    ensures few { IfOk result (λ reached. reached ≤ 4096) }
{
    let mut reached = count;
    for l in loops {
        reached = count_loop(reached, l)?;
    }
    Ok(reached)
}

/// Loops where they stand in axes in their plane, if there are any.
fn placed_by(position: Option<PlaneAxes>, loops: Loops) -> Loops
    requires { IsOutline (10 ^ 16) loops }
    ensures value { result ≡ placed_by position loops }
    ensures outline { IsOutline (3 * 10 ^ 16) result }
{
    match position {
        Some(axes) => loops.placed(&axes.at, axes.ref_dir),
        None => loops,
    }
}

/// The loops of a profile by its measures, counted and then placed.
pub fn profile_loops(
    count: u128,
    position: Option<PlaneAxes>,
    loops: Loops,
) -> Result<(Loops, u128), Refusal>
    requires count { count ≤ 4096 }
    requires outline { IsOutline (10 ^ 16) loops }
    ensures value { result ≡ profile_loops count position loops }
    ensures outline { IfOk result (λ read. IsOutline (3 * 10 ^ 16) read.0) }
    ensures few { IfOk result (λ read. read.1 ≤ 4096) }
{
    let reached = count_loops(count, loops.as_slice())?;
    Ok((placed_by(position, loops), reached))
}
