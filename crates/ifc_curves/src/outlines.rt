ghost use Rattle.std.specs.Prelude.{◌≡◌, ◌≤◌, ◌^◌, ◌∷◌, ◌++◌, [], length, All, IfOk};
ghost use Rattle.spec_place.specs.Vectors.{IsWithin};
ghost use Rattle.ix_profile.specs.Outlines.{IsOutline};

use ix_profile::{Loop, Loops};
use std::alloc::{AllocError, Global};

/// Loops of which there is one.
///
/// # Errors
///
/// Want of memory.
pub fn one_loop(alloc: Global, outer: Loop) -> Result<Loops, AllocError>
    requires long { 3 ≤ length outer }
    requires within { All (IsWithin (10 ^ 16)) outer }
    ensures value { IfOk result (λ loops. loops ≡ outer ∷ []) }
    ensures outline { IfOk result (IsOutline (10 ^ 16)) }
{
    let mut loops = Loops::new(alloc);
    loops.push(outer)?;
    Ok(loops)
}

/// Loops with one more behind them.
///
/// # Errors
///
/// Want of memory.
pub fn with_loop(loops: Loops, added: Loop) -> Result<Loops, AllocError>
    requires outline { IsOutline (10 ^ 16) loops }
    requires long { 3 ≤ length added }
    requires within { All (IsWithin (10 ^ 16)) added }
    ensures value { IfOk result (λ all. all ≡ loops ++ added ∷ []) }
    ensures outline { IfOk result (IsOutline (10 ^ 16)) }
{
    let mut all = loops;
    all.push(added)?;
    Ok(all)
}
