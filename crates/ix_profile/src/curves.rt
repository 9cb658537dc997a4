ghost use Rattle.std.specs.Prelude.{◌≡◌, map, All, IfOk, IfErr, if◌then◌else◌};
ghost use Rattle.spec_shape.specs.Loops.{open_loop};
ghost use Rattle.ix_profile.specs.Curves.{makes_loop, MakesLoop, HasCause};

use crate::fault::LoopFault;
use crate::loops::{Loop, Loops};
use std::alloc::{AllocError, Global};

/// The loop of a curve, in memory of its own.
fn opened(alloc: Global, curve: &Loop) -> Result<Option<Loop>, AllocError>
    ensures { IfOk result (λ found. found ≡ (if makes_loop curve.now then Some (open_loop curve.now) else None)) }
{
    let points = Vec::from_slice(alloc, curve.points())?;
    Ok(Loop::of_curve(points))
}

impl Loops {
    /// The loops of closed curves: of each a last point that equals the first is dropped.
    ///
    /// # Errors
    ///
    /// `DegenerateLoop` exactly for the first curve with fewer than three different points, if there is one, and `NoMemory`
    /// for want of memory.
    pub fn of_curves(alloc: Global, curves: &[Loop]) -> Result<Loops, LoopFault>
        ensures value { IfOk result (λ loops. loops ≡ map open_loop curves.now) }
        ensures all { IfOk result (λ _. All MakesLoop curves.now) }
        ensures cause { IfErr result (HasCause curves.now) }
    {
        let mut loops = Loops::new(alloc);
        for which in 0..curves.len() {
            let Some(found) = opened(alloc, &curves[which])? else {
                return Err(LoopFault::DegenerateLoop { which });
            };
            loops.push(found)?;
        }
        Ok(loops)
    }
}
