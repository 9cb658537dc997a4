ghost use Rattle.std.specs.Prelude.{◌≡◌, IfOk};
ghost use Rattle.spec_shape.specs.Shapes.{Numbered, Combined};
ghost use Rattle.solid_expr.specs.Views.{shape_of};

use solid_expr::Solid;
use spec_solid::BoolOp;
use sqlite_items::Boxed;
use std::alloc::{AllocError, Global};

/// Two solids that an operator combines.
///
/// # Errors
///
/// Want of memory.
pub fn joined(
    alloc: Global,
    at: u64,
    operator: BoolOp,
    first: Solid,
    second: Solid,
) -> Result<Solid, AllocError>
    ensures { IfOk result (λ solid. shape_of solid ≡ Numbered at (Combined operator (shape_of first) (shape_of second))) }
{
    let first = Boxed::new(alloc, first)?;
    Ok(Solid::Combined {
        at,
        operator,
        first,
        second: Boxed::new(alloc, second)?,
    })
}
