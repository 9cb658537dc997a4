ghost use Rattle.std.specs.Prelude.{◌≡◌, not, map};
ghost use Rattle.std.specs.List.{find};
ghost use Rattle.spec_shape.specs.Shapes as shape;
ghost use Rattle.spec_grid.specs.Rounded.{if_bounded};
ghost use Rattle.solid_expr.specs.Views.{item_of};
ghost use Rattle.grid_round.specs.Views.{as_read};

use solid_expr::{Item, is_bounded};
use spec_refusal::Refusal;

/// Nothing, if each item is bounded.
pub fn bounded(items: &[Item]) -> Result<(), Refusal>
    ensures { as_read result ≡ if_bounded (find (λ i. not (shape.is_bounded i.shape)) (map item_of items.now)) }
{
    for item in items {
        if !is_bounded(&item.solid) {
            return Err(Refusal::Unbounded { at: item.at });
        }
    }
    Ok(())
}
