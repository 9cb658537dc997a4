ghost use Rattle.std.specs.Prelude.{◌<◌, length};

use plane_cells::Step;
use smallvec::SmallVec;

/// The points strictly on the kept side of each of some planes, of which there is at least one.
#[derive(Drop)]
pub struct Region {
    pub sides: SmallVec<Step, 4>,
    pub ghost some: { 0 < length sides.items },
}
