ghost use Rattle.std.specs.Prelude.{◌≡◌, length, All};
ghost use Rattle.world_print.specs.Ranges.{IsStep, IsPrintable, HasItsCorners};

use exact_mesh::ExactMesh;
use ifc_kinds::Kind;
use ix_place::Frame;

/// The mesh of an element, ready to be written.
#[derive(Drop)]
pub struct ElementMesh {
    /// The number of the element's instance in its file.
    pub number: u64,
    /// What the element is.
    pub kind: Kind,
    /// The world frame of the element.
    pub frame: Frame,
    /// The grid step in micrometres, from 1 to 10,000.
    pub step: u32,
    /// The exact corners in grid steps in the element's frame, and the faces. Each corner of each face is one of them.
    pub mesh: ExactMesh,
    /// For each exact corner its place in the world in whole micrometres. No coordinate has a size above 10^14.
    pub printed: Vec<[i128; 3]>,
    /// The sixfold volume of the printed mesh in cubic micrometres; `None` where it passes 128 bits.
    pub six: Option<i128>,
    pub ghost step_range: { IsStep step },
    pub ghost paired: { length printed.items ≡ length mesh.corners.items },
    pub ghost printable: { All IsPrintable printed.items },
    pub ghost places: { HasItsCorners mesh },
}
