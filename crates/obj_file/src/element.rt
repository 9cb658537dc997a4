ghost use Rattle.std.specs.Prelude.{◌≡◌, length};

use exact_mesh::MeshFace;
use ix_place::Frame;
use plane_core::Corner;

/// An element of a page.
#[derive(Drop)]
pub struct ObjElement {
    /// The number of the element's instance in its file.
    pub number: u64,
    /// The world frame of the element.
    pub frame: Frame,
    /// The exact corners in grid steps in the element's frame.
    pub corners: Vec<Corner>,
    /// For each exact corner its place in the world in whole micrometres.
    pub printed: Vec<[i128; 3]>,
    /// The faces; they name corners by their places in the element, from 0.
    pub faces: Vec<MeshFace>,
    /// The sixfold volume in cubic micrometres, as the page tells it; `None` where it tells none.
    pub six: Option<i128>,
    /// The number of corners of the elements before it on the page.
    pub before: usize,
    pub ghost paired: { length printed.items ≡ length corners.items },
}
