ghost use Rattle.std.specs.Prelude.{◌≡◌, length, map};
ghost use Rattle.std.specs.List.{sum_by};
ghost use Rattle.spec_page.specs.Items.{corner_count};
ghost use Rattle.obj_file.specs.Items.{item_of};
ghost use Rattle.obj_file.specs.Files.{AreCounted};
ghost use Rattle.obj_read.specs.Counted.{AreCounted-prop};

use exact_mesh::MeshFace;
use ix_place::Frame;
use obj_file::ObjItem;
use plane_core::Corner;

/// A page so far.
#[derive(Drop)]
pub(crate) struct Page {
    /// The grid step in micrometres.
    pub(crate) grid: u32,
    /// The whole items.
    pub(crate) items: Vec<ObjItem>,
    /// The number of their corners.
    pub(crate) before: usize,
    pub(crate) ghost counted: { AreCounted 0 items.items } by { AreCounted-prop 0 items.items },
    pub(crate) ghost summed: { before ≡ sum_by corner_count (map item_of items.items) },
}

/// An element so far.
#[derive(Drop)]
pub(crate) struct Block {
    pub(crate) number: u64,
    pub(crate) frame: Frame,
    pub(crate) corners: Vec<Corner>,
    pub(crate) printed: Vec<[i128; 3]>,
    pub(crate) faces: Vec<MeshFace>,
    pub(crate) ghost paired: { length printed.items ≡ length corners.items },
}

/// A face whose corners are not read yet.
#[derive(Drop)]
pub(crate) struct Outline {
    pub(crate) plane: [i128; 4],
    pub(crate) edges: Vec<[i128; 4]>,
}
