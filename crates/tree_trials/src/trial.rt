ghost use Rattle.std.specs.Prelude.{◌≡◌, ◌≤◌, All, IfOk, sum_by};
ghost use Rattle.spec_shape.specs.Shapes.{face_count, count_triangles, element_count};
ghost use Rattle.solid_expr.specs.Views.{shape_of, element_of};
ghost use Rattle.grid_solid.specs.Bodies.{body_of};
ghost use Rattle.grid_solid.specs.Counts.{body_plane_count};
ghost use Rattle.tree_pool.specs.Pools.{IsLive};
ghost use Rattle.tree_trials.specs.Faces.{IsSmall};

use crate::books::point;
use grid_round::round_solid;
use grid_solid::GridSolid;
use ix_place::{Frame, Map};
use plane_core::PlaneBook;
use solid_expr::{ElementSolid, Face, Item, Solid};
use solid_tree::solid_tree;
use std::alloc::{AllocError, Global};
use std::test::Fail;
use tree_pool::{Pool, TreeId, value_at};

/// The tree of an element, with the book of its planes and its pool.
#[derive(Drop)]
pub(crate) struct Trial {
    book: PlaneBook,
    pool: Pool,
    tree: TreeId,
    ghost live: { IsLive pool tree },
}

/// The shell of some faces.
fn shell(faces: Vec<Face>) -> Solid
    ensures { count_triangles (shape_of result) ≡ sum_by face_count faces.items }
{
    Solid::Faces {
        at: 7,
        map: Map::of_frame(&Frame::identity()),
        faces,
    }
}

/// An element of one item.
fn element(alloc: Global, solid: Solid) -> Result<ElementSolid, AllocError>
    ensures { IfOk result (λ e. element_count (element_of e) ≡ count_triangles (shape_of solid)) }
{
    let mut items = Vec::new(alloc);
    items.push(Item { at: 1, solid })?;
    Ok(ElementSolid {
        number: 3,
        items,
        openings: Vec::new(alloc),
        frame: Frame::identity(),
    })
}

/// The element of the shell of some faces, on a grid with steps of a micrometre.
fn rounded(alloc: Global, faces: Vec<Face>) -> Result<GridSolid, Fail>
    requires { All IsSmall faces.items }
    ensures { IfOk result (λ s. body_plane_count (body_of s) ≤ 3200) }
{
    if faces.len() > 100 {
        return Err(Fail::from("a trial has at most a hundred faces"));
    }
    let element = element(alloc, shell(faces))?;
    Ok(round_solid(alloc, &element, 1)?)
}

impl Trial {
    /// The tree of the shell of some faces, on a grid with steps of a micrometre.
    pub(crate) fn of_faces(alloc: Global, faces: Vec<Face>) -> Result<Trial, Fail>
        requires { All IsSmall faces.items }
    {
        let solid = rounded(alloc, faces)?;
        let mut book = PlaneBook::new(alloc)?;
        let mut pool = Pool::new(alloc)?;
        let tree = solid_tree(alloc, &mut book, &mut pool, &solid, &[])?;
        Ok(Trial { book, pool, tree })
    }

    /// Whether the point of so many eighths of a grid step is inside, or `None` on a plane.
    pub(crate) fn is_inside(&self, x: u32, y: u32, z: u32) -> Option<bool> {
        let place = [i64::from(x), i64::from(y), i64::from(z)];
        value_at(&self.pool, self.tree, &self.book, &point(place, 8)?)
    }
}
