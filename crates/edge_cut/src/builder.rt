ghost use Rattle.std.specs.Prelude.{◌≡◌, ◌<◌, ◌++◌, ◌∷◌, [], Some, length, map, slice_get, All, IfOk, OnOk, OnErr};
ghost use Rattle.spec_page.specs.Element.{Face};
ghost use Rattle.plane_core.specs.Views.{plane_of};
ghost use Rattle.corner_book.specs.Corners.{AreDistinct, corners_of as book_corners, IsMadeWith};
ghost use Rattle.exact_mesh.specs.Meshes.{face_of, numbered_plane};
ghost use Rattle.exact_mesh.specs.Order.{NamesNext, AreInFirstUse};
ghost use Rattle.poly_frag.specs.Frags.{kept_side};
ghost use Rattle.edge_cut.specs.Seen.{AreAt, outer_side, edges_seen, corners_seen};
ghost use Rattle.edge_cut.specs.Lines.{AreLines};
ghost use Rattle.edge_cut.specs.Outlines.{IsOfBook};
ghost use Rattle.edge_cut.specs.Rounds.{corners_of, faces_of, IsFaceOf, IsGrown};

use crate::lines::Lines;
use crate::round::{Round, cut_round};
use crate::sides::Outline;
use corner_book::CornerBook;
use exact_mesh::{ExactMesh, MeshFace};
use indexmap::IndexSet;
use plane_core::{Corner, Plane, PlaneBook};
use poly_frag::Edge;
use std::alloc::{AllocError, Global};

/// The four numbers of a plane with its normal outwards, where its front is outside, or its back.
fn outward_numbers(plane: &Plane, front_out: bool) -> [i128; 4]
    ensures { numbered_plane result ≡ kept_side front_out (plane_of plane.now) }
{
    if front_out {
        [plane.a, plane.b, plane.c, plane.d]
    } else {
        [-plane.a, -plane.b, -plane.c, -plane.d]
    }
}

/// For each edge the plane through it, with its normal out of the piece. The error is want of memory.
fn outer_planes(
    alloc: Global,
    book: &PlaneBook,
    edges: &[Edge],
) -> Result<Vec<[i128; 4]>, AllocError>
    requires given { All (λ e. e.plane.k < length book.now) edges.now }
    ensures { IfOk result (λ planes. map numbered_plane planes.items ≡ map (outer_side book.now) edges.now) }
{
    let mut planes = Vec::new(alloc);
    for edge in edges {
        planes.push(outward_numbers(book.plane(edge.plane), !edge.keep_front))?;
    }
    Ok(planes)
}

/// The round the other way, where the back of the piece's plane is outside: edge j then goes from corner j + 1 to corner j.
fn turn(round: &mut Round, front_out: bool)
    ensures edges { round.new.edges.items ≡ edges_seen front_out round.old.edges.items }
    ensures corners { round.new.corners.items ≡ corners_seen front_out round.old.corners.items }
{
    if front_out {
        return;
    }
    round.corners.reverse();
    round.edges.reverse();
    if !round.edges.is_empty() {
        round.edges.rotate_left(1);
    }
}

/// A mesh in the making: its faces in the order in which they are added, and their corners in the order of their first use,
/// each once (a rule of this project).
#[derive(Drop)]
pub(crate) struct MeshBuilder {
    corners: IndexSet<Corner>,
    faces: Vec<MeshFace>,
}

impl MeshBuilder {
    /// A mesh with no faces.
    pub(crate) fn new(alloc: Global) -> MeshBuilder
        ensures corners { corners_of result ≡ [] }
        ensures faces { faces_of result ≡ [] }
    {
        MeshBuilder {
            corners: IndexSet::new(alloc),
            faces: Vec::new(alloc),
        }
    }

    /// Adds the piece as a face, seen from outside and cut at every corner of the book on its edges. The error is want of
    /// memory.
    pub(crate) fn add_face(
        &mut self,
        alloc: Global,
        book: &PlaneBook,
        corners: &CornerBook,
        lines: &mut Lines,
        outline: &Outline,
    ) -> Result<(), AllocError>
        requires made { IsMadeWith book.now corners.now }
        requires lines { AreLines book.now (book_corners corners.now) lines.old }
        requires given { IsOfBook book.now outline.now }
        ensures face { OnOk result ((face : Face) × (faces_of self.new ≡ faces_of self.old ++ face ∷ []) × IsFaceOf book.now (book_corners corners.now) (corners_of self.new) outline.now face) }
        ensures lines { OnOk result (AreLines book.now (book_corners corners.now) lines.new) }
        ensures grown { IsGrown (corners_of self.old) (corners_of self.new) }
        ensures order { OnOk result (AreInFirstUse (corners_of self.old) (faces_of self.old) → AreInFirstUse (corners_of self.new) (faces_of self.new)) }
    {
        let plane = outward_numbers(book.plane(outline.support), outline.front_out);
        let mut round = cut_round(alloc, book, corners, lines, outline)?;
        turn(&mut round, outline.front_out);
        let edges = outer_planes(alloc, book, &round.edges)?;
        let places = self.places(alloc, &round.corners)?;
        let face = MeshFace {
            plane,
            edges,
            corners: places,
        };
        self.faces.push(face)?;
        Ok(())
    }

    /// The places of the corners, which get one at the end where they have none.
    fn places(&mut self, alloc: Global, around: &[Corner]) -> Result<Vec<usize>, AllocError>
        ensures at { IfOk result (λ places. AreAt (corners_of self.new) places.items around.now) }
        ensures grown { IsGrown (corners_of self.old) (corners_of self.new) }
        ensures next { IfOk result (λ places. NamesNext (length (corners_of self.old)) places.items (length (corners_of self.new))) }
        ensures faces { self.new.faces ≡ self.old.faces }
    {
        let mut places = Vec::new(alloc);
        for corner in around {
            places.push(self.place(*corner)?)?;
        }
        Ok(places)
    }

    /// The place of the corner: the one that it has, or else a new one at the end.
    fn place(&mut self, corner: Corner) -> Result<usize, AllocError>
        ensures at { IfOk result (λ place. slice_get (corners_of self.new) place ≡ Some corner) }
        ensures grown { IsGrown (corners_of self.old) (corners_of self.new) }
        ensures next { IfOk result (λ place. NamesNext (length (corners_of self.old)) (place ∷ []) (length (corners_of self.new))) }
        ensures faces { self.new.faces ≡ self.old.faces }
    {
        let (place, _) = self.corners.insert_full(corner)?;
        Ok(place)
    }

    /// The mesh of the faces that were added. The error is want of memory.
    pub(crate) fn finish(self, alloc: Global) -> Result<ExactMesh, AllocError>
        ensures corners { IfOk result (λ mesh. mesh.corners.items ≡ corners_of self) }
        ensures faces { IfOk result (λ mesh. map face_of mesh.faces.items ≡ faces_of self) }
        ensures distinct { IfOk result (λ mesh. AreDistinct mesh.corners.items) }
    {
        let corners = Vec::from_slice(alloc, self.corners.as_slice())?;
        Ok(ExactMesh {
            corners,
            faces: self.faces,
        })
    }
}
