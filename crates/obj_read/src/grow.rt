ghost use Rattle.std.specs.Prelude.{◌≡◌, ◌+◌, ◌<◌, ◌^◌, ◌++◌, [], ◌∷◌, map, vec_len, IfOk};
ghost use Rattle.spec_page.specs.Items.{Printed, Skipped, Refused};
ghost use Rattle.obj_file.specs.Items.{element_of};
ghost use Rattle.plane_core.specs.Views.{point_of};
ghost use Rattle.exact_mesh.specs.Meshes.{numbered_plane, vector_of, face_of};
ghost use Rattle.obj_read.specs.States.{bare_element, with_corner, with_face, with_volume};
ghost use Rattle.obj_read.specs.Readers.{items_in, element_in};

use crate::parts::{Block, Outline, Page};
use exact_mesh::MeshFace;
use ix_place::Frame;
use obj_file::{ObjElement, ObjItem};
use plane_core::Corner;
use spec_refusal::Refusal;
use std::alloc::{AllocError, Global};

impl Page {
    /// The page of this grid without items.
    pub(crate) fn new(alloc: Global, grid: u32) -> Page
        ensures { (result.grid ≡ grid) × (items_in result ≡ []) }
    {
        Page {
            grid,
            items: Vec::new(alloc),
            before: 0,
        }
    }

    /// The page with an element behind it that has no body.
    pub(crate) fn with_skipped(self, number: u64) -> Result<Page, AllocError>
        ensures { IfOk result (λ p. (p.grid ≡ self.grid) × (items_in p ≡ items_in self ++ Skipped number ∷ [])) }
    {
        let Page {
            grid,
            mut items,
            before,
        } = self;
        items.push(ObjItem::Skipped(number))?;
        Ok(Page {
            grid,
            items,
            before,
        })
    }

    /// The page with an element behind it that is refused.
    pub(crate) fn with_refused(self, number: u64, why: Refusal) -> Result<Page, AllocError>
        ensures { IfOk result (λ p. (p.grid ≡ self.grid) × (items_in p ≡ items_in self ++ Refused number why ∷ [])) }
    {
        let Page {
            grid,
            mut items,
            before,
        } = self;
        items.push(ObjItem::Refused(number, why))?;
        Ok(Page {
            grid,
            items,
            before,
        })
    }

    /// The page with an element behind it.
    pub(crate) fn with_element(self, block: Block, six: Option<i128>) -> Result<Page, AllocError>
        requires { self.before + vec_len block.corners < 2 ^ 64 }
        ensures { IfOk result (λ p. (p.grid ≡ self.grid) × (items_in p ≡ items_in self ++ Printed (with_volume (element_in block) six) ∷ [])) }
    {
        let Page {
            grid,
            mut items,
            before,
        } = self;
        let after = before + block.corners.len();
        items.push(ObjItem::Printed(block.element(six, before)))?;
        Ok(Page {
            grid,
            items,
            before: after,
        })
    }
}

impl Block {
    /// The element without corners and faces.
    pub(crate) fn new(alloc: Global, number: u64, frame: Frame) -> Block
        ensures { element_in result ≡ bare_element number frame }
    {
        Block {
            number,
            frame,
            corners: Vec::new(alloc),
            printed: Vec::new(alloc),
            faces: Vec::new(alloc),
        }
    }

    /// The element with a corner more.
    pub(crate) fn with_corner(self, corner: Corner, place: [i128; 3]) -> Result<Block, AllocError>
        ensures { IfOk result (λ b. element_in b ≡ with_corner (element_in self) (point_of corner) (vector_of place)) }
    {
        let Block {
            number,
            frame,
            mut corners,
            mut printed,
            faces,
        } = self;
        corners.push(corner)?;
        printed.push(place)?;
        Ok(Block {
            number,
            frame,
            corners,
            printed,
            faces,
        })
    }

    /// The element with a face more.
    pub(crate) fn with_face(self, face: MeshFace) -> Result<Block, AllocError>
        ensures { IfOk result (λ b. element_in b ≡ with_face (element_in self) (face_of face)) }
    {
        let Block {
            number,
            frame,
            corners,
            printed,
            mut faces,
        } = self;
        faces.push(face)?;
        Ok(Block {
            number,
            frame,
            corners,
            printed,
            faces,
        })
    }

    /// The whole element, where so many corners stand before it.
    fn element(self, six: Option<i128>, before: usize) -> ObjElement
        ensures parts { element_of result ≡ with_volume (element_in self) six }
        ensures before { result.before ≡ before }
        ensures corners { result.corners ≡ self.corners }
    {
        let Block {
            number,
            frame,
            corners,
            printed,
            faces,
        } = self;
        ObjElement {
            number,
            frame,
            corners,
            printed,
            faces,
            six,
            before,
        }
    }
}

impl Outline {
    /// The face with an edge more.
    pub(crate) fn with_edge(self, edge: [i128; 4]) -> Result<Outline, AllocError>
        ensures { IfOk result (λ o. (o.plane ≡ self.plane) × (o.edges.items ≡ self.edges.items ++ edge ∷ [])) }
    {
        let Outline { plane, mut edges } = self;
        edges.push(edge)?;
        Ok(Outline { plane, edges })
    }
}
