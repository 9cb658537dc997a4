ghost use Rattle.std.specs.Prelude.{◌≡◌, ℕ, ◌≤◌, ◌<◌, ◌+◌, ◌*◌, ◌^◌, [], length, OnOk};
ghost use Rattle.world_print.specs.Elements.{element_of};
ghost use Rattle.ix_page.specs.Made.{item_of};
ghost use Rattle.ix_page.specs.Counts.{IsTallyOf, Counts};

use crate::element::Made;
use crate::tally::Tally;
use obj_text::write_refused;
use spec_refusal::Refusal;
use std::alloc::{AllocError, Global};
use world_print::ElementMesh;

/// How many corners and faces an element has on the page.
fn corner_and_face_count(mesh: &ElementMesh) -> (usize, usize)
    ensures corners { result.0 ≡ length (element_of mesh.now).corners }
    ensures faces { result.1 ≡ length (element_of mesh.now).faces }
{
    (mesh.mesh.corners.len(), mesh.mesh.faces.len())
}

impl Tally {
    /// The tally of a page without elements.
    pub fn new(alloc: Global) -> Tally
        ensures none { result.elements ≡ 0 }
        ensures empty { IsTallyOf result [] }
    {
        Tally {
            elements: 0,
            converted: 0,
            skipped: 0,
            refused: 0,
            corners: 0,
            faces: 0,
            refused_lines: Vec::new(alloc),
        }
    }

    fn count_skipped(&mut self, number: u64)
        requires { self.old.elements < 2 ^ 60 }
        ensures counts { Counts self.old (item_of number Made.Nothing) self.new }
        ensures one { self.new.elements ≡ self.old.elements + 1 }
    {
        self.elements += 1;
        self.skipped += 1;
    }

    fn count_refused(&mut self, number: u64, refusal: &Refusal) -> Result<(), AllocError>
        requires { self.old.elements < 2 ^ 60 }
        ensures counts { OnOk result (Counts self.old (item_of number (Made.Refusal refusal.now)) self.new) }
        ensures one { OnOk result (self.new.elements ≡ self.old.elements + 1) }
    {
        write_refused(&mut self.refused_lines, number, refusal)?;
        self.elements += 1;
        self.refused += 1;
        Ok(())
    }

    fn count_mesh(&mut self, number: u64, mesh: &ElementMesh)
        requires { self.old.elements < 2 ^ 60 }
        ensures counts { Counts self.old (item_of number (Made.Mesh mesh.now)) self.new }
        ensures one { self.new.elements ≡ self.old.elements + 1 }
    {
        let (corners, faces) = corner_and_face_count(mesh);
        self.elements += 1;
        self.converted += 1;
        self.corners += corners as u128;
        self.faces += faces as u128;
    }

    /// Counts one element more. The error is want of memory.
    pub(crate) fn count(&mut self, number: u64, made: &Made) -> Result<(), AllocError>
        requires { self.old.elements < 2 ^ 60 }
        ensures counts { OnOk result (Counts self.old (item_of number made.now) self.new) }
        ensures one { OnOk result (self.new.elements ≡ self.old.elements + 1) }
    {
        match made {
            Made::Nothing => {
                self.count_skipped(number);
                Ok(())
            }
            Made::Refusal(refusal) => self.count_refused(number, refusal),
            Made::Mesh(mesh) => {
                self.count_mesh(number, mesh);
                Ok(())
            }
        }
    }
}
