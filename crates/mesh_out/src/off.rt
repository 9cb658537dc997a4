ghost use Rattle.std.specs.Prelude.{◌≡◌, ◌+◌, ◌≤◌, [], ◌∷◌, ◌++◌, length, map, codes, vec_len, vec_capacity};
ghost use Rattle.world_print.specs.Elements.{element_of, mesh_of};
ghost use Rattle.mesh_out.specs.Off.{off_block, off_text};
ghost use Rattle.mesh_out.specs.Writers.{known_writer};

use crate::text::off_block;
use crate::writer::MeshWriter;
use std::alloc::{AllocError, Global};
use world_print::ElementMesh;

/// The writer of the name `off`: for each mesh a block of OFF text, in which corners are printed in metres with six digits
/// and faces name them by their places from 0 (a profile of this project, after the OFF form).
#[derive(Drop)]
pub struct OffWriter {
    alloc: Global,
    taken: Vec<ElementMesh>,
    text: Vec<u8>,
    ghost written: { text.items ≡ off_text (map mesh_of taken.items) },
}

impl OffWriter {
    /// A writer that took no mesh. It takes no memory.
    pub fn new(alloc: Global) -> OffWriter
        ensures { ⟦<OffWriter as MeshWriter>⟧.view result ≡ known_writer (codes "off") [] off_text }
    {
        OffWriter {
            alloc,
            taken: Vec::new(alloc),
            text: Vec::new(alloc),
        }
    }

    /// Adds a mesh and its block, for which there is room.
    fn add(&mut self, mesh: ElementMesh, block: &[u8])
        requires block { block.now ≡ off_block (element_of mesh) }
        requires list { vec_len self.old.taken + 1 ≤ vec_capacity self.old.taken }
        requires text { vec_len self.old.text + length block.now ≤ vec_capacity self.old.text }
        ensures taken { map mesh_of self.new.taken.items ≡ map mesh_of self.old.taken.items ++ mesh_of mesh ∷ [] }
    {
        match self.taken.push(mesh) {
            Ok(()) => {}
            Err(_) => unreachable!(),
        }
        match self.text.extend_from_slice(block) {
            Ok(()) => {}
            Err(_) => unreachable!(),
        }
    }
}

impl MeshWriter for OffWriter {
    ghost view = { λ w. known_writer (codes "off") (map mesh_of w.taken.items) off_text };

    fn name(&self) -> &str {
        "off"
    }

    fn take(&mut self, mesh: &ElementMesh) -> Result<(), AllocError> {
        let copy = mesh.copy(self.alloc)?;
        let block = off_block(self.alloc, mesh)?;
        self.taken.reserve(1)?;
        self.text.reserve(block.len())?;
        self.add(copy, &block);
        Ok(())
    }

    fn text(&self) -> &[u8] {
        &self.text
    }
}
