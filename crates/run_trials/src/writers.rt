ghost use Rattle.std.specs.Prelude.{[], map, codes};
ghost use Rattle.world_print.specs.Elements.{mesh_of};
ghost use Rattle.mesh_out.specs.Writers.{known_writer};

use crate::samples::{has, is_shown, joined, run_with};
use exact_mesh::ExactMesh;
use ifc_kinds::Kind;
use ix_outside::{MemSource, Sink};
use ix_place::Frame;
use mesh_out::{MeshWriter, OffWriter};
use std::alloc::{AllocError, Global};
use world_print::{ElementMesh, finish};

/// A writer that has no text for any meshes.
#[derive(Drop)]
struct Quiet {
    alloc: Global,
    taken: Vec<ElementMesh>,
}

impl MeshWriter for Quiet {
    ghost view = { λ w. known_writer (codes "quiet") (map mesh_of w.taken.items) (λ _. []) };

    fn name(&self) -> &str {
        "quiet"
    }

    fn take(&mut self, mesh: &ElementMesh) -> Result<(), AllocError> {
        let copy = mesh.copy(self.alloc)?;
        self.taken.push(copy)?;
        Ok(())
    }

    fn text(&self) -> &[u8] {
        b""
    }
}

/// A mesh without corners of the element of a number.
fn empty_mesh(alloc: Global, number: u64) -> Result<ElementMesh, AllocError> {
    let mesh = ExactMesh {
        corners: Vec::new(alloc),
        faces: Vec::new(alloc),
    };
    finish(alloc, number, Kind::Wall, Frame::identity(), 1000, mesh)
}

/// Writers of which the first of the name `off` already has a mesh, and the second has none.
fn writers(alloc: Global) -> Result<Vec<Box<dyn MeshWriter>>, AllocError> {
    let mut first = OffWriter::new(alloc);
    first.take(&empty_mesh(alloc, 7)?)?;
    let mut writers: Vec<Box<dyn MeshWriter>> = Vec::new(alloc);
    let taken = Vec::new(alloc);
    writers.push(Box::new(alloc, Quiet { alloc, taken })?)?;
    writers.push(Box::new(alloc, first)?)?;
    writers.push(Box::new(alloc, OffWriter::new(alloc))?)?;
    Ok(writers)
}

/// A file of four more elements than its wall.
const MORE: &str = "HEAD + PROJECT + WALL + \
#14=IFCSLAB('3',$,$,$,$,#7,$,$,$);#15=IFCBEAM('4',$,$,$,$,#7,#99,$,$);
#16=IFCWALL('5',$,$,$,$,#7,#12,$,$);#17=IFCWALL('6',$,$,$,$,#7,#12,$,$); + END";

fn is_written(page: &[u8]) -> bool {
    page.starts_with(b"# 7\nOFF\n0 0 0\n# 13\nOFF\n8 ")
        && !has(page, b"# 15\n")
        && has(page, b"# 16\n")
        && has(page, b"# 17\n")
}

fn writes(alloc: Global) -> Result<bool, AllocError> {
    let mut source = MemSource::new(joined(alloc, MORE)?);
    let writers = writers(alloc)?;
    let left = run_with(
        alloc,
        "convert --format=off",
        &mut source,
        writers,
        4000,
        400,
    )?;
    let head: &[u8] = b"elements 5 converted 3 skipped 1 refused 1 corners 24 ";
    Ok(
        left.code == 1
            && left.rep.held().starts_with(head)
            && left.is_put()
            && is_written(&left.page),
    )
}

#[test]
fn writes_by_the_first_writer_of_a_name(rt: HostRuntime) {
    assert!(rt; is_shown(writes(rt.alloc())));
}
