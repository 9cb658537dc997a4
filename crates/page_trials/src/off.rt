use crate::meshes::tetrahedron;
use ifc_kinds::Kind;
use ix_place::Frame;
use mesh_out::{MeshWriter, OffWriter};
use std::alloc::{AllocError, Global};
use std::test::Fail;
use world_print::{ElementMesh, finish};

/// A tetrahedron on a grid of millimetres, as the mesh of an element.
fn element(alloc: Global, number: u64) -> Result<ElementMesh, AllocError> {
    let mesh = tetrahedron(alloc, -3)?;
    finish(alloc, number, Kind::Wall, Frame::identity(), 1000, mesh)
}

const FIRST: &str = "# 13
OFF
4 4 0
0.000000 0.000000 0.000000
5.000000 0.000000 0.000000
0.000000 0.200000 0.000000
0.000000 0.000000 -0.003000
3 0 2 1
3 0 1 3
3 0 3 2
3 1 2 3
";

const SECOND: &str = "# 14
OFF
4 4 0
0.000000 0.000000 0.000000
5.000000 0.000000 0.000000
0.000000 0.200000 0.000000
0.000000 0.000000 -0.003000
3 0 2 1
3 0 1 3
3 0 3 2
3 1 2 3
";

/// Adds the tetrahedron with a number.
fn take(alloc: Global, writer: &mut OffWriter, number: u64) -> Result<(), AllocError> {
    writer.take(&element(alloc, number)?)
}

/// Whether a new writer is called `off` and has an empty text.
fn is_new(alloc: Global) -> bool {
    let writer = OffWriter::new(alloc);
    writer.name() == "off" && writer.text().is_empty()
}

/// Whether a writer that took one tetrahedron has this text.
fn writes_one(alloc: Global, text: &str) -> Result<bool, AllocError> {
    let mut writer = OffWriter::new(alloc);
    take(alloc, &mut writer, 13)?;
    Ok(writer.text() == text.as_bytes())
}

/// Whether a writer that took two has the text of the first and then that of the second.
fn writes_two(alloc: Global, first: &str, second: &str) -> Result<bool, AllocError> {
    let mut both = Vec::from_slice(alloc, first.as_bytes())?;
    both.extend_from_slice(second.as_bytes())?;
    let mut writer = OffWriter::new(alloc);
    take(alloc, &mut writer, 13)?;
    take(alloc, &mut writer, 14)?;
    Ok(writer.text() == both.as_slice())
}

#[test]
fn writes_blocks(rt: HostRuntime) -> Result<(), Fail> {
    assert!(rt; is_new(rt.alloc()));
    assert!(rt; writes_one(rt.alloc(), FIRST)?);
    assert!(rt; writes_two(rt.alloc(), FIRST, SECOND)?);
    Ok(())
}
