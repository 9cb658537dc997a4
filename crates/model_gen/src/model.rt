ghost use Rattle.std.specs.Prelude.{◌≡◌, ◌≤◌, ◌++◌, OnOk, IfOk};
ghost use Rattle.model_gen.specs.Model.{head, end, walls, holes, model};

use crate::blocks::{put_hole, put_slab, put_wall};
use std::alloc::{AllocError, Global};

/// Appends the header, the unit and the project, and the direction upwards.
fn put_head(page: &mut Vec<u8>) -> Result<(), AllocError>
    ensures { OnOk result (page.new.items ≡ page.old.items ++ head) }
{
    page.extend_from_slice(
        b"\
ISO-10303-21;
HEADER;
FILE_DESCRIPTION((''),'2;1');
FILE_NAME('','',(''),(''),'','','');
FILE_SCHEMA(('IFC4'));
ENDSEC;
DATA;
#1=IFCSIUNIT(*,.LENGTHUNIT.,.MILLI.,.METRE.);
#2=IFCUNITASSIGNMENT((#1));
#3=IFCCARTESIANPOINT((0.,0.,0.));
#4=IFCAXIS2PLACEMENT3D(#3,$,$);
#5=IFCGEOMETRICREPRESENTATIONCONTEXT($,'Model',3,1.E-5,#4,$);
#6=IFCPROJECT('1',$,'p',$,$,$,$,(#5),#2);
#8=IFCDIRECTION((0.,0.,1.));
",
    )
}

fn put_walls(page: &mut Vec<u8>, count: u32) -> Result<(), AllocError>
    requires { count ≤ 150 }
    ensures { OnOk result (page.new.items ≡ page.old.items ++ walls count) }
{
    for i in 0..count {
        put_wall(page, i)?;
    }
    Ok(())
}

fn put_holes(page: &mut Vec<u8>, count: u32) -> Result<(), AllocError>
    requires { count ≤ 150 }
    ensures { OnOk result (page.new.items ≡ page.old.items ++ holes count) }
{
    for i in 0..count {
        put_hole(page, i)?;
    }
    Ok(())
}

/// The IFC4 file of `n` walls with a window each, and of a slab with `n` holes: from 1 to 150 (a file of this project). Lengths
/// are in millimetres.
///
/// # Errors
///
/// Want of memory.
pub fn generate(alloc: Global, n: u32) -> Result<Vec<u8>, AllocError>
    requires least { 1 ≤ n }
    requires most { n ≤ 150 }
    ensures { IfOk result (λ page. page.items ≡ model n) }
{
    let mut page = Vec::new(alloc);
    put_head(&mut page)?;
    put_walls(&mut page, n)?;
    put_slab(&mut page)?;
    put_holes(&mut page, n)?;
    page.extend_from_slice(b"ENDSEC;\nEND-ISO-10303-21;\n")?;
    Ok(page)
}
