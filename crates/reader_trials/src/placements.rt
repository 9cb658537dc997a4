use crate::asked::{Asked, answers, grid_of};
use entity_reader::has_kind;
use ifc_axes::{
    if_plane_axes, map_within, map_within_if, opening_frame, operator, read_chain, world_frame,
};
use ifc_kinds::Kind;
use ix_place::{Frame, Map};
use spec_refusal::Refusal;
use spec_space::Vector;
use std::alloc::{AllocError, Global};
use std::test::Fail;
use step_table::Table;

const SAMPLE: &str = "ISO-10303-21;HEADER;FILE_SCHEMA(('IFC4'));ENDSEC;DATA;
#1=IFCSIUNIT(*,.LENGTHUNIT.,.MILLI.,.METRE.);
#2=IFCUNITASSIGNMENT((#1));
#3=IFCPROJECT('1',$,'p',$,$,$,$,(),#2);
#4=IFCCARTESIANPOINT((1.,2.,3.));
#5=IFCDIRECTION((0.,1.));
#6=IFCAXIS2PLACEMENT2D(#4,#5);
#7=IFCDIRECTION((0.,0.,-1.));
#8=IFCAXIS2PLACEMENT3D(#4,#7,#5);
#9=IFCLOCALPLACEMENT($,#6);
#10=IFCLOCALPLACEMENT(#9,#8);
#11=IFCWALL('2',$,$,$,$,#10,$,$,$);
#12=IFCCARTESIANTRANSFORMATIONOPERATOR3DNONUNIFORM($,$,#4,2.,$,$,0.5);
#13=IFCBLOCK(#8,$,#6);
#14=IFCSLAB('2',$,$,$,$,$,$,$,$);
ENDSEC;END-ISO-10303-21;";

/// The rows of a frame, each behind a space.
fn push_frame(text: &mut String, frame: &Frame) -> Result<(), AllocError> {
    let transform = frame.transform;
    for row in [transform.x, transform.y, transform.z, transform.off] {
        push_row(text, &row)?;
    }
    Ok(())
}

fn push_row(text: &mut String, row: &Vector) -> Result<(), AllocError> {
    write!(text, "{} {} {};", row.x, row.y, row.z)
}

/// The numbers of a chain, and its frame in the world.
fn links_text(alloc: Global, chain: &[(u64, Frame)]) -> Result<String, AllocError> {
    let mut text = String::new(alloc);
    for link in chain {
        write!(text, "#{} ", link.0)?;
    }
    match world_frame(chain) {
        Ok(frame) => push_frame(&mut text, &frame)?,
        Err(refusal) => write!(text, "{refusal:?}")?,
    }
    Ok(text)
}

/// The chain of a product of the sample with its frame in the world, or why it is refused.
pub(crate) fn chain_text(
    alloc: Global,
    table: &Table<'_>,
    product: u64,
) -> Result<String, AllocError> {
    let Some(g) = grid_of(table) else {
        return String::from_str(alloc, "no unit");
    };
    if !has_kind(table, product, Kind::Wall) && !has_kind(table, product, Kind::Slab) {
        return String::from_str(alloc, "no product");
    }
    match read_chain(alloc, table, &g, product) {
        Ok(chain) => links_text(alloc, &chain),
        Err(fault) => format!(in alloc; "{fault:?}"),
    }
}

#[test]
fn reads_chains(rt: HostRuntime) {
    for (product, want) in [
        (
            11,
            "#9 #10 -1000000000 0 0;0 1000000000 0;0 0 -1000000000;-1000000 3000000 6000000;",
        ),
        (14, "1000000000 0 0;0 1000000000 0;0 0 1000000000;0 0 0;"),
    ] {
        assert!(rt;
            answers(rt.alloc(), Asked::Chain(product), SAMPLE, want),
            "at {product}"
        );
    }
}

/// A map of the block or of the operator of the sample.
#[derive(Clone, Copy, Debug)]
pub(crate) enum Mapped {
    Operator,
    Within,
    WithinUnset,
    Plane,
}

/// A number of a map of the sample, or whether it is the map that it is within.
pub(crate) fn map_text(
    alloc: Global,
    table: &Table<'_>,
    mapped: Mapped,
) -> Result<String, AllocError> {
    let Some(g) = grid_of(table) else {
        return String::from_str(alloc, "no unit");
    };
    if !has_kind(table, 13, Kind::Block)
        || !has_kind(table, 12, Kind::CartesianTransformationOperator3dNonUniform)
    {
        return String::from_str(alloc, "no block");
    }
    let own = Map::of_frame(&Frame::identity());
    match mapped {
        Mapped::Operator => {
            let scale = operator(table, &g, 12).map(|map| map.transform.z.z);
            format!(in alloc; "{scale:?}")
        }
        Mapped::Within => {
            let first = map_within(table, &g, &own, 13, 1).map(|map| map.transform.x.y);
            format!(in alloc; "{first:?}")
        }
        Mapped::WithinUnset => {
            let is_own = map_within_if(table, &g, &own, 13, 2).map(|map| map == own);
            format!(in alloc; "{is_own:?}")
        }
        Mapped::Plane => {
            let height = if_plane_axes(table, &g, 13, 3).map(|axes| axes.map(|a| a.at.z));
            format!(in alloc; "{height:?}")
        }
    }
}

#[test]
fn reads_maps(rt: HostRuntime) {
    for (mapped, want) in [
        (Mapped::Operator, "Ok(500000000)"),
        (Mapped::Within, "Ok(1000000000)"),
        (Mapped::WithinUnset, "Ok(true)"),
        (Mapped::Plane, "Ok(Some(0))"),
    ] {
        assert!(rt;
            answers(rt.alloc(), Asked::Map(mapped), SAMPLE, want),
            "at {mapped:?}"
        );
    }
}

#[test]
fn sees_openings_from_elements(rt: HostRuntime) -> Result<(), Fail> {
    let far = Frame::of_axes([10_000_000_000_000_000, 0, 0], None, None)?;
    let step = Frame::of_axes([1, 2, 3], None, None)?;
    let element = [(7, far)];
    let opening = [(7, far), (9, step)];
    assert_eq!(rt; opening_frame(20, &element, &opening)?, step);
    assert_eq!(rt;
        world_frame(&opening).err(),
        Some(Refusal::NumberTooLarge { at: 9 })
    );
    Ok(())
}
