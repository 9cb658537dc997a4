ghost use Rattle.std.specs.Prelude.{◌≡◌, ◌++◌, OnOk, codes};
ghost use Rattle.model_gen.specs.Lines.{reference, references, two_lengths, coordinates, millimetres, line, point_line, axes_line, placement_line, placement_in_line, rectangle_line, extrusion_line, representation_line, shape_line, wall_line, slab_line, opening_line, voids_line};

use crate::numbers::{
    Place, put_coordinates, put_lengths, put_millimetres, put_name, put_reference, put_references,
};
use std::alloc::AllocError;

/// Appends a line with a reference between two texts.
fn put_referring(
    page: &mut Vec<u8>,
    number: u32,
    before: &[u8],
    other: u32,
    behind: &[u8],
) -> Result<(), AllocError>
    ensures { OnOk result (page.new.items ≡ page.old.items ++ line number before.now (reference other) behind.now) }
{
    put_name(page, number)?;
    page.extend_from_slice(before)?;
    put_reference(page, other)?;
    page.extend_from_slice(behind)
}

/// Appends a line with two references between two texts.
fn put_joining(
    page: &mut Vec<u8>,
    number: u32,
    before: &[u8],
    first: u32,
    second: u32,
    behind: &[u8],
) -> Result<(), AllocError>
    ensures { OnOk result (page.new.items ≡ page.old.items ++ line number before.now (references first second) behind.now) }
{
    put_name(page, number)?;
    page.extend_from_slice(before)?;
    put_references(page, first, second)?;
    page.extend_from_slice(behind)
}

/// Appends a line with three coordinates between two texts.
fn put_located(
    page: &mut Vec<u8>,
    number: u32,
    before: &[u8],
    place: &Place,
    behind: &[u8],
) -> Result<(), AllocError>
    ensures { OnOk result (page.new.items ≡ page.old.items ++ line number before.now (coordinates place.now.x place.now.y place.now.z) behind.now) }
{
    put_name(page, number)?;
    page.extend_from_slice(before)?;
    put_coordinates(page, place)?;
    page.extend_from_slice(behind)
}

/// Appends a line with two lengths between two texts.
fn put_measured(
    page: &mut Vec<u8>,
    number: u32,
    before: &[u8],
    first: u32,
    second: u32,
    behind: &[u8],
) -> Result<(), AllocError>
    ensures { OnOk result (page.new.items ≡ page.old.items ++ line number before.now (two_lengths first second) behind.now) }
{
    put_name(page, number)?;
    page.extend_from_slice(before)?;
    put_lengths(page, first, second)?;
    page.extend_from_slice(behind)
}

/// Appends a reference and a length with a text between them.
fn put_deep(page: &mut Vec<u8>, other: u32, between: &[u8], depth: u32) -> Result<(), AllocError>
    ensures { OnOk result (page.new.items ≡ page.old.items ++ (reference other ++ between.now ++ millimetres depth)) }
{
    put_reference(page, other)?;
    page.extend_from_slice(between)?;
    put_millimetres(page, depth)
}

/// Appends a line with a reference and a length between two texts.
fn put_deep_line(
    page: &mut Vec<u8>,
    number: u32,
    before: &[u8],
    other: u32,
    between: &[u8],
    depth: u32,
    behind: &[u8],
) -> Result<(), AllocError>
    ensures { OnOk result (page.new.items ≡ page.old.items ++ line number before.now (reference other ++ between.now ++ millimetres depth) behind.now) }
{
    put_name(page, number)?;
    page.extend_from_slice(before)?;
    put_deep(page, other, between, depth)?;
    page.extend_from_slice(behind)
}

pub(crate) fn put_point(page: &mut Vec<u8>, number: u32, place: &Place) -> Result<(), AllocError>
    ensures { OnOk result (page.new.items ≡ page.old.items ++ point_line number place.now.x place.now.y place.now.z) }
{
    put_located(page, number, b"IFCCARTESIANPOINT((", place, b"));\n")
}

pub(crate) fn put_axes(page: &mut Vec<u8>, number: u32, point: u32) -> Result<(), AllocError>
    ensures { OnOk result (page.new.items ≡ page.old.items ++ axes_line number point) }
{
    put_referring(page, number, b"IFCAXIS2PLACEMENT3D(", point, b",$,$);\n")
}

/// Appends the line of a placement in the world.
pub(crate) fn put_placement(page: &mut Vec<u8>, number: u32, axes: u32) -> Result<(), AllocError>
    ensures { OnOk result (page.new.items ≡ page.old.items ++ placement_line number axes) }
{
    put_referring(page, number, b"IFCLOCALPLACEMENT($,", axes, b");\n")
}

/// Appends the line of a placement in another.
pub(crate) fn put_placement_in(
    page: &mut Vec<u8>,
    number: u32,
    parent: u32,
    axes: u32,
) -> Result<(), AllocError>
    ensures { OnOk result (page.new.items ≡ page.old.items ++ placement_in_line number parent axes) }
{
    put_joining(page, number, b"IFCLOCALPLACEMENT(", parent, axes, b");\n")
}

pub(crate) fn put_rectangle(
    page: &mut Vec<u8>,
    number: u32,
    length: u32,
    width: u32,
) -> Result<(), AllocError>
    ensures { OnOk result (page.new.items ≡ page.old.items ++ rectangle_line number length width) }
{
    put_measured(
        page,
        number,
        b"IFCRECTANGLEPROFILEDEF(.AREA.,$,$,",
        length,
        width,
        b");\n",
    )
}

pub(crate) fn put_extrusion(
    page: &mut Vec<u8>,
    number: u32,
    profile: u32,
    depth: u32,
) -> Result<(), AllocError>
    ensures { OnOk result (page.new.items ≡ page.old.items ++ extrusion_line number profile depth) }
{
    put_deep_line(
        page,
        number,
        b"IFCEXTRUDEDAREASOLID(",
        profile,
        b",$,#8,",
        depth,
        b");\n",
    )
}

pub(crate) fn put_representation(
    page: &mut Vec<u8>,
    number: u32,
    solid: u32,
) -> Result<(), AllocError>
    ensures { OnOk result (page.new.items ≡ page.old.items ++ representation_line number solid) }
{
    put_referring(
        page,
        number,
        b"IFCSHAPEREPRESENTATION(#5,'Body','SweptSolid',(",
        solid,
        b"));\n",
    )
}

pub(crate) fn put_shape(
    page: &mut Vec<u8>,
    number: u32,
    representation: u32,
) -> Result<(), AllocError>
    ensures { OnOk result (page.new.items ≡ page.old.items ++ shape_line number representation) }
{
    put_referring(
        page,
        number,
        b"IFCPRODUCTDEFINITIONSHAPE($,$,(",
        representation,
        b"));\n",
    )
}

pub(crate) fn put_wall_line(
    page: &mut Vec<u8>,
    number: u32,
    placement: u32,
    shape: u32,
) -> Result<(), AllocError>
    ensures { OnOk result (page.new.items ≡ page.old.items ++ wall_line number placement shape) }
{
    put_joining(
        page,
        number,
        b"IFCWALL('',$,$,$,$,",
        placement,
        shape,
        b",$,$);\n",
    )
}

pub(crate) fn put_slab_line(
    page: &mut Vec<u8>,
    number: u32,
    placement: u32,
    shape: u32,
) -> Result<(), AllocError>
    ensures { OnOk result (page.new.items ≡ page.old.items ++ slab_line number placement shape) }
{
    put_joining(
        page,
        number,
        b"IFCSLAB('',$,$,$,$,",
        placement,
        shape,
        b",$,$);\n",
    )
}

pub(crate) fn put_opening(
    page: &mut Vec<u8>,
    number: u32,
    placement: u32,
    shape: u32,
) -> Result<(), AllocError>
    ensures { OnOk result (page.new.items ≡ page.old.items ++ opening_line number placement shape) }
{
    put_joining(
        page,
        number,
        b"IFCOPENINGELEMENT('',$,$,$,$,",
        placement,
        shape,
        b",$,$);\n",
    )
}

/// Appends the line by which an opening cuts an element.
pub(crate) fn put_voids(
    page: &mut Vec<u8>,
    number: u32,
    element: u32,
    opening: u32,
) -> Result<(), AllocError>
    ensures { OnOk result (page.new.items ≡ page.old.items ++ voids_line number element opening) }
{
    put_joining(
        page,
        number,
        b"IFCRELVOIDSELEMENT('',$,$,$,",
        element,
        opening,
        b");\n",
    )
}
