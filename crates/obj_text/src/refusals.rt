ghost use Rattle.std.specs.Prelude.{◌≡◌, ◌++◌};
ghost use Rattle.spec_page.specs.Refusals.{named_at, spaced_number, further, spaced_corner, refusal_text};
ghost use Rattle.spec_page.specs.Lines.{spaced};
ghost use Rattle.spec_page.specs.Page.{skipped_line, refused_line};
ghost use Rattle.world_print.specs.Appended.{IsAppended};

use crate::numbers::{put_number, put_number_line, put_spaced};
use spec_refusal::Refusal;
use spec_space::Vector;
use std::alloc::AllocError;

/// Appends a name, and behind it the number of an instance.
fn put_named(page: &mut Vec<u8>, name: &[u8], at: u64) -> Result<(), AllocError>
    ensures { IsAppended result page.old.items page.new.items (named_at name.now at) }
{
    page.extend_from_slice(name)?;
    page.extend_from_slice(b" #")?;
    put_number(page, u128::from(at))
}

/// Appends a number behind a space.
fn put_spaced_number(page: &mut Vec<u8>, number: u128) -> Result<(), AllocError>
    ensures { IsAppended result page.old.items page.new.items (spaced_number number) }
{
    page.push(b' ')?;
    put_number(page, number)
}

/// Appends a name with the number of an instance, and another number.
fn put_named_with(page: &mut Vec<u8>, name: &[u8], at: u64, number: u128) -> Result<(), AllocError>
    ensures { IsAppended result page.old.items page.new.items (named_at name.now at ++ spaced_number number) }
{
    put_named(page, name, at)?;
    put_spaced_number(page, number)
}

/// Appends a whole number behind a comma.
fn put_further(page: &mut Vec<u8>, number: i128) -> Result<(), AllocError>
    ensures { IsAppended result page.old.items page.new.items (further number) }
{
    let mut buffer = itoa::Buffer::new();
    page.push(b',')?;
    page.extend_from_slice(buffer.format(number).as_bytes())
}

/// Appends three coordinates behind a space, with commas between them.
fn put_spaced_corner(page: &mut Vec<u8>, corner: &Vector) -> Result<(), AllocError>
    ensures { IsAppended result page.old.items page.new.items (spaced_corner corner.now) }
{
    put_three_parts(page, corner.x, corner.y, corner.z)
}

/// Appends three whole numbers behind a space, with commas between them.
fn put_three_parts(page: &mut Vec<u8>, x: i128, y: i128, z: i128) -> Result<(), AllocError>
    ensures { IsAppended result page.old.items page.new.items (spaced x ++ further y ++ further z) }
{
    put_spaced(page, x)?;
    put_further(page, y)?;
    put_further(page, z)
}

/// Appends two corners.
fn put_edge(page: &mut Vec<u8>, from: &Vector, to: &Vector) -> Result<(), AllocError>
    ensures { IsAppended result page.old.items page.new.items (spaced_corner from.now ++ spaced_corner to.now) }
{
    put_spaced_corner(page, from)?;
    put_spaced_corner(page, to)
}

/// Appends a name with the number of an instance, and an edge.
fn put_named_with_edge(
    page: &mut Vec<u8>,
    name: &[u8],
    at: u64,
    from: &Vector,
    to: &Vector,
) -> Result<(), AllocError>
    ensures { IsAppended result page.old.items page.new.items (named_at name.now at ++ (spaced_corner from.now ++ spaced_corner to.now)) }
{
    put_named(page, name, at)?;
    put_edge(page, from, to)
}

/// Appends the refusal of an element that is too large.
fn put_too_large(page: &mut Vec<u8>, triangles: u128) -> Result<(), AllocError>
    ensures { IsAppended result page.old.items page.new.items (refusal_text (Refusal.ElementTooLarge triangles)) }
{
    page.extend_from_slice(b"E9 ElementTooLarge")?;
    put_spaced_number(page, triangles)
}

/// Appends code, name and numbers of a refusal.
fn put_refusal(page: &mut Vec<u8>, refusal: &Refusal) -> Result<(), AllocError>
    ensures { IsAppended result page.old.items page.new.items (refusal_text refusal.now) }
{
    match refusal {
        Refusal::Unsupported { at } => put_named(page, b"E1 Unsupported", *at),
        Refusal::Curved { at } => put_named(page, b"E2 Curved", *at),
        Refusal::BadAttribute { at, position } => {
            put_named_with(page, b"E3 BadAttribute", *at, *position as u128)
        }
        Refusal::Dangling { at, number } => {
            put_named_with(page, b"E4 Dangling", *at, u128::from(*number))
        }
        Refusal::NumberTooLarge { at } => put_named(page, b"E5 NumberTooLarge", *at),
        Refusal::BadDirection { at } => put_named(page, b"E6 BadDirection", *at),
        Refusal::ScaleOutOfRange { at } => put_named(page, b"E7 ScaleOutOfRange", *at),
        Refusal::TooDeep { at } => put_named(page, b"E8 TooDeep", *at),
        Refusal::ElementTooLarge { triangles } => put_too_large(page, *triangles),
        Refusal::CornerTooFar { at } => put_named(page, b"E10 CornerTooFar", *at),
        Refusal::OpenShell { at, from, to } => {
            put_named_with_edge(page, b"E11 OpenShell", *at, from, to)
        }
        Refusal::PlaneTooLarge { at } => put_named(page, b"E12 PlaneTooLarge", *at),
        Refusal::Unbounded { at } => put_named(page, b"E13 Unbounded", *at),
    }
}

/// Appends the line of an element that has no body.
///
/// # Errors
///
/// Want of memory.
pub fn write_skipped(page: &mut Vec<u8>, number: u64) -> Result<(), AllocError>
    ensures { IsAppended result page.old.items page.new.items (skipped_line number) }
{
    put_number_line(page, b"#skipped ", number)
}

/// Appends the line of an element that is refused.
///
/// # Errors
///
/// Want of memory.
pub fn write_refused(page: &mut Vec<u8>, number: u64, refusal: &Refusal) -> Result<(), AllocError>
    ensures { IsAppended result page.old.items page.new.items (refused_line number refusal.now) }
{
    page.extend_from_slice(b"#refused ")?;
    put_number(page, u128::from(number))?;
    page.push(b' ')?;
    put_refusal(page, refusal)?;
    page.push(b'\n')?;
    Ok(())
}
