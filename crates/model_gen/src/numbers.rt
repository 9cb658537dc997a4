ghost use Rattle.std.specs.Prelude.{◌≡◌, ◌++◌, OnOk};
ghost use Rattle.model_gen.specs.Lines.{reference, references, name, millimetres, two_lengths, coordinate, further, coordinates};

use std::alloc::AllocError;

/// A place in millimetres.
#[derive(Clone, Copy)]
pub(crate) struct Place {
    pub(crate) x: i64,
    pub(crate) y: i64,
    pub(crate) z: i64,
}

/// Appends a reference to an instance.
pub(crate) fn put_reference(page: &mut Vec<u8>, number: u32) -> Result<(), AllocError>
    ensures { OnOk result (page.new.items ≡ page.old.items ++ reference number) }
{
    let mut buffer = itoa::Buffer::new();
    page.push(b'#')?;
    page.extend_from_slice(buffer.format(number).as_bytes())
}

/// Appends two references with a comma between them.
pub(crate) fn put_references(page: &mut Vec<u8>, first: u32, second: u32) -> Result<(), AllocError>
    ensures { OnOk result (page.new.items ≡ page.old.items ++ references first second) }
{
    put_reference(page, first)?;
    page.push(b',')?;
    put_reference(page, second)
}

/// Appends the name of an instance, with which its line begins.
pub(crate) fn put_name(page: &mut Vec<u8>, number: u32) -> Result<(), AllocError>
    ensures { OnOk result (page.new.items ≡ page.old.items ++ name number) }
{
    put_reference(page, number)?;
    page.push(b'=')?;
    Ok(())
}

/// Appends a length.
pub(crate) fn put_millimetres(page: &mut Vec<u8>, length: u32) -> Result<(), AllocError>
    ensures { OnOk result (page.new.items ≡ page.old.items ++ millimetres length) }
{
    let mut buffer = itoa::Buffer::new();
    page.extend_from_slice(buffer.format(length).as_bytes())?;
    page.push(b'.')?;
    Ok(())
}

/// Appends two lengths with a comma between them.
pub(crate) fn put_lengths(page: &mut Vec<u8>, first: u32, second: u32) -> Result<(), AllocError>
    ensures { OnOk result (page.new.items ≡ page.old.items ++ two_lengths first second) }
{
    put_millimetres(page, first)?;
    page.push(b',')?;
    put_millimetres(page, second)
}

/// Appends a coordinate.
fn put_coordinate(page: &mut Vec<u8>, z: i64) -> Result<(), AllocError>
    ensures { OnOk result (page.new.items ≡ page.old.items ++ coordinate z) }
{
    let mut buffer = itoa::Buffer::new();
    page.extend_from_slice(buffer.format(z).as_bytes())?;
    page.push(b'.')?;
    Ok(())
}

/// Appends a coordinate behind a comma.
fn put_further(page: &mut Vec<u8>, z: i64) -> Result<(), AllocError>
    ensures { OnOk result (page.new.items ≡ page.old.items ++ further z) }
{
    page.push(b',')?;
    put_coordinate(page, z)
}

/// Appends three coordinates.
pub(crate) fn put_coordinates(page: &mut Vec<u8>, place: &Place) -> Result<(), AllocError>
    ensures { OnOk result (page.new.items ≡ page.old.items ++ coordinates place.now.x place.now.y place.now.z) }
{
    put_coordinate(page, place.x)?;
    put_further(page, place.y)?;
    put_further(page, place.z)
}
