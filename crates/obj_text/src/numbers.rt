ghost use Rattle.std.specs.Prelude.{◌≡◌, ◌++◌};
ghost use Rattle.std.specs.Fmt.{decimal};
ghost use Rattle.spec_page.specs.Lines.{spaced, spaced_three, spaced_vector, spaced_metres, number_line};
ghost use Rattle.world_print.specs.Appended.{IsAppended};

use spec_space::Vector;
use std::alloc::AllocError;
use world_print::metres;

/// Appends a number in decimal.
pub(crate) fn put_number(page: &mut Vec<u8>, number: u128) -> Result<(), AllocError>
    ensures { IsAppended result page.old.items page.new.items (decimal number) }
{
    let mut buffer = itoa::Buffer::new();
    page.extend_from_slice(buffer.format(number).as_bytes())
}

/// Appends a whole number behind a space.
pub(crate) fn put_spaced(page: &mut Vec<u8>, number: i128) -> Result<(), AllocError>
    ensures { IsAppended result page.old.items page.new.items (spaced number) }
{
    let mut buffer = itoa::Buffer::new();
    page.push(b' ')?;
    page.extend_from_slice(buffer.format(number).as_bytes())
}

/// Appends three whole numbers behind spaces.
pub(crate) fn put_three(page: &mut Vec<u8>, x: i128, y: i128, z: i128) -> Result<(), AllocError>
    ensures { IsAppended result page.old.items page.new.items (spaced_three x y z) }
{
    put_spaced(page, x)?;
    put_spaced(page, y)?;
    put_spaced(page, z)
}

pub(crate) fn put_vector(page: &mut Vec<u8>, vector: &Vector) -> Result<(), AllocError>
    ensures { IsAppended result page.old.items page.new.items (spaced_vector vector.now) }
{
    put_three(page, vector.x, vector.y, vector.z)
}

/// Appends a number of micrometres in metres, behind a space.
pub(crate) fn put_spaced_metres(page: &mut Vec<u8>, micro: i128) -> Result<(), AllocError>
    ensures { IsAppended result page.old.items page.new.items (spaced_metres micro) }
{
    page.push(b' ')?;
    metres(page, micro)
}

/// Appends a whole number behind a sign, on a line.
pub(crate) fn put_number_line(
    page: &mut Vec<u8>,
    sign: &[u8],
    number: u64,
) -> Result<(), AllocError>
    ensures { IsAppended result page.old.items page.new.items (number_line sign.now number) }
{
    let mut buffer = itoa::Buffer::new();
    page.extend_from_slice(sign)?;
    page.extend_from_slice(buffer.format(number).as_bytes())?;
    page.push(b'\n')?;
    Ok(())
}
