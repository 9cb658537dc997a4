ghost use Rattle.std.specs.Prelude.{◌≡◌, ◌++◌, ◌+◌, ◌<◌, ◌≤◌, ◌^◌, IsOk, is_ok, if◌then◌else◌};
ghost use Rattle.std.specs.Vec.{vec_len, vec_capacity};
ghost use Rattle.spec_page.specs.Lines.{six_digits, size_in_metres, metres};

use std::alloc::AllocError;

/// The six digits of a fraction.
fn six_digits(number: u128) -> [u8; 6]
    requires { number < 10 ^ 6 }
    ensures { result ≡ six_digits number }
{
    [
        b'0' + (number / 100_000) as u8,
        b'0' + (number / 10_000 % 10) as u8,
        b'0' + (number / 1_000 % 10) as u8,
        b'0' + (number / 100 % 10) as u8,
        b'0' + (number / 10 % 10) as u8,
        b'0' + (number % 10) as u8,
    ]
}

/// Room for any number in metres: a sign, the metres in decimal, the point and six digits.
const LONGEST: usize = 48;

/// Appends a size in micrometres in metres, where there is room for all but a sign.
fn put_size(page: &mut Vec<u8>, size: u128) -> Result<(), AllocError>
    requires { vec_len page.old + 47 ≤ vec_capacity page.old }
    ensures text { page.new.items ≡ page.old.items ++ size_in_metres size }
    ensures room { IsOk result }
{
    let mut buffer = itoa::Buffer::new();
    page.extend_from_slice(buffer.format(size / 1_000_000).as_bytes())?;
    page.push(b'.')?;
    page.extend_from_slice(&six_digits(size % 1_000_000))
}

/// Appends a number of micrometres in metres, with six digits behind the point, and with a sign only where it is below zero.
///
/// # Errors
///
/// Want of memory; then the page is as it was.
pub fn metres(page: &mut Vec<u8>, micro: i128) -> Result<(), AllocError>
    ensures { page.new.items ≡ (if is_ok result then page.old.items ++ metres micro else page.old.items) }
{
    page.reserve(LONGEST)?;
    if micro < 0 {
        page.push(b'-')?;
    }
    put_size(page, micro.unsigned_abs())
}
