ghost use Rattle.std.specs.Prelude.{◌≡◌, ℤ, pos, ◌+ℤ◌, ◌-ℤ◌, ◌<◌, ◌^◌, unsigned_abs};
ghost use Rattle.spec_num.specs.Words.{within_128_bits};
ghost use Rattle.ix_num.specs.Words.{of_words};

use std::marker::Model;

/// A sum of numbers of 128 bits, exact where it passes 128 bits too: contracts see it as a whole
/// number. It is kept in two words, and takes no memory.
#[derive(Drop)]
pub struct Wide {
    high: i128,
    low: u128,
}

impl Model for Wide {
    ghost Value = { ℤ };

    ghost view = { λ w. of_words w.high w.low };
}

/// The words of a sum with a number of this size.
fn raised(high: i128, low: u128, size: u128) -> (i128, u128)
    requires { unsigned_abs (of_words high low +ℤ pos size) < 2 ^ 255 }
    ensures { of_words result.0 result.1 ≡ of_words high low +ℤ pos size }
{
    let room = u128::MAX - low;
    if room < size {
        return (high + 1, size - room - 1);
    }
    (high, low + size)
}

/// The words of a sum less a number of this size.
fn lowered(high: i128, low: u128, size: u128) -> (i128, u128)
    requires { unsigned_abs (of_words high low -ℤ pos size) < 2 ^ 255 }
    ensures { of_words result.0 result.1 ≡ of_words high low -ℤ pos size }
{
    if low < size {
        return (high - 1, u128::MAX - (size - low) + 1);
    }
    (high, low - size)
}

fn added(high: i128, low: u128, v: i128) -> (i128, u128)
    requires { unsigned_abs (of_words high low +ℤ v) < 2 ^ 255 }
    ensures { of_words result.0 result.1 ≡ of_words high low +ℤ v }
{
    if v < 0 {
        return lowered(high, low, v.unsigned_abs());
    }
    raised(high, low, v.unsigned_abs())
}

/// The number of two words, unless it passes 128 bits.
fn joined(high: i128, low: u128) -> Option<i128>
    ensures { result ≡ within_128_bits (of_words high low) }
{
    let most = i128::MAX as u128;
    if high == 0 && low <= most {
        return Some(low as i128);
    }
    if high == -1 && low > most {
        return Some(-((u128::MAX - low) as i128) - 1);
    }
    None
}

impl Wide {
    /// The sum of no numbers, which is 0. No memory is taken.
    pub fn zero() -> Wide
        ensures { result ≡ pos 0 }
    {
        Wide { high: 0, low: 0 }
    }

    /// Adds a number to the sum. The new sum must have a size below 2^255, which each sum of up to
    /// 2^128 - 1 numbers has. No memory is taken.
    pub fn add(&mut self, v: i128)
        requires { unsigned_abs (self.old +ℤ v) < 2 ^ 255 }
        ensures { self.new ≡ self.old +ℤ v }
    {
        let (high, low) = added(self.high, self.low, v);
        self.high = high;
        self.low = low;
    }

    /// The sum, and `None` exactly where it is not a number of 128 bits with a sign, from -2^127
    /// to 2^127 - 1. No memory is taken.
    pub fn total(&self) -> Option<i128>
        ensures { result ≡ within_128_bits self.now }
    {
        joined(self.high, self.low)
    }
}
