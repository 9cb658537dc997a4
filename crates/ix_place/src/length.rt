ghost use Rattle.std.specs.Prelude.{◌≡◌, pos, ◌≤◌, ◌^◌, ◌≤ℤ◌, unsigned_abs};
ghost use Rattle.spec_place.specs.Lengths.{metre, nanometres, converted, length_of, IsUnit};

use crate::types::LengthUnit;
use ix_num::round_div;
use spec_place::Prefix;

/// The nanometres of a decimal in units of 10^-12, over a unit of so many nanometres.
fn nanometres(unit: &LengthUnit, decimal: i128) -> i128
    requires { unsigned_abs decimal ≤ 10 ^ 21 }
    ensures { result ≡ nanometres unit.now decimal }
{
    round_div(decimal * unit.nano as i128, 1_000_000_000_000)
}

fn metre(prefix: Option<Prefix>) -> i64
    ensures value { result ≡ metre prefix }
    ensures unit { IsUnit result }
{
    match prefix {
        None => 1_000_000_000,
        Some(Prefix::Kilo) => 1_000_000_000_000,
        Some(Prefix::Hecto) => 100_000_000_000,
        Some(Prefix::Deca) => 10_000_000_000,
        Some(Prefix::Deci) => 100_000_000,
        Some(Prefix::Centi) => 10_000_000,
        Some(Prefix::Milli) => 1_000_000,
        Some(Prefix::Micro) => 1_000,
    }
}

impl LengthUnit {
    /// The metre with a prefix (IfcSIUnit).
    pub fn of_metre(prefix: Option<Prefix>) -> LengthUnit
        ensures { result ≡ metre prefix }
    {
        LengthUnit {
            nano: metre(prefix),
        }
    }

    /// The unit of a conversion factor over this one (IfcConversionBasedUnit); the factor is a decimal
    /// in units of 10^-12, of a size of at most 10^9. `None` exactly where the product, rounded, is not
    /// from 1 to 10^12 nanometres (a rule of this project).
    pub fn converted(&self, factor: i128) -> Option<LengthUnit>
        requires { unsigned_abs factor ≤ 10 ^ 21 }
        ensures { result ≡ converted self.now factor }
    {
        let nano = nanometres(self, factor);
        if 1 <= nano && nano <= 1_000_000_000_000 {
            Some(LengthUnit { nano: nano as i64 })
        } else {
            None
        }
    }

    /// The length of a decimal in units of 10^-12, of a size of at most 10^9: the nearest number of
    /// nanometres (a rule of this project). `None` exactly where it has a size above 10^16.
    pub fn length(&self, decimal: i128) -> Option<i64>
        requires { unsigned_abs decimal ≤ 10 ^ 21 }
        ensures { result ≡ length_of self.now decimal }
    {
        let nano = nanometres(self, decimal);
        if nano.unsigned_abs() <= 10_000_000_000_000_000 {
            Some(nano as i64)
        } else {
            None
        }
    }
}
