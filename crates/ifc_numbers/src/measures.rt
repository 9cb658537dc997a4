use ix_place::LengthUnit;
use std::marker::Model;

/// How the geometry of a file is read: its unit of length, and the step of the grid on which its solids are wanted, from 1 to
/// 10,000 micrometres. Contracts see both as measures.
#[derive(Clone, Copy)]
pub struct GeomIn {
    /// The unit of length.
    pub unit: LengthUnit,
    /// The step of the grid in micrometres.
    pub step: u32,
}

impl Model for GeomIn {
    ghost use Rattle.ifc_numbers.specs.Measures.{Measures, IsGrid};

    ghost Value = { Measures };

    ghost view = { λ g. record { unit = g.unit; grid = g.step } };

    ghost invariant = { λ g. IsGrid g.step };

    ghost inverse = { λ m. record { unit = m.unit; step = m.grid } };
}
