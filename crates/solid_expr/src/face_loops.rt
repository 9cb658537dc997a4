ghost use Rattle.std.specs.Prelude.{◌≡◌, ◌^◌, ◌-◌};
ghost use Rattle.ix_profile.specs.Outlines.{IsOutline};
ghost use Rattle.solid_expr.specs.Sides.{face_at};

use crate::face::Face;
use ix_profile::Loops;

impl Face {
    /// The face of some loops.
    pub fn of_loops(at: u64, loops: Loops) -> Face
        requires { IsOutline (2 ^ 62 - 1) loops }
        ensures { result ≡ face_at at loops }
    {
        Face { at, loops }
    }

    /// Its loops.
    pub fn loops(&self) -> &Loops
        ensures value { result.now ≡ self.now.loops }
        ensures kept { IsOutline (2 ^ 62 - 1) result.now }
    {
        &self.loops
    }
}
