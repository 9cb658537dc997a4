ghost use Rattle.std.specs.Prelude.{◌≡◌, ◌≤◌, ◌^◌, ◌∷◌, ◌++◌, ◌-◌, [], length, slice_index_or, map, All, IfOk, IfSome, OnOk, if◌then◌else◌};
ghost use Rattle.spec_place.specs.Vectors.{IsWithin, origin};
ghost use Rattle.spec_shape.specs.Loops.{open_loop, has_three};
ghost use Rattle.spec_geometry.specs.Curves.{as_loop, points_at};

use ix_profile::Loop;
use spec_refusal::Refusal;
use spec_space::Vector;
use std::alloc::{AllocError, Global};
use std::marker::Model;

/// The loop of points, if three of them are different.
fn loop_of(points: Vec<Vector>) -> Option<Loop>
    requires { All (IsWithin (10 ^ 16)) points.items }
    ensures value { result ≡ (if has_three (open_loop points.items) then Some (open_loop points.items) else None) }
    ensures long { IfSome result (λ l. 3 ≤ length l) }
    ensures within { IfSome result (λ l. All (IsWithin (10 ^ 16)) l) }
{
    Loop::of_curve(points)
}

/// Points that are read, in nanometres; no coordinate has a size above 10^16. Contracts see them as the list of the points.
#[derive(Drop)]
pub struct Points {
    points: Vec<Vector>,
}

impl Model for Points {
    ghost use Rattle.std.specs.Prelude.{◌^◌, List, All};
    ghost use Rattle.spec_space.specs.declared.Vector.{Vector};
    ghost use Rattle.spec_place.specs.Vectors.{IsWithin};

    ghost Value = { List Vector };

    ghost view = { λ p. p.points.items };

    ghost invariant = { λ p. All (IsWithin (10 ^ 16)) p.points.items };
}

impl Points {
    /// No points.
    pub fn new(alloc: Global) -> Points
        ensures { result ≡ [] }
    {
        Points {
            points: Vec::new(alloc),
        }
    }

    /// Puts a point behind the others.
    ///
    /// # Errors
    ///
    /// Want of memory.
    pub fn push(&mut self, point: Vector) -> Result<(), AllocError>
        requires { IsWithin (10 ^ 16) point }
        ensures { OnOk result (self.new ≡ self.old ++ point ∷ []) }
    {
        self.points.push(point)?;
        Ok(())
    }

    /// How many they are.
    pub fn len(&self) -> usize
        ensures { result ≡ length self.now }
    {
        self.points.len()
    }

    /// The point of a number, counted from 1, and the origin where there is none.
    pub fn numbered(&self, number: usize) -> Vector
        ensures value { result ≡ slice_index_or self.now (number - 1) origin }
        ensures within { IsWithin (10 ^ 16) result }
    {
        match self.points.get(number.saturating_sub(1)) {
            Some(point) => *point,
            None => Vector { x: 0, y: 0, z: 0 },
        }
    }

    /// The points of some numbers, counted from 1.
    ///
    /// # Errors
    ///
    /// Want of memory.
    pub fn all_numbered(&self, alloc: Global, numbers: &[usize]) -> Result<Points, AllocError>
        ensures { IfOk result (λ points. points ≡ points_at self.now numbers.now) }
    {
        let mut points = Points::new(alloc);
        for number in numbers {
            points.push(self.numbered(*number))?;
        }
        Ok(points)
    }

    /// The loop of the points, which are those of the instance `at`: a last point that equals the first is dropped.
    ///
    /// # Errors
    ///
    /// `BadAttribute` at position 1 exactly where fewer than three of the points are different.
    pub fn into_loop(self, at: u64) -> Result<Loop, Refusal>
        ensures value { result ≡ as_loop at self }
        ensures long { IfOk result (λ l. 3 ≤ length l) }
        ensures within { IfOk result (λ l. All (IsWithin (10 ^ 16)) l) }
    {
        match loop_of(self.points) {
            Some(found) => Ok(found),
            None => Err(Refusal::BadAttribute { at, position: 1 }),
        }
    }
}
