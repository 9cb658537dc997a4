ghost use Rattle.std.specs.Prelude.{◌≡◌, ◌≤◌, not, ◌&&◌, ◌∷◌, ◌++◌, [], ℕ, length, All, IfSome, IfOk, OnOk, OnErr, if◌then◌else◌};
ghost use Rattle.spec_place.specs.Vectors.{IsWithin};
ghost use Rattle.std.specs.Option.{option_copied};
ghost use Rattle.spec_shape.specs.Loops.{is_same, repeats_first, open_loop, has_three};
ghost use Rattle.ix_profile.specs.Others.{other_than};

use crate::loops::{Loop, Loops};
use spec_space::Vector;
use std::alloc::{AllocError, Global};

fn is_same(u: &Vector, v: &Vector) -> bool
    ensures { result ≡ is_same u.now v.now }
{
    u.x == v.x && u.y == v.y && u.z == v.z
}

/// Whether there are more points than one, and the last equals the first.
fn repeats_first(points: &[Vector]) -> bool
    ensures { result ≡ repeats_first points.now }
{
    points.len() > 1 && is_same(&points[0], &points[points.len() - 1])
}

/// Whether a point differs from two others.
fn differs(p: &Vector, q: &Vector, r: &Vector) -> bool
    ensures { result ≡ (not (is_same p.now r.now) && not (is_same q.now r.now)) }
{
    !is_same(p, r) && !is_same(q, r)
}

/// The first of the points that differs from two others.
fn other_than<'a>(p: &Vector, q: &Vector, points: &'a [Vector]) -> Option<&'a Vector>
    ensures { option_copied result ≡ other_than p.now q.now points.now }
{
    for r in points {
        if differs(p, q, r) {
            return Some(r);
        }
    }
    None
}

/// Whether three of the points are different.
fn has_three(points: &[Vector]) -> bool
    ensures { result ≡ has_three points.now }
{
    let [first, ..] = points else {
        return false;
    };
    let Some(second) = other_than(first, first, points) else {
        return false;
    };
    other_than(first, second, points).is_some()
}

impl Loop {
    /// The loop of a closed curve by its points: a last point that equals the first is dropped. Takes no memory.
    /// `None` exactly where fewer than three of the points are different.
    pub fn of_curve(mut points: Vec<Vector>) -> Option<Loop>
        ensures value { result ≡ (if has_three (open_loop points.items) then Some (open_loop points.items) else None) }
        ensures long { IfSome result (λ l. 3 ≤ length l) }
        ensures within { (n : ℕ) → All (IsWithin n) points.items → IfSome result (λ l. All (IsWithin n) l) }
    {
        if repeats_first(&points) {
            points.pop();
        }
        if has_three(&points) {
            Some(Loop { points })
        } else {
            None
        }
    }

    /// Its corners.
    pub fn points(&self) -> &[Vector]
        ensures { result.now ≡ self.now }
    {
        self.points.as_slice()
    }

    /// The number of its corners.
    pub fn len(&self) -> usize
        ensures { result ≡ length self.now }
    {
        self.points.len()
    }
}

impl Loops {
    /// No loops.
    pub fn new(alloc: Global) -> Loops
        ensures { result ≡ [] }
    {
        Loops {
            loops: Vec::new(alloc),
        }
    }

    /// Puts a loop behind the others.
    ///
    /// # Errors
    ///
    /// Want of memory; then the loops stay as they were.
    pub fn push(&mut self, added: Loop) -> Result<(), AllocError>
        ensures ok { OnOk result (self.new ≡ self.old ++ added ∷ []) }
        ensures err { OnErr result (self.new ≡ self.old) }
    {
        self.loops.push(added)?;
        Ok(())
    }

    /// The loops in their order.
    pub fn as_slice(&self) -> &[Loop]
        ensures { result.now ≡ self.now }
    {
        self.loops.as_slice()
    }

    /// The number of loops.
    pub fn len(&self) -> usize
        ensures { result ≡ length self.now }
    {
        self.loops.len()
    }
}
