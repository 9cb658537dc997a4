ghost use Rattle.std.specs.Prelude.{◌≡◌, ◌+◌, ◌<◌, ◌≤◌, ◌^◌, ◌∷◌, [], ◌++◌, ℕ, Some, Contains, map, length, slice_get, IfOk, OnOk, OnErr};
ghost use Rattle.plane_core.specs.Views.{plane_of};
ghost use Rattle.plane_core.specs.Books.{cube_walls, AreDistinct, BeginsWithWalls};

use crate::numbers::Plane;
use crate::walls::{x_wall, y_wall, z_wall};
use indexmap::IndexSet;
use std::alloc::{AllocError, Global};
use std::marker::Model;

/// The number of a plane in a book, counted from 0.
#[derive(Clone, Copy, Default, PartialEq, Eq, Hash, Debug)]
pub struct PlaneId {
    /// The place of the plane in its book.
    pub k: u32,
}

/// Planes by number: equal planes have one number, a number stays with its plane, and the six walls of the enclosing cube
/// have the numbers 0 to 5 (a rule of this project). A contract sees the list of the planes, in the order of their numbers.
#[derive(Drop)]
pub struct PlaneBook {
    planes: IndexSet<Plane>,
}

impl Model for PlaneBook {
    ghost use Rattle.std.specs.Prelude.{List};
    ghost use Rattle.plane_core.specs.declared.numbers.Plane.{Plane};

    ghost Value = { List Plane };

    ghost use Rattle.plane_core.specs.Books.{IsBook};

    ghost view = { λ b. b.planes.keys };

    ghost invariant = { λ b. IsBook b.planes.keys };
}

impl PlaneBook {
    /// A book with the six walls of the enclosing cube, numbers 0 to 5 (a rule of this project): the planes at -1048577
    /// and 1048577 grid steps, along x, then y, then z. The error is want of memory.
    pub fn new(alloc: Global) -> Result<PlaneBook, AllocError>
        ensures walls { IfOk result (λ book. map plane_of book ≡ cube_walls) }
        ensures count { IfOk result (λ book. length book ≡ 6) }
        ensures distinct { IfOk result AreDistinct }
    {
        let mut planes = IndexSet::new(alloc);
        planes.insert(x_wall(-1_048_577))?;
        planes.insert(x_wall(1_048_577))?;
        planes.insert(y_wall(-1_048_577))?;
        planes.insert(y_wall(1_048_577))?;
        planes.insert(z_wall(-1_048_577))?;
        planes.insert(z_wall(1_048_577))?;
        Ok(PlaneBook { planes })
    }

    /// How many planes the book has.
    pub fn count(&self) -> usize
        ensures value { result ≡ length self.now }
        ensures distinct { AreDistinct self.now }
        ensures walls { BeginsWithWalls self.now }
        ensures few { length self.now ≤ 2 ^ 31 }
    {
        self.planes.len()
    }

    /// The plane with a number that this book has given.
    pub fn plane(&self, id: PlaneId) -> &Plane
        requires given { id.k < length self.now }
        ensures value { slice_get self.now id.k ≡ Some result.now }
        ensures distinct { AreDistinct self.now }
        ensures walls { BeginsWithWalls self.now }
    {
        match self.planes.get_index(id.k as usize) {
            Some(plane) => plane,
            None => unreachable!(),
        }
    }

    /// The number of the plane: the one that it has, or else a new one at the end. The book has fewer than 2^31 planes.
    /// The error is want of memory, and then the book is as before.
    pub fn add(&mut self, p: Plane) -> Result<PlaneId, AllocError>
        requires room { length self.old < 2 ^ 31 }
        ensures number { IfOk result (λ id. slice_get self.new id.k ≡ Some p) }
        ensures known { OnOk result (Contains self.old p → self.new ≡ self.old) }
        ensures added { OnOk result ((Contains self.old p → ⊥) → self.new ≡ self.old ++ p ∷ []) }
        ensures kept { (k : ℕ) → k < length self.old → slice_get self.new k ≡ slice_get self.old k }
        ensures grown { (length self.old ≤ length self.new) × (length self.new ≤ length self.old + 1) }
        ensures distinct { AreDistinct self.new }
        ensures walls { BeginsWithWalls self.new }
        ensures err { OnErr result (self.new ≡ self.old) }
    {
        let (index, _) = self.planes.insert_full(p)?;
        Ok(PlaneId { k: index as u32 })
    }
}
