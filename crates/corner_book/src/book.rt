ghost use Rattle.std.specs.Prelude.{◌≡◌, ◌++◌, ◌∷◌, [], ◌<◌, List, Some, Contains, length, slice_get, IfOk, OnOk, OnErr};
ghost use Rattle.corner_book.specs.Places.{places_where, is_on, AreOnLine};
ghost use Rattle.corner_book.specs.Corners.{corners_of, planes_of, AreDistinct, AreListed, MeetIn, IsMadeWith};
ghost use Rattle.plane_core.specs.declared.numbers.Plane.{Plane};

use crate::lists::{empty_lists, list_corner, places_on, unlist_corner};
use crate::places::Places;
use indexmap::IndexMap;
use plane_core::{Corner, PlaneBook, PlaneId};
use std::alloc::{AllocError, Global};

/// The corners of a mesh by their places, counted from 0 in the order in which they were added: equal corners have one place.
/// For each plane of the book with which they were added it keeps the places of the corners on it.
#[derive(Drop)]
pub struct CornerBook {
    corners: IndexMap<Corner, [PlaneId; 3]>,
    lists: Vec<Places>,
    alloc: Global,
}

impl CornerBook {
    /// A book of no corners. It takes no memory.
    pub fn new(alloc: Global) -> CornerBook
        ensures corners { corners_of result ≡ [] }
        ensures planes { planes_of result ≡ [] }
        // Of any book of planes.
        ensures made { (planes : List Plane) → IsMadeWith planes result }
    {
        CornerBook {
            corners: IndexMap::new(alloc),
            lists: Vec::new(alloc),
            alloc,
        }
    }

    /// How many corners the book has.
    pub fn count(&self) -> usize
        ensures value { result ≡ length (corners_of self.now) }
        ensures distinct { AreDistinct (corners_of self.now) }
    {
        self.corners.len()
    }

    /// The corner at a place.
    pub fn corner(&self, place: usize) -> &Corner
        requires { place < length (corners_of self.now) }
        ensures { slice_get (corners_of self.now) place ≡ Some result.now }
    {
        match self.corners.get_index(place) {
            Some((corner, _)) => corner,
            None => unreachable!(),
        }
    }

    /// The three planes with which the corner at a place was first added.
    pub fn planes(&self, place: usize) -> [PlaneId; 3]
        requires { place < length (corners_of self.now) }
        ensures { slice_get (planes_of self.now) place ≡ Some result }
    {
        match self.corners.get_index(place) {
            Some((_, planes)) => *planes,
            None => unreachable!(),
        }
    }

    /// The place of the corner in which three planes meet: the one that it has, or else a new one at the end. The planes of
    /// the book are those with which the first corner was added.
    ///
    /// # Errors
    ///
    /// Want of memory; then the corners are as before.
    pub fn add(
        &mut self,
        book: &PlaneBook,
        c: Corner,
        planes: [PlaneId; 3],
    ) -> Result<usize, AllocError>
        requires made { IsMadeWith book.now self.old }
        requires meet { MeetIn book.now planes c }
        ensures place { IfOk result (λ place. slice_get (corners_of self.new) place ≡ Some c) }
        ensures known { OnOk result (Contains (corners_of self.old) c →
            (corners_of self.new ≡ corners_of self.old) × (planes_of self.new ≡ planes_of self.old)) }
        ensures added { OnOk result ((Contains (corners_of self.old) c → ⊥) →
            (corners_of self.new ≡ corners_of self.old ++ c ∷ []) × (planes_of self.new ≡ planes_of self.old ++ planes ∷ [])) }
        ensures made { IsMadeWith book.now self.new }
        ensures err { OnErr result ((corners_of self.new ≡ corners_of self.old) × (planes_of self.new ≡ planes_of self.old)) }
    {
        match self.corners.get_index_of(&c) {
            Some(place) => Ok(place),
            None => {
                self.list_planes(book)?;
                self.add_new(book, c, planes)
            }
        }
    }

    /// A list for each plane, if there is no corner yet. The error is want of memory.
    fn list_planes(&mut self, book: &PlaneBook) -> Result<(), AllocError>
        requires made { IsMadeWith book.now self.old }
        ensures listed { OnOk result (AreListed book.now self.new) }
        ensures corners { self.new.corners ≡ self.old.corners }
        ensures made { IsMadeWith book.now self.new }
    {
        if self.corners.is_empty() {
            self.lists = empty_lists(self.alloc, book.count())?;
        }
        Ok(())
    }

    /// The place of a corner that has none so far. The error is want of memory.
    fn add_new(
        &mut self,
        book: &PlaneBook,
        c: Corner,
        planes: [PlaneId; 3],
    ) -> Result<usize, AllocError>
        requires listed { AreListed book.now self.old }
        requires absent { Contains (corners_of self.old) c → ⊥ }
        ensures place { IfOk result (λ place. slice_get (corners_of self.new) place ≡ Some c) }
        ensures corners { OnOk result (corners_of self.new ≡ corners_of self.old ++ c ∷ []) }
        ensures planes { OnOk result (planes_of self.new ≡ planes_of self.old ++ planes ∷ []) }
        ensures err { OnErr result (self.new.corners.entries ≡ self.old.corners.entries) }
        ensures listed { AreListed book.now self.new }
    {
        let place = self.corners.len();
        list_corner(&mut self.lists, book, &c, place)?;
        match self.corners.insert(c, planes) {
            Ok(_) => Ok(place),
            Err(_) => {
                unlist_corner(&mut self.lists, book, &c, book.count());
                Err(AllocError)
            }
        }
    }

    /// The places of the corners on a plane, rising.
    fn places(&self, book: &PlaneBook, id: PlaneId) -> &[usize]
        requires made { IsMadeWith book.now self.now }
        requires given { id.k < length book.now }
        ensures { (p : Plane) → slice_get book.now id.k ≡ Some p → result.now ≡ places_where (is_on p) (corners_of self.now) }
    {
        if self.corners.is_empty() {
            return &[];
        }
        self.lists[id.k as usize].as_slice()
    }

    /// The places of the corners on two planes of the book with which the corners were added, rising.
    ///
    /// # Errors
    ///
    /// Want of memory.
    pub fn on_line(
        &self,
        alloc: Global,
        book: &PlaneBook,
        p: PlaneId,
        q: PlaneId,
    ) -> Result<Vec<usize>, AllocError>
        requires made { IsMadeWith book.now self.now }
        requires first { p.k < length book.now }
        requires second { q.k < length book.now }
        ensures { IfOk result (λ places. AreOnLine book.now p.k q.k (corners_of self.now) places.items) }
    {
        let first = self.places(book, p);
        let second = self.places(book, q);
        if first.len() <= second.len() {
            places_on(alloc, &self.corners, first, book.plane(q))
        } else {
            places_on(alloc, &self.corners, second, book.plane(p))
        }
    }
}
