ghost use Rattle.std.specs.Prelude.{◌≡◌, ◌≤◌, IfOk};
ghost use Rattle.std.specs.Option.{option_copied};
ghost use Rattle.spec_step.specs.Files.{HasDistinctNumbers};
ghost use Rattle.spec_table.specs.Sections.{instance_of, param_of, IsSimple};
ghost use Rattle.spec_table.specs.Attributes.{attribute, inside, read_ref, read_real, read_enum, read_text, read_list, attr_ref, attr_real, attr_enum, attr_text, attr_list};
ghost use Rattle.step_table.specs.Answers.{as_reading, as_reading_if_set};
ghost use Rattle.step_table.specs.Places.{first_place};

use crate::index::places_of;
use crate::typed_values::innermost;
use ix_num::Decimal;
use spec_step::{Body, Instance, Param};
use spec_table::AttrFault;
use std::alloc::{AllocError, Global};
use std::collections::BTreeMap;
use std::marker::Model;
use step_text::{StepFile, bytes_at};

/// The instances of a file by their numbers, no two of which are equal (ISO 10303-21), and the
/// reading of their attributes. A typed value stands for what it holds, one in another too (a rule
/// of this project). A contract sees the DATA section of the file: its instances, and the text in
/// which their spans stand.
#[derive(Drop)]
pub struct Table<'a> {
    file: StepFile<'a>,
    places: BTreeMap<u64, usize>,
}

impl<'a> Model for Table<'a> {
    ghost use Rattle.std.specs.Prelude.{◌≡◌, ℕ};
    ghost use Rattle.spec_table.specs.Sections.{DataSection};

    ghost Value = { DataSection };

    ghost use Rattle.std.specs.Coded.{codes};
    ghost use Rattle.spec_step.specs.contracts.tree.Param as param;

    ghost coded = { Prim.hlevel (codes, param.the_row.coded) };

    ghost use Rattle.std.specs.BTreeMap.{get};
    ghost use Rattle.std.specs.Ordering.{nat_cmp};
    ghost use Rattle.spec_step.specs.Files.{HasDistinctNumbers};
    ghost use Rattle.step_table.specs.Places.{first_place};

    ghost view = { λ t. record { text = t.file.source.now; instances = t.file.instances } };

    ghost invariant = { λ t. HasDistinctNumbers t.file.instances
        × ((n : ℕ) → get nat_cmp t.places n ≡ first_place t.file.instances n) };
}

impl<'a> Table<'a> {
    /// The table of a file whose instances have different numbers, as `parse_file` answers it.
    ///
    /// # Errors
    ///
    /// Want of memory; then the file is dropped.
    pub fn of(alloc: Global, file: StepFile<'a>) -> Result<Table<'a>, AllocError>
        requires { HasDistinctNumbers file.instances }
        ensures text { IfOk result (λ table. table.text ≡ file.entry.source.now) }
        ensures instances { IfOk result (λ table. table.instances ≡ file.entry.instances) }
    {
        let places = places_of(alloc, file.instances.as_slice())?;
        Ok(Table { file, places })
    }

    /// The bytes in which all spans of the table stand.
    pub fn source(&self) -> &[u8]
        ensures { result.now ≡ self.now.text }
    {
        self.file.source
    }

    /// The instances in file order.
    pub fn instances(&self) -> &[Instance]
        ensures value { result.now ≡ self.now.instances }
        ensures distinct { HasDistinctNumbers result.now }
    {
        self.file.instances.as_slice()
    }

    /// The place of the instance of a number.
    fn place(&self, number: u64) -> Option<usize>
        ensures { result ≡ first_place self.now.instances number }
    {
        self.places.get(&number).copied()
    }

    /// The instance of a number, and `None` exactly where no instance has it.
    pub fn get(&self, number: u64) -> Option<&Instance>
        ensures { option_copied result ≡ instance_of self.now number }
    {
        let place = self.place(number)?;
        self.file.instances.get(place)
    }

    /// The parameter of a simple instance at a position, counted from 1.
    fn param(&self, at: u64, position: usize) -> Option<&Param>
        requires simple { IsSimple self.now at }
        requires counted { 1 ≤ position }
        ensures { option_copied result ≡ param_of self.now at position }
    {
        match self.get(at) {
            Some(
                Instance {
                    body: Body::Simple(entry),
                    ..
                },
            ) => entry.params.get(position - 1),
            _ => unreachable!(),
        }
    }

    /// The parameter at a position, unless it is unset or derived.
    fn attribute(&self, at: u64, position: usize) -> Option<&Param>
        requires simple { IsSimple self.now at }
        requires counted { 1 ≤ position }
        ensures { option_copied result ≡ attribute self.now at position }
    {
        let param = self.param(at, position)?;
        match innermost(param) {
            Param::Unset | Param::Derived => None,
            _ => Some(param),
        }
    }

    /// The number of the instance that a parameter refers to, as a member of a list: `p` stands in
    /// the attribute of `at` at this position, which a fault names.
    ///
    /// # Errors
    ///
    /// `BadAttribute` exactly where the parameter is no reference, unset or derived ones included;
    /// `Dangling` exactly where it refers to no instance of the file.
    pub fn param_ref(&self, at: u64, position: usize, p: &Param) -> Result<u64, AttrFault>
        ensures { result ≡ read_ref self.now at position p.now }
    {
        match innermost(p) {
            Param::Reference(number) if self.get(*number).is_some() => Ok(*number),
            Param::Reference(number) => Err(AttrFault::Dangling {
                at,
                number: *number,
            }),
            _ => Err(AttrFault::BadAttribute { at, position }),
        }
    }

    /// The value of an integer or a real in units of 10^-12, as a member of a list: `p` stands in
    /// the attribute of `at` at this position, which a fault names.
    ///
    /// # Errors
    ///
    /// `BadAttribute` exactly where the parameter is neither, unset or derived ones included;
    /// `NumberTooLarge` exactly where the rounded value has a size above 10^9 (a limit of this
    /// project).
    pub fn param_real(&self, at: u64, position: usize, p: &Param) -> Result<i128, AttrFault>
        ensures { result ≡ read_real self.now at position p.now }
    {
        match innermost(p) {
            Param::Int(span) | Param::Real(span) => {
                Decimal::read(bytes_at(self.source(), *span)).map_err(
                    |_| AttrFault::NumberTooLarge { at },
                )
            }
            _ => Err(AttrFault::BadAttribute { at, position }),
        }
    }

    /// The letters of an enumeration, without its points.
    fn param_enum(&self, at: u64, position: usize, p: &Param) -> Result<&[u8], AttrFault>
        ensures { as_reading result ≡ read_enum self.now at position p.now }
    {
        match innermost(p) {
            Param::Enumeration(span) => Ok(inside(bytes_at(self.source(), *span))),
            _ => Err(AttrFault::BadAttribute { at, position }),
        }
    }

    /// The bytes of a text, without its quotes.
    fn param_text(&self, at: u64, position: usize, p: &Param) -> Result<&[u8], AttrFault>
        ensures { as_reading result ≡ read_text self.now at position p.now }
    {
        match innermost(p) {
            Param::Text(span) => Ok(inside(bytes_at(self.source(), *span))),
            _ => Err(AttrFault::BadAttribute { at, position }),
        }
    }

    /// The number of the instance that an attribute refers to, and `None` exactly where it is unset,
    /// derived or missing. Positions count from 1.
    ///
    /// # Errors
    ///
    /// `BadAttribute` exactly where it is no reference; `Dangling` exactly where it refers to no
    /// instance of the file.
    pub fn attr_ref(&self, at: u64, position: usize) -> Result<Option<u64>, AttrFault>
        requires simple { IsSimple self.now at }
        requires counted { 1 ≤ position }
        ensures { result ≡ attr_ref self.now at position }
    {
        match self.attribute(at, position) {
            Some(param) => Ok(Some(self.param_ref(at, position, param)?)),
            None => Ok(None),
        }
    }

    /// The value of an integer or a real in units of 10^-12, and `None` exactly where the attribute
    /// is unset, derived or missing. Positions count from 1.
    ///
    /// # Errors
    ///
    /// `BadAttribute` exactly where it is neither; `NumberTooLarge` exactly where the rounded value
    /// has a size above 10^9 (a limit of this project).
    pub fn attr_real(&self, at: u64, position: usize) -> Result<Option<i128>, AttrFault>
        requires simple { IsSimple self.now at }
        requires counted { 1 ≤ position }
        ensures { result ≡ attr_real self.now at position }
    {
        match self.attribute(at, position) {
            Some(param) => Ok(Some(self.param_real(at, position, param)?)),
            None => Ok(None),
        }
    }

    /// The bytes of an enumeration between its points, as they stand in the source, and `None`
    /// exactly where the attribute is unset, derived or missing. Positions count from 1.
    ///
    /// # Errors
    ///
    /// `BadAttribute` exactly where it is no enumeration.
    pub fn attr_enum(&self, at: u64, position: usize) -> Result<Option<&[u8]>, AttrFault>
        requires simple { IsSimple self.now at }
        requires counted { 1 ≤ position }
        ensures { as_reading_if_set result ≡ attr_enum self.now at position }
    {
        match self.attribute(at, position) {
            Some(param) => Ok(Some(self.param_enum(at, position, param)?)),
            None => Ok(None),
        }
    }

    /// The bytes of a text between its outer quotes, as they stand in the source: a quote in it is
    /// doubled, and directives behind a backslash are not decoded. `None` exactly where the
    /// attribute is unset, derived or missing. Positions count from 1.
    ///
    /// # Errors
    ///
    /// `BadAttribute` exactly where it is no text.
    pub fn attr_text(&self, at: u64, position: usize) -> Result<Option<&[u8]>, AttrFault>
        requires simple { IsSimple self.now at }
        requires counted { 1 ≤ position }
        ensures { as_reading_if_set result ≡ attr_text self.now at position }
    {
        match self.attribute(at, position) {
            Some(param) => Ok(Some(self.param_text(at, position, param)?)),
            None => Ok(None),
        }
    }

    /// The members of a list, as they stand, and `None` exactly where the attribute is unset,
    /// derived or missing. Positions count from 1.
    ///
    /// # Errors
    ///
    /// `BadAttribute` exactly where it is no list.
    pub fn attr_list(&self, at: u64, position: usize) -> Result<Option<&[Param]>, AttrFault>
        requires simple { IsSimple self.now at }
        requires counted { 1 ≤ position }
        ensures { as_reading_if_set result ≡ attr_list self.now at position }
    {
        match self.attribute(at, position) {
            Some(param) => Ok(Some(param_list(at, position, param)?)),
            None => Ok(None),
        }
    }
}

/// The bytes between the first and the last.
fn inside(text: &[u8]) -> &[u8]
    ensures { result.now ≡ inside text.now }
{
    match text {
        [_, inside @ .., _] => inside,
        _ => &[],
    }
}

/// The members of a list, as they stand: `list` stands in the attribute of `at` at this position, which a fault names.
///
/// # Errors
///
/// `BadAttribute` exactly where it is no list, unset or derived ones included.
pub fn param_list(at: u64, position: usize, list: &Param) -> Result<&[Param], AttrFault>
    ensures { as_reading result ≡ read_list at position list.now }
{
    match innermost(list) {
        Param::List(members) => Ok(members.as_slice()),
        _ => Err(AttrFault::BadAttribute { at, position }),
    }
}
