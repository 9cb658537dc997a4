ghost use Rattle.std.specs.Prelude.{◌≡◌, ◌≤◌, true, IsTrue, IfOk};
ghost use Rattle.std.specs.List.{list_any};
ghost use Rattle.spec_table.specs.Sections.{IsSimple};
ghost use Rattle.spec_entity.specs.Reads.{refusal_of, body_has_kind, has_kind, is_one_of, instance_of_kinds, named_instance, member_instance, wanted_value};
ghost use Rattle.spec_table.specs.Attributes.{attr_ref};

use ifc_kinds::Kind;
use spec_refusal::Refusal;
use spec_step::{Body, Instance, Param};
use spec_table::AttrFault;
use step_table::Table;
use step_text::bytes_at;

/// Why an element is refused of which an attribute is not read.
pub fn refusal_of(fault: AttrFault) -> Refusal
    ensures { result ≡ refusal_of fault }
{
    match fault {
        AttrFault::BadAttribute { at, position } => Refusal::BadAttribute { at, position },
        AttrFault::Dangling { at, number } => Refusal::Dangling { at, number },
        AttrFault::NumberTooLarge { at } => Refusal::NumberTooLarge { at },
    }
}

/// Whether the instance has one entry, with the keyword of the kind.
fn instance_has_kind(source: &[u8], instance: &Instance, kind: Kind) -> bool
    ensures { result ≡ body_has_kind source.now kind instance.now.body }
{
    match &instance.body {
        Body::Simple(entry) => {
            let word = bytes_at(source, entry.keyword);
            kind.keyword().as_bytes().eq_ignore_ascii_case(word)
        }
        Body::Complex(_) => false,
    }
}

/// Whether the instance of a number has one entry, with the keyword of the kind.
pub fn has_kind(table: &Table<'_>, number: u64, kind: Kind) -> bool
    ensures value { result ≡ has_kind table.now number kind }
    ensures simple { IsTrue result → IsSimple table.now number }
{
    match table.get(number) {
        Some(instance) => instance_has_kind(table.source(), instance, kind),
        None => false,
    }
}

/// Whether the instance has one entry, with the keyword of some of the kinds.
fn has_some_kind(source: &[u8], instance: &Instance, kinds: &[Kind]) -> bool
    ensures { result ≡ list_any (λ kind. body_has_kind source.now kind instance.now.body) kinds.now }
{
    kinds
        .iter()
        .any(|kind| instance_has_kind(source, instance, *kind))
}

/// Whether the instance of a number has some of the kinds.
fn has_one_of(table: &Table<'_>, kinds: &[Kind], number: u64) -> bool
    ensures { result ≡ is_one_of table.now kinds.now number }
{
    match table.get(number) {
        Some(instance) => has_some_kind(table.source(), instance, kinds),
        None => false,
    }
}

/// Whether the instance has one of these kinds.
pub fn is_one_of(table: &Table<'_>, kinds: &[Kind], number: u64) -> bool
    ensures value { result ≡ is_one_of table.now kinds.now number }
    ensures simple { IsTrue result → IsSimple table.now number }
{
    has_one_of(table, kinds, number)
}

/// The instance, if it has one of these kinds.
pub fn instance_of_kinds(table: &Table<'_>, kinds: &[Kind], number: u64) -> Result<u64, Refusal>
    ensures value { result ≡ instance_of_kinds table.now kinds.now number }
    ensures simple { IfOk result (IsSimple table.now) }
{
    if is_one_of(table, kinds, number) {
        return Ok(number);
    }
    Err(Refusal::Unsupported { at: number })
}

/// The instance that a wanted attribute names.
pub fn wanted_instance(table: &Table<'_>, at: u64, position: usize) -> Result<u64, Refusal>
    requires simple { IsSimple table.now at }
    requires counted { 1 ≤ position }
    ensures { result ≡ wanted_value at position (attr_ref table.now at position) }
{
    match table.attr_ref(at, position) {
        Ok(Some(number)) => Ok(number),
        Ok(None) => Err(Refusal::BadAttribute { at, position }),
        Err(fault) => Err(refusal_of(fault)),
    }
}

/// The instance that a wanted attribute names, of one of these kinds.
pub fn named_instance(
    table: &Table<'_>,
    kinds: &[Kind],
    at: u64,
    position: usize,
) -> Result<u64, Refusal>
    requires simple { IsSimple table.now at }
    requires counted { 1 ≤ position }
    ensures value { result ≡ named_instance table.now kinds.now at position }
    ensures simple { IfOk result (IsSimple table.now) }
{
    instance_of_kinds(table, kinds, wanted_instance(table, at, position)?)
}

/// The instance that a member of a list names.
pub fn member_instance(
    table: &Table<'_>,
    at: u64,
    position: usize,
    p: &Param,
) -> Result<u64, Refusal>
    ensures { result ≡ member_instance table.now at position p.now }
{
    match table.param_ref(at, position, p) {
        Ok(number) => Ok(number),
        Err(fault) => Err(refusal_of(fault)),
    }
}
