ghost use Rattle.std.specs.Prelude.{◌≤◌, IsTrue};
ghost use Rattle.spec_table.specs.Sections.{IsSimple};

use crate::asked::{Asked, answers};
use spec_step::{Body, Instance, Param};
use spec_table::AttrFault;
use std::alloc::{AllocError, Global};
use step_table::Table;

const SAMPLE: &str = "ISO-10303-21;HEADER;FILE_SCHEMA(('IFC4'));ENDSEC;DATA;
#7=ONE($,*,#9,1.5,-2,'it''s',.Area.,(#9,$,3.,A(B(4)),#8,1.E10,(#9)),IFCLENGTHMEASURE(2.5),A(B(#9)),
A($),\"0F\",#8,1.E10,A('t'),A((1,2)),A(B(.T.)),());
#009=TWO();
#13=(A()B(1));
ENDSEC;END-ISO-10303-21;";

/// A call that reads an attribute.
#[derive(Clone, Copy, Debug)]
pub(crate) enum Reading {
    Ref,
    Real,
    Enum,
    Text,
    List,
}

/// A fault of #7, where `-` stands for another kind at the position that was asked.
fn push_fault(text: &mut String, fault: AttrFault, asked: usize) -> Result<(), AllocError> {
    match fault {
        AttrFault::BadAttribute { at, position } => {
            if at == 7 && position == asked {
                text.push_str("- ")
            } else {
                write!(text, "BadAttribute {at} {position} ")
            }
        }
        AttrFault::Dangling { at, number } => write!(text, "Dangling {at} {number} "),
        AttrFault::NumberTooLarge { at } => write!(text, "NumberTooLarge {at} "),
    }
}

fn push_bytes(
    text: &mut String,
    reading: Result<Option<&[u8]>, AttrFault>,
    asked: usize,
) -> Result<(), AllocError> {
    match reading {
        Ok(Some(bytes)) => write!(text, "{} ", std::str::from_utf8(bytes).unwrap_or("?")),
        Ok(None) => text.push_str("unset "),
        Err(fault) => push_fault(text, fault, asked),
    }
}

/// What an attribute of #7 is read as.
fn push_reading(
    text: &mut String,
    table: &Table<'_>,
    reading: Reading,
    position: usize,
) -> Result<(), AllocError>
    requires simple { IsSimple table.now 7 }
    requires counted { 1 ≤ position }
{
    match reading {
        Reading::Ref => match table.attr_ref(7, position) {
            Ok(Some(number)) => write!(text, "{number} "),
            Ok(None) => text.push_str("unset "),
            Err(fault) => push_fault(text, fault, position),
        },
        Reading::Real => match table.attr_real(7, position) {
            Ok(Some(units)) => write!(text, "{units} "),
            Ok(None) => text.push_str("unset "),
            Err(fault) => push_fault(text, fault, position),
        },
        Reading::Enum => push_bytes(text, table.attr_enum(7, position), position),
        Reading::Text => push_bytes(text, table.attr_text(7, position), position),
        Reading::List => match table.attr_list(7, position) {
            Ok(Some(members)) => write!(text, "{} members ", members.len()),
            Ok(None) => text.push_str("unset "),
            Err(fault) => push_fault(text, fault, position),
        },
    }
}

fn is_simple(table: &Table<'_>, at: u64) -> bool
    ensures { IsTrue result → IsSimple table.now at }
{
    match table.get(at) {
        Some(
            Instance {
                body: Body::Simple(_),
                ..
            },
        ) => true,
        _ => false,
    }
}

/// What the attributes of #7 are read as, from position 1 to one behind the last.
pub(crate) fn readings_text(
    alloc: Global,
    table: &Table<'_>,
    reading: Reading,
) -> Result<String, AllocError> {
    let mut text = String::new(alloc);
    if is_simple(table, 7) {
        for position in 1..20 {
            push_reading(&mut text, table, reading, position)?;
        }
    }
    Ok(text)
}

/// What the readings answer at these positions; `-` stands for another kind.
const READINGS: [(Reading, &str); 5] = [
    (
        Reading::Ref,
        "unset unset 9 - - - - - - 9 unset - Dangling 7 8 - - - - - unset ",
    ),
    (
        Reading::Real,
        "unset unset - 1500000000000 -2000000000000 - - - 2500000000000 - unset - - \
            NumberTooLarge 7 - - - - unset ",
    ),
    (
        Reading::Enum,
        "unset unset - - - - Area - - - unset - - - - - T - unset ",
    ),
    (
        Reading::Text,
        "unset unset - - - it''s - - - - unset - - - t - - - unset ",
    ),
    (
        Reading::List,
        "unset unset - - - - - 7 members - - unset - - - - 2 members - 0 members unset ",
    ),
];

#[test]
fn reads_attributes(rt: HostRuntime) {
    for (reading, want) in READINGS {
        assert!(rt;
            answers(rt.alloc(), Asked::Readings(reading), SAMPLE, want),
            "at {reading:?}"
        );
    }
}

/// What a member of the list at position 8 of #7 is read as.
fn push_member(text: &mut String, table: &Table<'_>, member: &Param) -> Result<(), AllocError> {
    match table.param_ref(7, 8, member) {
        Ok(number) => write!(text, "#{number} "),
        Err(AttrFault::BadAttribute { .. }) => match table.param_real(7, 8, member) {
            Ok(units) => write!(text, "{units} "),
            Err(fault) => push_fault(text, fault, 8),
        },
        Err(fault) => push_fault(text, fault, 8),
    }
}

/// The members of the list at position 8 of #7, one by one.
pub(crate) fn members_text(alloc: Global, table: &Table<'_>) -> Result<String, AllocError> {
    let mut text = String::new(alloc);
    if is_simple(table, 7) {
        if let Ok(Some(members)) = table.attr_list(7, 8) {
            for member in members {
                push_member(&mut text, table, member)?;
            }
        }
    }
    Ok(text)
}

#[test]
fn reads_members(rt: HostRuntime) {
    let want = "#9 - 3000000000000 4000000000000 Dangling 7 8 NumberTooLarge 7 - ";
    assert!(rt; answers(rt.alloc(), Asked::Members, SAMPLE, want));
}

/// The source of a table.
pub(crate) fn source_text(alloc: Global, table: &Table<'_>) -> Result<String, AllocError> {
    String::from_str(alloc, std::str::from_utf8(table.source()).unwrap_or("?"))
}

/// Whether an instance is found by its number.
fn is_found(table: &Table<'_>, instance: &Instance) -> bool {
    match table.get(instance.number) {
        Some(found) => found.number == instance.number && found.from == instance.from,
        None => false,
    }
}

/// The numbers of the instances in the order of the file; `?` stands for one that is not found by its number.
pub(crate) fn instances_text(alloc: Global, table: &Table<'_>) -> Result<String, AllocError> {
    let mut text = String::new(alloc);
    for instance in table.instances() {
        if is_found(table, instance) {
            write!(text, "#{} ", instance.number)?;
        } else {
            text.push_str("? ")?;
        }
    }
    Ok(text)
}

/// The number of the instance that a number finds.
pub(crate) fn found_text(
    alloc: Global,
    table: &Table<'_>,
    number: u64,
) -> Result<String, AllocError> {
    match table.get(number) {
        Some(found) => format!(in alloc; "#{}", found.number),
        None => String::from_str(alloc, "none"),
    }
}

#[test]
fn finds_instances(rt: HostRuntime) {
    assert!(rt; answers(rt.alloc(), Asked::Source, SAMPLE, SAMPLE));
    assert!(rt; answers(rt.alloc(), Asked::Instances, SAMPLE, "#7 #9 #13 "));
    for number in [0, 1, 6, 8, 10, 12, 14, 999_999_999_999_999_999] {
        assert!(rt;
            answers(rt.alloc(), Asked::Found(number), SAMPLE, "none"),
            "at {number}"
        );
    }
}
