use crate::asked::{Asked, answers, grid_of, holds};
use entity_reader::has_kind;
use ifc_kinds::Kind;
use ifc_numbers::{
    boolean, if_direction, if_plane_direction, length_unit, named_point, number_if_set, positive,
    zero,
};
use std::alloc::{AllocError, Global};
use step_table::Table;

const SAMPLE: &str = "ISO-10303-21;HEADER;FILE_SCHEMA(('IFC4'));ENDSEC;DATA;
#1=IFCCONVERSIONBASEDUNIT(*,.LENGTHUNIT.,'FOOT',#4);
#2=IFCUNITASSIGNMENT((#9,#1));
#3=IFCPROJECT('1',$,'p',$,$,$,$,(),#2);
#4=IFCMEASUREWITHUNIT(IFCLENGTHMEASURE(304.8),#5);
#5=IFCSIUNIT(*,.LENGTHUNIT.,.MILLI.,.Metre.);
#6=IFCBLOCK(#7,#8,$,2.,0.,.t.);
#7=IFCCARTESIANPOINT((1.,-2.5,3.));
#8=IFCDIRECTION((3.,4.,12.));
ENDSEC;END-ISO-10303-21;";

/// The unit of length in units of 10^-9 metres, or why there is none.
pub(crate) fn unit_text(alloc: Global, table: &Table<'_>) -> Result<String, AllocError> {
    match length_unit(table) {
        Ok(unit) => format!(in alloc; "{}", unit.nano),
        Err(fault) => format!(in alloc; "{fault:?}"),
    }
}

const UNITS: &str = "\
'p' => 'p' => 304800000
.MILLI. => $ => 304800000000
.MILLI. => .EXA. => NoLengthUnit
304.8 => 0. => NoLengthUnit
#1)); => #5)); => 1000000
IFCPROJECT => IFCPROJEKT => NoProject";

#[test]
fn finds_units(rt: HostRuntime) {
    for row in UNITS.lines() {
        assert!(rt; holds(rt.alloc(), Asked::Unit, SAMPLE, row), "at {row}");
    }
}

/// A reading of an attribute of the block of the sample.
#[derive(Clone, Copy, Debug)]
pub(crate) enum Value {
    Point,
    Direction,
    PlaneDirection,
    Unset,
    Number,
    Positive,
    NotPositive,
    NotZero,
    Boolean,
}

/// What an attribute of the block of the sample is read as.
pub(crate) fn value_text(
    alloc: Global,
    table: &Table<'_>,
    value: Value,
) -> Result<String, AllocError> {
    let Some(g) = grid_of(table) else {
        return String::from_str(alloc, "no unit");
    };
    if !has_kind(table, 6, Kind::Block) {
        return String::from_str(alloc, "no block");
    }
    match value {
        Value::Point => format!(in alloc; "{:?}", named_point(table, &g, 6, 1)),
        Value::Direction => format!(in alloc; "{:?}", if_direction(table, 6, 2)),
        Value::PlaneDirection => format!(in alloc; "{:?}", if_plane_direction(table, 6, 2)),
        Value::Unset => format!(in alloc; "{:?}", if_direction(table, 6, 3)),
        Value::Number => format!(in alloc; "{:?}", number_if_set(table, 6, 4)),
        Value::Positive => format!(in alloc; "{:?}", positive(table, &g, 6, 4)),
        Value::NotPositive => format!(in alloc; "{:?}", positive(table, &g, 6, 5)),
        Value::NotZero => format!(in alloc; "{:?}", zero(table, 6, 4)),
        Value::Boolean => format!(in alloc; "{:?}", boolean(table, 6, 6)),
    }
}

const VALUES: [(Value, &str); 9] = [
    (
        Value::Point,
        "Ok(Vector { x: 304800000, y: -762000000, z: 914400000 })",
    ),
    (
        Value::Direction,
        "Ok(Some(Dir { v: Vector { x: 230769231, y: 307692308, z: 923076923 } }))",
    ),
    (
        Value::PlaneDirection,
        "Ok(Some(Dir { v: Vector { x: 600000000, y: 800000000, z: 0 } }))",
    ),
    (Value::Unset, "Ok(None)"),
    (Value::Number, "Ok(Some(2000000000000))"),
    (Value::Positive, "Ok(609600000)"),
    (
        Value::NotPositive,
        "Err(BadAttribute { at: 6, position: 5 })",
    ),
    (Value::NotZero, "Err(Curved { at: 6 })"),
    (Value::Boolean, "Ok(true)"),
];

#[test]
fn reads_attributes(rt: HostRuntime) {
    for (value, want) in VALUES {
        assert!(rt;
            answers(rt.alloc(), Asked::Value(value), SAMPLE, want),
            "at {value:?}"
        );
    }
}
