use obj_lines::{Line, read_line};
use spec_refusal::Refusal;
use spec_space::Vector;
use std::alloc::{AllocError, Global};
use std::test::Fail;

fn is_printed(alloc: Global, text: &str, place: [i128; 3]) -> Result<bool, AllocError> {
    match read_line(alloc, text.as_bytes())? {
        Some(Line::Printed(found)) => Ok(found == place),
        _ => Ok(false),
    }
}

fn is_face(alloc: Global, text: &str, plane: [i128; 4]) -> Result<bool, AllocError> {
    match read_line(alloc, text.as_bytes())? {
        Some(Line::Face(found)) => Ok(found == plane),
        _ => Ok(false),
    }
}

fn is_volume(alloc: Global, text: &str, six: i128) -> Result<bool, AllocError> {
    match read_line(alloc, text.as_bytes())? {
        Some(Line::Volume(found)) => Ok(found == Some(six)),
        _ => Ok(false),
    }
}

fn are_indices(alloc: Global, text: &str, numbers: &[usize]) -> Result<bool, AllocError> {
    match read_line(alloc, text.as_bytes())? {
        Some(Line::Indices(found)) => Ok(found.as_slice() == numbers),
        _ => Ok(false),
    }
}

/// Whether a line names element 5, whose shell of #7 is open between these corners.
fn is_open_shell(alloc: Global, text: &str, from: Vector, to: Vector) -> Result<bool, AllocError> {
    match read_line(alloc, text.as_bytes())? {
        Some(Line::Refused(5, Refusal::OpenShell { at, from: a, to: b })) => {
            Ok(at == 7 && a == from && b == to)
        }
        _ => Ok(false),
    }
}

fn is_line(alloc: Global, text: &str) -> Result<bool, AllocError> {
    Ok(read_line(alloc, text.as_bytes())?.is_some())
}

#[test]
fn reads_lines(rt: HostRuntime) -> Result<(), Fail> {
    let alloc = rt.alloc();
    let place = [-1, 12_000_000, 100_000_000_000_000];
    assert!(rt; is_printed(alloc, "v -0.000001 12.000000 100000000.000000", place)?);
    assert!(rt; is_face(alloc, "#p 0 0 -1 -5", [0, 0, -1, -5])?);
    let least = "#vol6 -170141183460469231731687303715884105728";
    assert!(rt; is_volume(alloc, least, i128::MIN)?);
    let numbers = [1, usize::MAX, 7];
    assert!(rt; are_indices(alloc, "f 1 18446744073709551615 7", &numbers)?);
    Ok(())
}

#[test]
fn reads_an_open_shell(rt: HostRuntime) -> Result<(), Fail> {
    let far = 1 << 20;
    let from = Vector {
        x: far,
        y: 0,
        z: -far,
    };
    let to = Vector { x: 0, y: 1, z: 2 };
    let text = "#refused 5 E11 OpenShell #7 1048576,0,-1048576 0,1,2";
    assert!(rt; is_open_shell(rt.alloc(), text, from, to)?);
    Ok(())
}

/// Lines of a page, one after the other.
const LINES: &str = "# ifcexact 1
# grid 10000
o 123456789012345678
#c 6 -2 0 3
f
#vol6 none
#refused 5 E9 ElementTooLarge 4097
# end";

/// Lines that stand in no page.
const OTHERS: &str = "
# grid 01
# grid +1
# grid 10001
o 1234567890123456789
#c 2 4 6 8
#c 1 2 3 4 \n#c 1 2 -0 4
#c 1 2 3
v 1.0 2.000000 3.000000
v -0.000000 2.000000 3.000000
#p 0 0 0 1
#refused 5 E11 OpenShell #7 1048577,0,0 0,1,2
f 18446744073709551616
f 1 ";

#[test]
fn tells_lines_from_other_texts(rt: HostRuntime) -> Result<(), Fail> {
    for text in LINES.split('\n') {
        assert!(rt; is_line(rt.alloc(), text)?);
    }
    for text in OTHERS.split('\n') {
        assert!(rt; !is_line(rt.alloc(), text)?);
    }
    assert!(rt; !is_line(rt.alloc(), "#skipped 1\n")?);
    Ok(())
}
