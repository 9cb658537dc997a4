use ix_place::Dir;
use ix_profile::{Loop, Loops, hollow, i_shape, rectangle};
use spec_space::Vector;
use std::alloc::{AllocError, Global};

/// Points of the plane z = 0.
fn planar(alloc: Global, numbers: &[(i16, i16)]) -> Result<Vec<Vector>, AllocError> {
    let mut points = Vec::new(alloc);
    for (x, y) in numbers {
        points.push(Vector {
            x: *x as i128,
            y: *y as i128,
            z: 0,
        })?;
    }
    Ok(points)
}

/// How many loops there are, and then of each the number of its corners and the corners.
fn loops_text(alloc: Global, loops: &Loops) -> Result<String, AllocError> {
    let mut text = format!(in alloc; "{}", loops.len())?;
    for found in loops.as_slice() {
        write!(text, "; {}:", found.len())?;
        for p in found.points() {
            write!(text, " {},{},{}", p.x, p.y, p.z)?;
        }
    }
    Ok(text)
}

/// A profile by its name.
fn profile(alloc: Global, name: &str) -> Result<Loops, AllocError> {
    match name {
        "hollow" => hollow(alloc, 1000, 1000, 100),
        "i shape" => i_shape(alloc, 300, 500, 20, 30),
        "odd" => rectangle(alloc, 1, 3),
        _ => {
            let along_y = Vector {
                x: 0,
                y: 1_000_000_000,
                z: 0,
            };
            let at = Vector { x: 10, y: 20, z: 0 };
            Ok(rectangle(alloc, 1, 3)?.placed(&at, Some(Dir { v: along_y })))
        }
    }
}

/// Profiles by name, and their loops.
const PROFILES: [(&str, &str); 4] = [
    (
        "hollow",
        "2; 4: -500,-500,0 500,-500,0 500,500,0 -500,500,0; \
            4: -400,-400,0 400,-400,0 400,400,0 -400,400,0",
    ),
    (
        "i shape",
        "1; 12: -150,-250,0 150,-250,0 150,-220,0 10,-220,0 10,220,0 150,220,0 \
            150,250,0 -150,250,0 -150,220,0 -10,220,0 -10,-220,0 -150,-220,0",
    ),
    ("odd", "1; 4: 0,-1,0 1,-1,0 1,2,0 0,2,0"),
    ("odd and placed", "1; 4: 11,20,0 11,21,0 8,21,0 8,20,0"),
];

/// Whether the loops of a profile are as told.
fn is_profile(alloc: Global, name: &str, want: &str) -> Result<bool, AllocError> {
    let loops = profile(alloc, name)?;
    Ok(loops_text(alloc, &loops)?.as_str() == want)
}

#[test]
fn makes_profiles(rt: HostRuntime) -> Result<(), AllocError> {
    for (name, want) in &PROFILES {
        assert!(rt; is_profile(rt.alloc(), name, want)?, "at {name}");
    }
    Ok(())
}

/// The loop of a closed curve.
fn curve_text(alloc: Global, curve: &[(i16, i16)]) -> Result<String, AllocError> {
    let Some(found) = Loop::of_curve(planar(alloc, curve)?) else {
        return String::from_str(alloc, "no loop");
    };
    let mut loops = Loops::new(alloc);
    loops.push(found)?;
    loops_text(alloc, &loops)
}

/// The loops of closed curves, or the first that has none.
fn curves_text(alloc: Global, curves: &[&[(i16, i16)]]) -> Result<String, AllocError> {
    let mut loops = Vec::new(alloc);
    for curve in curves {
        let points = planar(alloc, curve)?;
        loops.push(Loop { points })?;
    }
    match Loops::of_curves(alloc, &loops) {
        Ok(found) => loops_text(alloc, &found),
        Err(fault) => format!(in alloc; "{fault:?}"),
    }
}

/// Closed curves, and their loops.
const CURVES: [(&[(i16, i16)], &str); 2] = [
    (
        &[(0, 0), (4, 0), (4, 1), (1, 1), (1, 3), (0, 3), (0, 0)],
        "1; 6: 0,0,0 4,0,0 4,1,0 1,1,0 1,3,0 0,3,0",
    ),
    (&[(0, 0), (4, 0), (0, 0), (4, 0)], "no loop"),
];

#[test]
fn opens_a_closed_curve(rt: HostRuntime) -> Result<(), AllocError> {
    for (curve, want) in &CURVES {
        assert!(rt; curve_text(rt.alloc(), curve)?.as_str() == *want);
    }
    Ok(())
}

const TRIANGLE: &[(i16, i16)] = &[(0, 0), (4, 0), (0, 3), (0, 0)];

/// Some closed curves, and their loops.
const SETS_OF_CURVES: [(&[&[(i16, i16)]], &str); 2] = [
    (&[TRIANGLE], "1; 3: 0,0,0 4,0,0 0,3,0"),
    (
        &[TRIANGLE, &[(0, 0), (4, 0), (0, 0)]],
        "DegenerateLoop { which: 1 }",
    ),
];

#[test]
fn opens_closed_curves(rt: HostRuntime) -> Result<(), AllocError> {
    for (curves, want) in &SETS_OF_CURVES {
        assert!(rt; curves_text(rt.alloc(), curves)?.as_str() == *want);
    }
    Ok(())
}
