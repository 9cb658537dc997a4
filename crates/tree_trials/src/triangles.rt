ghost use Rattle.grid_solid.specs.Triangles.{triangle_of, IsNear};
ghost use Rattle.ray_law.specs.Ranges.{AreSteps};

use grid_solid::GridTriangle;
use plane_core::Plane;
use spec_space::Vector;
use triangle_planes::{Forms, forms_of};

/// A place in grid steps.
type Place = [i16; 3];

fn vector(place: Place) -> Vector
    ensures { AreSteps result }
{
    let [x, y, z] = place;
    Vector {
        x: i128::from(x),
        y: i128::from(y),
        z: i128::from(z),
    }
}

fn triangle(places: [Place; 3]) -> GridTriangle
    ensures { IsNear (triangle_of result) }
{
    let [a, b, c] = places;
    GridTriangle {
        a: vector(a),
        b: vector(b),
        c: vector(c),
    }
}

fn numbers(plane: &Plane) -> [i128; 4] {
    [plane.a, plane.b, plane.c, plane.d]
}

/// Whether the planes of a triangle have these numbers.
fn are(forms: &Forms, ab: [i128; 4], bc: [i128; 4], ca: [i128; 4], through: [i128; 4]) -> bool {
    match forms {
        Forms::Reduced(forms) => {
            numbers(&forms.ab) == ab
                && numbers(&forms.bc) == bc
                && numbers(&forms.ca) == ca
                && numbers(&forms.through) == through
        }
        _ => false,
    }
}

#[test]
fn reduces_the_planes_of_a_triangle(rt: HostRuntime) {
    let forms = forms_of(&triangle([[0, 0, 1], [2000, 0, 1], [0, 2000, 1]]));
    assert!(rt;
        are(
            &forms,
            [0, 1, 0, 0],
            [1, 1, 0, 2000],
            [1, 0, 0, 0],
            [0, 0, 1, 1]
        )
    );
}

fn kind(forms: &Forms) -> &'static str {
    match forms {
        Forms::Upright => "upright",
        Forms::TooLarge => "too large",
        Forms::Reduced(_) => "reduced",
    }
}

/// Triangles and their kinds.
const KINDS: [([Place; 3], &str); 3] = [
    ([[0, 0, 0], [5, 5, 0], [5, 5, 9]], "upright"),
    ([[0, 0, 0], [8191, 0, 1], [0, 8192, 1]], "reduced"),
    ([[0, 0, 0], [8192, 0, 1], [0, 8193, 1]], "too large"),
];

#[test]
fn tells_upright_and_large_triangles(rt: HostRuntime) {
    for (places, want) in &KINDS {
        assert!(rt; kind(&forms_of(&triangle(*places))) == *want, "not {want}");
    }
}
