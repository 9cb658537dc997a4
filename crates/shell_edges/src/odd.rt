ghost use Rattle.std.specs.Prelude.{◌≡◌, ◌↔◌, ◌&&◌, IfOk, IsNone, OnOk};
ghost use Rattle.std.specs.Ordering.{is_eq};
ghost use Rattle.std.specs.BTreeSet.{contains};
ghost use Rattle.spec_solid.specs.Triangles.{differ};
ghost use Rattle.spec_shell.specs.Edges.{AreEven, is_before, joins};
ghost use Rattle.spec_shell.specs.Edges as shell;
ghost use Rattle.shell_edges.specs.declared.place.Place.{Place};
ghost use Rattle.shell_edges.specs.Odd.{vector_of, edge_of, joint_cmp};

use crate::place::Place;
use spec_space::Vector;
use std::alloc::{AllocError, Global};
use std::cmp::Ordering;
use std::collections::BTreeSet;

/// The least edge between two places that an odd number of the edges joins, from the earlier one of them, if the shell
/// of these edges is open: places come in the order of x, then of y, then of z, and edges in that of their first place,
/// then of their second (a rule of this project). `None` exactly where each two places are joined by an even number of
/// the edges.
///
/// # Errors
///
/// Want of memory.
pub fn open_edge(
    alloc: Global,
    edges: &[(Vector, Vector)],
) -> Result<Option<(Vector, Vector)>, AllocError>
    ensures edge { IfOk result (λ edge. edge ≡ shell.open_edge edges.now) }
    ensures closed { IfOk result (λ edge. IsNone edge ↔ AreEven edges.now) }
{
    let mut odd = BTreeSet::new(alloc);
    for edge in edges {
        count(&mut odd, *edge)?;
    }
    match odd.first() {
        Some(least) => Ok(Some((vector(least.0), vector(least.1)))),
        None => Ok(None),
    }
}

fn count(odd: &mut BTreeSet<(Place, Place)>, edge: (Vector, Vector)) -> Result<(), AllocError>
    ensures counted { OnOk result ((k : Place × Place) → contains joint_cmp odd.new k
        ≡ differ (is_before (edge_of k).0 (edge_of k).1 && joins (edge_of k).0 (edge_of k).1 edge) (contains joint_cmp odd.old k)) }
{
    let first = place(edge.0);
    let second = place(edge.1);
    match first.cmp(&second) {
        Ordering::Less => toggle(odd, (first, second)),
        Ordering::Equal => Ok(()),
        Ordering::Greater => toggle(odd, (second, first)),
    }
}

fn toggle(odd: &mut BTreeSet<(Place, Place)>, edge: (Place, Place)) -> Result<(), AllocError>
    ensures toggled { OnOk result ((k : Place × Place) → contains joint_cmp odd.new k
        ≡ differ (is_eq (joint_cmp edge k)) (contains joint_cmp odd.old k)) }
{
    if !odd.remove(&edge) {
        odd.insert(edge)?;
    }
    Ok(())
}

fn place(v: Vector) -> Place
    ensures { vector_of result ≡ v }
{
    Place {
        x: v.x,
        y: v.y,
        z: v.z,
    }
}

fn vector(p: Place) -> Vector
    ensures { result ≡ vector_of p }
{
    Vector {
        x: p.x,
        y: p.y,
        z: p.z,
    }
}
