use plane_core::Plane;

/// The reduced planes of a triangle that is not upright: the planes through its edges that are parallel to the z axis, and
/// its own plane.
#[derive(Clone, Copy)]
pub struct TriangleForms {
    pub ab: Plane,
    pub bc: Plane,
    pub ca: Plane,
    pub through: Plane,
}

/// What planes a triangle has.
#[derive(Clone, Copy)]
pub enum Forms {
    /// None: its normal has no part along z, as where its corners lie on one line.
    Upright,
    /// Four, of which some reduced form passes the sizes of planes.
    TooLarge,
    Reduced(TriangleForms),
}
