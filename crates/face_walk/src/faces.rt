use poly_frag::Frag;

/// A piece of the boundary of a tree: a fragment of one of the tree's planes, and the side of the plane that is outside.
#[derive(Drop)]
pub struct OutFace {
    pub frag: Frag,
    /// Whether the front of the plane is outside, so that the tree is false right in front of the fragment and true right
    /// behind it. Else it is the other way round.
    pub front_out: bool,
}
