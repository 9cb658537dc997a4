/// Two ends along an axis, in nanometres.
#[derive(Clone, Copy)]
pub struct Span {
    pub lower: i128,
    pub upper: i128,
}
