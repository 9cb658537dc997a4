ghost use Rattle.std.specs.Prelude.{◌≤◌, ◌*◌, ◌^◌};

/// What a page counts: its elements by what became of them, and the corners and faces of all. The
/// lines of refused elements stand on the page and again in the report.
#[derive(Drop)]
pub struct Tally {
    pub elements: u128,
    pub converted: u128,
    pub skipped: u128,
    pub refused: u128,
    pub corners: u128,
    pub faces: u128,
    pub refused_lines: Vec<u8>,
    ghost corners_bound: { corners ≤ elements * 2 ^ 64 },
    ghost faces_bound: { faces ≤ elements * 2 ^ 64 },
    ghost converted_bound: { converted ≤ elements },
    ghost skipped_bound: { skipped ≤ elements },
    ghost refused_bound: { refused ≤ elements },
}
