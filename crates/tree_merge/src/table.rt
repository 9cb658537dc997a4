ghost use Rattle.std.specs.Prelude.{◌≡◌, ◌↔◌, IsTrue, Bool, true, false};

/// What a merge has at a point, by the values of the two trees there.
#[derive(Clone, Copy, PartialEq, Eq, Debug)]
pub struct Table4 {
    /// Where both trees are true.
    pub both: bool,
    /// Where the first tree alone is true.
    pub first_only: bool,
    /// Where the second tree alone is true.
    pub second_only: bool,
    /// Where both trees are false.
    pub neither: bool,
}

impl Table4 {
    ghost use Rattle.tree_merge.specs.Tables.{entry};

    /// What the table has for two values.
    pub fn value(self, first: bool, second: bool) -> bool
        ensures value { result ≡ entry self first second }
    {
        match (first, second) {
            (true, true) => self.both,
            (true, false) => self.first_only,
            (false, true) => self.second_only,
            (false, false) => self.neither,
        }
    }

    /// Whether the second value changes nothing where the first one is this.
    pub(crate) fn is_settled_by_first(self, first: bool) -> bool
        ensures value { IsTrue result ↔ (entry self first true ≡ entry self first false) }
    {
        self.value(first, true) == self.value(first, false)
    }

    /// Whether the first value changes nothing where the second one is this.
    pub(crate) fn is_settled_by_second(self, second: bool) -> bool
        ensures value { IsTrue result ↔ (entry self true second ≡ entry self false second) }
    {
        self.value(true, second) == self.value(false, second)
    }

    /// Whether the first value never changes anything.
    pub(crate) fn ignores_first(self) -> bool
        ensures value { IsTrue result ↔ ((entry self true true ≡ entry self false true) × (entry self true false ≡ entry self false false)) }
    {
        self.is_settled_by_second(true) && self.is_settled_by_second(false)
    }
}
