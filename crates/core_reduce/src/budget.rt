//! The units that head forms and comparisons take.
ghost use Rattle.std.specs.Prelude.{◌≡◌, ◌+◌, ◌<◌, ◌↔◌, IsTrue};

/// The units that are left.
#[derive(Debug, Drop)]
pub struct Budget {
    pub left: u64,
}

impl Budget {
    /// A budget of so many units. One is taken by each contraction, each unfolding and each pair that is compared.
    pub fn new(units: u64) -> Budget
        ensures { result.left ≡ units }
    {
        Budget { left: units }
    }

    /// Takes one unit; false exactly where none is left.
    pub fn take(&mut self) -> bool
        ensures taken { IsTrue result → self.old.left ≡ self.new.left + 1 }
        ensures any { IsTrue result ↔ 0 < self.old.left }
        ensures none { self.old.left ≡ 0 → self.new.left ≡ 0 }
    {
        if self.left == 0 {
            return false;
        }
        self.left -= 1;
        true
    }
}
