//! The units that contractions and unfoldings take.
ghost use Rattle.std.specs.Prelude.{◌≡◌, ◌+◌, MatchResult};
ghost use Rattle.elab_reduce.specs.declared.stop.ElabStop.TheVariants.{Spent};

use crate::stop::ElabStop;

/// The units that are left.
#[derive(Drop)]
pub(crate) struct Budget {
    pub(crate) left: u64,
}

impl Budget {
    /// Takes one unit, unless none is left.
    pub(crate) fn take(&mut self) -> Result<(), ElabStop>
        ensures { MatchResult result (λ _. self.old.left ≡ self.new.left + 1) (λ stop. stop ≡ Spent × self.old.left ≡ 0) }
    {
        if self.left == 0 {
            return Err(ElabStop::Spent);
        }
        self.left -= 1;
        Ok(())
    }
}
