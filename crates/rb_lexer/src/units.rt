ghost use Rattle.std.specs.Prelude.{◌≡◌};

use rb_tree::UnitList;
use std::alloc::AllocError;

/// A sink for the units of a piece, so that one reader both checks a text and builds it.
pub trait UnitSink {
    ghost use Rattle.std.specs.Prelude.{◌++◌, ◌∷◌, [], ℕ, List, OnOk};

    /// The units that were pushed.
    ghost has: { Self → List ℕ → Type 0 };

    fn push(&mut self, unit: u16) -> Result<(), AllocError>
        ensures { (us : List ℕ) → has self.old us → OnOk result (has self.new (us ++ unit ∷ [])) };
}

/// A sink that drops all units, for checking.
#[derive(Clone, Copy)]
pub struct NoUnits;

impl UnitSink for NoUnits {
    ghost has = { λ _ _. Unit {0} };

    fn push(&mut self, _unit: u16) -> Result<(), AllocError> {
        Ok(())
    }
}

impl UnitSink for UnitList {
    ghost has = { λ s us. s ≡ us };

    fn push(&mut self, unit: u16) -> Result<(), AllocError> {
        self.add(unit)
    }
}
