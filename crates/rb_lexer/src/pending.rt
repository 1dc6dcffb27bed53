ghost use Rattle.std.specs.Prelude.{◌≡◌, OnOk};
ghost use Rattle.rb_lexer.specs.Merging.{joined};

use rb_tree::UnitList;
use std::alloc::AllocError;

/// A text that the next piece may still join.
#[derive(Drop)]
pub struct PendingText {
    pub units: UnitList,
    pub is_quoted: bool,
    pub first: usize,
    pub past: usize,
    pub line: u64,
}

impl PendingText {
    pub fn join(&mut self, next: &PendingText) -> Result<(), AllocError>
        ensures { OnOk result (self.new ≡ joined self.old next.now) }
    {
        let joins_directly = self.units.is_empty() || self.is_quoted && next.is_quoted;
        if !joins_directly {
            self.units.add(0x20)?;
        }
        self.units.extend(&next.units)?;
        self.is_quoted = next.is_quoted;
        self.past = next.past;
        Ok(())
    }
}
