ghost use Rattle.std.specs.Prelude.{◌≡◌};
ghost use Rattle.rb_parents.specs.Words.{parents_word, trail_word};

use crate::fault::{ParentsFault, TrailFault};
use rb_tree::variant_name;

impl ParentsFault {
    pub fn word(self) -> &'static str
        ensures { result.now ≡ parents_word self }
    {
        variant_name!(self: ParentsFault { Shape, BadLocale, TwoParents, Memory })
    }
}

impl TrailFault {
    pub fn word(self) -> &'static str
        ensures { result.now ≡ trail_word self }
    {
        variant_name!(self: TrailFault { Chain, BadParent })
    }
}
