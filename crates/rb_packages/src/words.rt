ghost use Rattle.std.specs.Prelude.{◌≡◌};
ghost use Rattle.rb_packages.specs.Words.{app_word, pack_word, draft_word};

use crate::app::AppFault;
use crate::fault::{DraftFault, PackFault};
use rb_tree::variant_name;

impl AppFault {
    /// Returns the error code, which is the variant's name.
    pub fn word(self) -> &'static str
        ensures { result.now ≡ app_word self }
    {
        variant_name!(self: AppFault { BadApp, Reserved })
    }
}

impl PackFault {
    pub fn word(self) -> &'static str
        ensures { result.now ≡ pack_word self }
    {
        variant_name!(self: PackFault { Twice, Exists, Full, Memory })
    }
}

impl DraftFault {
    /// Returns the error code, which is the variant's name.
    pub fn word(self) -> &'static str
        ensures { result.now ≡ draft_word self }
    {
        variant_name!(self: DraftFault { Absent, Full, Memory })
    }
}
