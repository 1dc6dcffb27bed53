ghost use Rattle.std.specs.Prelude.{◌≡◌};
ghost use Rattle.rb_engine.specs.Words.{look_word, reply_word, start_word};

use crate::request::{LookFault, Reply};
use crate::start::StartFault;
use rb_tree::variant_name;

impl Reply {
    pub fn word(&self) -> &'static str
        ensures { result.now ≡ reply_word self.now }
    {
        variant_name!(self: Reply {
            Done, Names(_), BadApp, Reserved, BadLocale, BadText, BadFile, Exists, Absent, Full,
            Memory,
        })
    }
}

impl LookFault {
    pub fn word(self) -> &'static str
        ensures { result.now ≡ look_word self }
    {
        variant_name!(self: LookFault {
            BadApp, Reserved, BadLocale, BadPath, PathTooLong, Chain, BadParent, NoBundle, Missing,
            AliasText, AliasPackage, TooManyAliases,
        })
    }
}

impl StartFault {
    pub fn word(self) -> &'static str
        ensures { result.now ≡ start_word self }
    {
        variant_name!(self: StartFault { BadText(_), BadFile(_), Twice(_), Memory })
    }
}
