ghost use Rattle.std.specs.Prelude.{◌≡◌};
ghost use Rattle.rb_locales.specs.Words.{bad_locale};

use crate::fault::BadLocale;

impl BadLocale {
    /// Returns the error code `BadLocale`.
    pub fn word(self) -> &'static str
        ensures { result.now ≡ bad_locale }
    {
        "BadLocale"
    }
}
