ghost use Rattle.std.specs.Prelude.{◌≡◌};
ghost use Rattle.rb_engine.specs.Place.{place_of as placed};

use crate::request::{LookFault, Reply};
use crate::same_name::same_name;
use rb_locales::Name;
use rb_packages::{App, AppFault};
use std::hash::{FoldHasher, Hasher};

/// The name of a stored bundle: its application and its locale.
#[derive(Clone, Copy)]
pub struct Place {
    pub app: App,
    pub name: Name,
}

/// Hashes an application's name and a locale's. A caller who finds names with equal hashes makes
/// lookups slower, as if nothing was kept of them.
pub(crate) fn hash_of(app: &[u8], locale: &[u8]) -> u64 {
    let mut hasher = FoldHasher::default();
    hasher.write(app);
    hasher.write(locale);
    hasher.finish()
}

#[derive(Clone, Copy, Debug, PartialEq, Eq)]
pub(crate) enum PlaceFault {
    BadApp,
    Reserved,
    BadLocale,
}

impl From<AppFault> for PlaceFault {
    ghost use Rattle.rb_engine.specs.Place.{app_refusal};

    ghost from_gives = { λ e f. f ≡ app_refusal e };

    fn from(fault: AppFault) -> Self {
        same_name!(fault: AppFault => PlaceFault { BadApp, Reserved })
    }
}

/// Reads an application's name, then a locale's name.
pub(crate) fn place_of(app: &[u8], locale: &[u8]) -> Result<Place, PlaceFault>
    ensures { result ≡ placed app.now locale.now }
{
    let app = App::read(app)?;
    match Name::read(locale) {
        Ok(name) => Ok(Place { app, name }),
        Err(_) => Err(PlaceFault::BadLocale),
    }
}

impl From<PlaceFault> for Reply {
    ghost use Rattle.rb_engine.specs.Answer.{refusal};

    ghost from_gives = { λ e r. r ≡ refusal e };

    fn from(fault: PlaceFault) -> Self {
        same_name!(fault: PlaceFault => Reply { BadApp, Reserved, BadLocale })
    }
}

impl From<PlaceFault> for LookFault {
    ghost use Rattle.rb_engine.specs.Answer.{look_refusal};

    ghost from_gives = { λ e f. f ≡ look_refusal e };

    fn from(fault: PlaceFault) -> Self {
        same_name!(fault: PlaceFault => LookFault { BadApp, Reserved, BadLocale })
    }
}
