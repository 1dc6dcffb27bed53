//! The version of an engine, and when applications changed last: a change closes only what its own
//! application has open.
ghost use Rattle.std.specs.Prelude.{◌≡◌, replicate, set};
ghost use Rattle.rb_engine.specs.Version.{next_version};
ghost use Rattle.rb_engine.specs.inner.LastChanges.{group_of, version_in};

/// The number of groups of applications.
const GROUPS: usize = 256;

/// The version of an engine, which rises with each change up to the maximum, and the version in
/// which each group of applications changed last. Applications whose names fall into one group share
/// it: a change of one closes what the others have open, too.
#[derive(Clone, Copy)]
pub(crate) struct Versions {
    pub(crate) latest: u64,
    pub(crate) groups: [u64; GROUPS],
}

/// Returns the group of an application.
fn group_of(app: &[u8]) -> u8
    ensures { result ≡ group_of app.now }
{
    app.iter().fold(
        0,
        |group: u8, byte| group.wrapping_mul(31).wrapping_add(*byte),
    )
}

impl Versions {
    /// Returns the versions of an engine that hasn't changed since it had the first one.
    pub(crate) fn first(latest: u64) -> Versions
        ensures { result.groups ≡ replicate 256 0 }
    {
        Versions {
            latest,
            groups: [0; GROUPS],
        }
    }

    /// Returns the version in which the application's group changed last.
    pub(crate) fn of(&self, app: &[u8]) -> u64
        ensures { result ≡ version_in self.now.groups app.now }
    {
        self.groups[group_of(app) as usize]
    }

    /// Raises the version after a change of an application.
    pub(crate) fn rise(&mut self, app: &[u8])
        ensures latest { self.new.latest ≡ next_version self.old.latest }
        ensures groups { self.new.groups ≡ set self.old.groups (group_of app.now) self.new.latest }
    {
        self.latest = self.latest.saturating_add(1);
        self.groups[group_of(app) as usize] = self.latest;
    }
}
