ghost use Rattle.std.specs.Prelude.{◌≡◌, codes};

/// The reason why a bundle isn't added.
#[derive(Clone, Copy, Debug, PartialEq, Eq)]
pub enum PackFault {
    /// ICUDATA already has a bundle with this name.
    Twice,
    /// The application already has a bundle with this name.
    Exists,
    /// The application has `BUNDLE_LIMIT` bundles.
    Full,
    Memory,
}

/// The application has no bundle with this name.
#[derive(Clone, Copy, Debug, PartialEq, Eq)]
pub struct Absent;

impl Absent {
    pub fn word(self) -> &'static str
        ensures { result.now ≡ codes "Absent" }
    {
        "Absent"
    }
}

/// The reason why a draft doesn't take a change.
#[derive(Clone, Copy, Debug, PartialEq, Eq)]
pub enum DraftFault {
    /// The application would have no bundle with this name.
    Absent,
    /// The application would have more than `BUNDLE_LIMIT` bundles, or the draft that many changes.
    Full,
    Memory,
}
