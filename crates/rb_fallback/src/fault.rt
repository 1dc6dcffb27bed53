ghost use Rattle.std.specs.Prelude.{◌≡◌};
ghost use Rattle.rb_fallback.specs.declared.fault.BoundedError.TheVariants as bounded;

/// Says why the text of an alias is invalid.
#[derive(Clone, Copy, Debug, PartialEq, Eq)]
pub enum AliasFault {
    /// The text is empty or isn't printable ASCII, its locale is missing or invalid, or its path
    /// has an empty segment.
    AliasText,
    /// The package after the first slash is neither `LOCALE` nor `ICUDATA`.
    AliasPackage,
}

/// Says why a lookup finds nothing.
#[derive(Clone, Copy, Debug, PartialEq, Eq)]
pub enum LookError {
    /// The path has a byte that is not printable ASCII, or an empty segment.
    BadPath,
    /// The path has more than 1,024 bytes, the caller's or one that an alias gives.
    PathTooLong,
    /// A trail has more than 32 names.
    Chain,
    /// A `%%ALIAS` or `%%Parent` on a trail isn't a locale name.
    BadParent,
    /// No name of the trail has a bundle, apart from bundles that name another by `%%ALIAS`.
    NoBundle,
    /// The path leads nowhere in any bundle of the trail.
    Missing,
    /// The text of an alias is invalid, as `AliasFault::AliasText` says.
    AliasText,
    /// The text of an alias names a package other than `LOCALE` and `ICUDATA`.
    AliasPackage,
    /// More than 255 aliases follow one another.
    TooManyAliases,
}

/// Says why a lookup with a limit on its steps finds nothing.
#[derive(Clone, Copy, Debug, PartialEq, Eq)]
pub enum BoundedError {
    /// The lookup takes more steps than the limit.
    TooManySteps,
    /// The lookup stays within the limit, and finds nothing for this reason.
    Search(LookError),
}

impl From<LookError> for BoundedError {
    ghost from_gives = { λ e b. b ≡ bounded.Search e };

    fn from(fault: LookError) -> Self {
        BoundedError::Search(fault)
    }
}
