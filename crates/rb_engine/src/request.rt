ghost use Rattle.std.specs.Prelude.{◌≡◌};

use rb_locales::Name;
use rb_tree::ByteList;
use std::marker::Model;

/// The payload of a request, from which a bundle is read.
#[derive(Drop)]
pub enum Payload {
    Text(ByteList),
    File(ByteList),
}

/// The payload that a bundle is read from. A text is borrowed; a file becomes the bundle.
#[derive(Drop)]
pub enum BundleSource<'a> {
    Text(&'a [u8]),
    File(ByteList),
}

/// A request of an application, with unchecked names.
#[derive(Drop)]
pub enum Request {
    Install {
        app: ByteList,
        locale: ByteList,
        payload: Payload,
    },
    Replace {
        app: ByteList,
        locale: ByteList,
        payload: Payload,
    },
    Remove {
        app: ByteList,
        locale: ByteList,
    },
    List {
        app: ByteList,
    },
}

#[derive(Debug, Drop)]
pub struct NameList {
    names: Vec<Name>,
}

impl Model for NameList {
    ghost use Rattle.std.specs.Prelude.{List, ℕ};

    ghost Value = { List (List ℕ) };

    ghost view = { λ n. n.names.items };
}

impl NameList {
    pub(crate) fn from_vec(names: Vec<Name>) -> Self
        ensures { result ≡ names.items }
    {
        NameList { names }
    }

    pub fn as_slice(&self) -> &[Name]
        ensures { result.now ≡ self.now }
    {
        &self.names
    }
}

#[derive(Debug, Drop)]
pub enum Reply {
    Done,
    Names(NameList),
    BadApp,
    /// The application's name is `ICUDATA`.
    Reserved,
    BadLocale,
    BadText,
    BadFile,
    /// A bundle with this name exists.
    Exists,
    /// No bundle with this name exists.
    Absent,
    /// The application has the maximum number of bundles.
    Full,
    /// Out of memory; nothing has changed.
    Memory,
}

/// The reason why a lookup finds nothing.
#[derive(Clone, Copy, Debug, PartialEq, Eq)]
pub enum LookFault {
    BadApp,
    /// The application's name is `ICUDATA`.
    Reserved,
    BadLocale,
    BadPath,
    /// The given path, or one that an alias made, is too long.
    PathTooLong,
    Chain,
    /// A text at `%%ALIAS` or `%%Parent` isn't a name.
    BadParent,
    /// No name of the trail has a bundle without a text at `%%ALIAS`.
    NoBundle,
    Missing,
    /// The text of an alias is invalid.
    AliasText,
    /// An alias names a package that isn't accessible.
    AliasPackage,
    TooManyAliases,
}

#[derive(Clone, Copy, Debug, PartialEq, Eq)]
pub struct TooManySteps;
