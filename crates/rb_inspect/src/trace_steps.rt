//! The words in which a trace says what the search found at a name, and what follows the name.
ghost use Rattle.std.specs.Prelude.{◌≡◌, is_some, option_map};
ghost use Rattle.rb_tree.specs.Ending.{stop_at};
ghost use Rattle.rb_parents.specs.Family.{parent_of};
ghost use Rattle.rb_parents.specs.Shelf.{bundle_of};
ghost use Rattle.rb_parents.specs.Steps.{next_of};
ghost use Rattle.rb_parents.specs.Trail.{bundle_next, text_at};
ghost use Rattle.rb_inspect.specs.inner.Causes.{IsNextBy, cause, cause_words, plain_cause};
ghost use Rattle.rb_inspect.specs.inner.Reached.{IsHas, IsReach, IsReached, leads};

use rb_console::ShownName;
use rb_explain::kind_word;
use rb_fallback::{Visit, rest_behind};
use rb_locales::Name;
use rb_parents::{Next, Parents};
use rb_tree::{Ending, Kind, Node, path_ok, walk};
use std::fmt;

/// Returns bytes of printable ASCII, such as names and paths, as a text.
pub(crate) fn shown(bytes: &[u8]) -> &str {
    str::from_utf8(bytes).unwrap_or("?")
}

/// Says what decided on the name that follows another.
#[derive(Clone, Copy, PartialEq, Eq)]
pub(crate) enum Cause {
    /// The text at `%%ALIAS` of its bundle.
    Alias,
    /// Its bundle has no fallback.
    NoFallback,
    /// The text at `%%Parent` of its bundle.
    Parent,
    /// The explicit parents.
    Explicit,
    /// The name without its last part.
    Shorter,
    /// After a name of one part comes the root, and after that nothing.
    Last,
}

/// Returns true if a tree has a string at a key.
fn has_text<N: Node>(root: N, key: &[u8]) -> bool
    ensures { result ≡ is_some (text_at key.now (N.tree root)) }
{
    if root.kind() != Kind::Table {
        return false;
    }
    match root.child(key) {
        Some(child) => child.kind() == Kind::String,
        None => false,
    }
}

/// Returns what decides on the next name if the bundle, if there is one, names no other.
fn decided_plainly(parents: &Parents, name: &Name) -> Cause
    ensures { result ≡ plain_cause (parent_of parents.now) name.now }
{
    if name.as_bytes() == b"root".as_slice() {
        return Cause::Last;
    }
    if parents.parent(name).is_some() {
        return Cause::Explicit;
    }
    match name.shorter() {
        Some(_) => Cause::Shorter,
        None => Cause::Last,
    }
}

/// Returns what decides on the name that follows one with this bundle.
fn decided_by<N: Node>(bundle: Option<(N, bool)>, parents: &Parents, name: &Name) -> Cause
    ensures { result
        ≡ cause (parent_of parents.now) name.now (option_map (bundle_of N.tree) bundle) }
{
    let Some((root, no_fallback)) = bundle else {
        return decided_plainly(parents, name);
    };
    if has_text(root, b"%%ALIAS") {
        return Cause::Alias;
    }
    if no_fallback {
        return Cause::NoFallback;
    }
    if has_text(root, b"%%Parent") {
        return Cause::Parent;
    }
    decided_plainly(parents, name)
}

/// Stores what follows a name, and what decided on it.
#[derive(Clone, Copy)]
pub(crate) struct NextName {
    pub(crate) next: Next,
    pub(crate) cause: Cause,
}

/// Returns what follows a name with this bundle, which the search has found to be `next`, and what
/// decided on it.
pub(crate) fn next_after<N: Node>(
    next: Next,
    bundle: Option<(N, bool)>,
    parents: &Parents,
    name: &Name,
) -> NextName
    ensures next { result.next ≡ next }
    ensures cause { result.cause
        ≡ cause (parent_of parents.now) name.now (option_map (bundle_of N.tree) bundle) }
    ensures says { next_of next
        ≡ bundle_next (parent_of parents.now) name.now (option_map (bundle_of N.tree) bundle)
        → IsNextBy result.cause (parent_of parents.now) name.now
        (option_map (bundle_of N.tree) bundle) (next_of next) }
{
    let cause = decided_by(bundle, parents, name);
    NextName { next, cause }
}

impl NextName {
    /// Returns the words for what decided on the next name.
    fn words(self) -> &'static str
        ensures { result.now ≡ cause_words self.cause }
    {
        match self.cause {
            Cause::Alias => "by its %%ALIAS",
            Cause::NoFallback => "as it has no fallback",
            Cause::Parent => "by its %%Parent",
            Cause::Explicit => "by the explicit parents",
            Cause::Shorter => "the shorter name",
            Cause::Last => "the last",
        }
    }
}

impl fmt::Display for NextName {
    fn fmt<W: fmt::Write>(&self, f: &mut fmt::Formatter<W>) -> fmt::Result {
        let cause = self.words();
        match self.next {
            Next::Name(name) => write!(f, "next {}, {cause}", shown(name.as_bytes())),
            Next::End if self.cause == Cause::NoFallback => write!(f, "the end, {cause}"),
            Next::End => f.write_str("the end"),
            Next::Bad => write!(f, "no locale's name is next, {cause}"),
        }
    }
}

/// Says how far a path leads in the bundle of a name.
#[derive(Clone, Copy, PartialEq, Eq)]
pub(crate) enum Reached {
    /// The name has no bundle.
    NoBundle,
    /// The bundle names another by `%%ALIAS`.
    Alias,
    /// The search skipped the bundle, since an earlier one has decided.
    Skipped,
    /// This many first bytes of the path lead to an item, and the remaining ones nowhere.
    Part(usize),
    /// The path leads to an item of this kind.
    Item(Kind),
    /// This many first bytes lead to an alias.
    Link(usize),
}

/// Returns true if a path leads somewhere.
fn leads<N: Node>(root: N, path: &[u8]) -> bool
    ensures { result ≡ leads (N.tree root) path.now }
{
    if !path_ok(path) {
        return false;
    }
    match walk(root, path) {
        Ending::End(_) | Ending::Link(_, _) => true,
        Ending::Gone => false,
    }
}

/// Returns how many first bytes of a path lead somewhere: none, or up to a slash. Stops at the
/// first front that leads nowhere, since no longer one leads anywhere either.
#[tactic(auto, using(crate::proofs::Reaching::reach_steps))]
fn reach<N: Node>(root: N, path: &[u8]) -> usize
    ensures { IsReach (N.tree root) path.now result }
{
    let mut reached = 0;
    for at in 0..path.len() {
        if path[at] == b'/' {
            if !leads(root, &path[..at]) {
                return reached;
            }
            reached = at;
        }
    }
    reached
}

/// Returns how far a path leads in a tree, from how the walk along it ended.
fn reached_by<N: Node>(root: N, path: &[u8], ending: Ending<N>) -> Reached
    ensures { IsHas (N.tree root) path.now (stop_at N.tree ending) result }
{
    match ending {
        Ending::End(node) => Reached::Item(node.kind()),
        Ending::Link(_, cut) => Reached::Link(cut),
        Ending::Gone => Reached::Part(reach(root, path)),
    }
}

/// Returns how far a path leads in the bundle of a name, from what the search did there.
pub(crate) fn reached_at<N: Node>(visit: Visit<N>, has_bundle: bool, path: &[u8]) -> Reached
    ensures { IsReached N.tree visit has_bundle path.now result }
{
    match visit {
        Visit::NoStop if has_bundle => Reached::Alias,
        Visit::NoStop => Reached::NoBundle,
        Visit::Skipped => Reached::Skipped,
        Visit::Walked(root, ending) => reached_by(root, path, ending),
    }
}

/// Returns the first segment of a path.
fn first_segment(path: &[u8]) -> &str {
    let path = shown(path);
    match path.split_once('/') {
        Some((first, _)) => first,
        None => path,
    }
}

impl Reached {
    /// Returns a text that says this of a file and a path.
    pub(crate) fn text<'a>(self, file: ShownName<'a>, path: &'a [u8]) -> ReachedText<'a> {
        ReachedText {
            reached: self,
            file,
            path,
        }
    }
}

/// Writes how far a path leads in a file.
#[derive(Clone, Copy)]
pub(crate) struct ReachedText<'a> {
    reached: Reached,
    file: ShownName<'a>,
    path: &'a [u8],
}

impl<'a> ReachedText<'a> {
    /// Returns the first bytes of the path as a text.
    fn front(self, count: usize) -> &'a str {
        shown(self.path.get(..count).unwrap_or(self.path))
    }
}

impl<'a> fmt::Display for ReachedText<'a> {
    fn fmt<W: fmt::Write>(&self, f: &mut fmt::Formatter<W>) -> fmt::Result {
        let file = self.file;
        match self.reached {
            Reached::NoBundle => f.write_str("no bundle"),
            Reached::Alias => write!(f, "{file} stands for another"),
            Reached::Skipped => write!(f, "{file} isn't asked"),
            Reached::Part(0) => write!(f, "{file} has no '{}'", first_segment(self.path)),
            Reached::Part(count) => {
                let (front, rest) = (self.front(count), rest_behind(self.path, count));
                write!(
                    f,
                    "{file} has '{front}', and no '{}' in it",
                    first_segment(rest)
                )
            }
            Reached::Item(kind) => write!(f, "{file} has it, {}, and decides", kind_word(kind)),
            Reached::Link(count) => {
                write!(
                    f,
                    "{file} has an alias at '{}', and decides",
                    self.front(count)
                )
            }
        }
    }
}
