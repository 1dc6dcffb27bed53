//! `resb look --trace`: writes to standard error why a lookup finds what it finds.
ghost use Rattle.std.specs.Prelude.{◌≡◌, ◌≤◌, ◌+◌, [], IfNone, IfSome, map, slice_range};
ghost use Rattle.rb_tree.specs.Parts.{HasUnits, kind_of, len_of, units_of};
ghost use Rattle.rb_tree.specs.declared.kind.Kind.TheVariants as Kinds;
ghost use Rattle.rb_inspect.specs.inner.Files.{bundle_named};
ghost use Rattle.rb_inspect.specs.inner.ShownUnits.{shown_unit};

use crate::trace_steps::{next_after, reached_at, shown};
use arrayvec::ArrayVec;
use rb_console::{Console, Given};
use rb_fallback::{LEVEL_LIMIT, Visit, Watch};
use rb_locales::Name;
use rb_packages::AppShelf;
use rb_parents::{Next, Parents, Shelf};
use rb_tree::Node;

/// The maximum number of units of an alias's text that a trace shows, and of units that it stores.
const SHOWN_UNITS: usize = 1000;

/// Returns the file of the first bundle with a name, or the empty text if there is none.
#[tactic(auto, using(crate::proofs::Finding::file_step, crate::proofs::Finding::file_end))]
pub(crate) fn file_named<'a>(bundles: &'a [Given<'a>], name: &Name) -> &'a str
    ensures first { IfSome (bundle_named name.now bundles.now) (λ b. result.now ≡ b.file.now) }
    ensures none { IfNone (bundle_named name.now bundles.now) (result.now ≡ []) }
{
    for bundle in bundles {
        if bundle.name.as_bytes() == name.as_bytes() {
            return bundle.file;
        }
    }
    ""
}

/// Returns a unit as a byte, or `?` if it isn't printable ASCII.
fn shown_unit(unit: u16) -> u8
    ensures { result ≡ shown_unit unit }
{
    if unit < 0x20 || unit > 0x7E {
        return b'?';
    }
    unit as u8
}

/// Returns the units from one up to another as bytes.
#[tactic(auto, using(crate::proofs::Showing::shown_steps))]
fn shown_units<N: Node>(node: N, from: usize, past: usize) -> ArrayVec<u8, SHOWN_UNITS>
    requires units { HasUnits (kind_of (N.tree node)) }
    requires order { from ≤ past }
    requires within { past ≤ len_of (N.tree node) }
    requires few { past ≤ from + 1000 }
    ensures { result.items ≡ map shown_unit (slice_range (units_of (N.tree node)) from past) }
{
    let mut text = ArrayVec::new();
    for i in from..past {
        text.push(shown_unit(node.unit(i)));
    }
    text
}

/// Returns the words for the package of a level.
fn package(icudata: bool) -> &'static str {
    if icudata { " in ICUDATA" } else { "" }
}

/// Writes each step of a lookup over the bundles of files to standard error.
#[derive(Drop)]
pub(crate) struct Trace<'a, R: Eprint> {
    pub(crate) rt: &'a R,
    pub(crate) console: Console,
    pub(crate) bundles: &'a [Given<'a>],
    pub(crate) parents: &'a Parents,
    pub(crate) own: AppShelf<'a>,
    pub(crate) icu: AppShelf<'a>,
    /// The number of the current level.
    pub(crate) level: u16,
    /// True if the current level is in ICUDATA.
    pub(crate) icudata: bool,
}

impl<'a, R: Eprint> Watch for Trace<'a, R> {
    fn level(&mut self, number: u16, icudata: bool, name: &Name, path: &[u8]) {
        self.level = number;
        self.icudata = icudata;
        let (path, name, package) = (shown(path), shown(name.as_bytes()), package(icudata));
        let _ = eprintln!(self.rt; "level {number}: '{path}' from {name}{package}");
    }

    fn name<N: Node>(&mut self, name: &Name, path: &[u8], visit: Visit<N>, next: &Next) {
        let shelf = if self.icudata { self.icu } else { self.own };
        let bundle = shelf.bundle(name);
        let reached = reached_at(visit, bundle.is_some(), path);
        let file = self.console.on_stderr(file_named(self.bundles, name));
        let reached = reached.text(file, path);
        let next = next_after(*next, bundle, self.parents, name);
        let name = shown(name.as_bytes());
        let _ = eprintln!(self.rt; "  {name}: {reached}; {next}");
    }

    fn alias<N: Node>(&mut self, node: N, actual: &Name) {
        let len = node.len();
        let text = shown_units(node, 0, len.min(SHOWN_UNITS));
        let rest = if len > SHOWN_UNITS { ".." } else { "" };
        let (text, name) = (shown(&text), shown(actual.as_bytes()));
        let _ = eprintln!(self.rt; "  the alias of {name}: \"{text}\"{rest}");
    }

    fn long_path<N: Node>(&mut self, icudata: bool, name: &Name, node: N, at: usize, rest: &[u8]) {
        if self.level >= LEVEL_LIMIT {
            return;
        }
        let _ = eprint!(self.rt; "level {}: '", self.level + 1);
        write_units(self.rt, node, at);
        let slash = if rest.is_empty() { "" } else { "/" };
        let (rest, name, package) = (shown(rest), shown(name.as_bytes()), package(icudata));
        let _ = eprintln!(self.rt; "{slash}{rest}' from {name}{package}");
    }
}

/// Writes the units of an alias's text from one on to standard error.
fn write_units<R: Eprint, N: Node>(rt: &R, node: N, from: usize)
    requires { kind_of (N.tree node) ≡ Kinds.Alias }
{
    let len = node.len();
    let mut from = from;
    'pieces: while from < len {
        let past = if len - from > SHOWN_UNITS {
            from + SHOWN_UNITS
        } else {
            len
        };
        let _ = eprint!(rt; "{}", shown(&shown_units(node, from, past)));
        from = past;
    }
}
