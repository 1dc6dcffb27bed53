ghost use Rattle.std.specs.Prelude.{◌≡◌};
ghost use Rattle.rb_tree.specs.Parts.{kind_of};
ghost use Rattle.rb_tree.specs.declared.kind.Kind.TheVariants as Kinds;

use rb_locales::Name;
use rb_parents::Next;
use rb_tree::{Ending, Node};

/// Describes what a search does at a name of a trail.
#[derive(Clone, Copy)]
pub enum Visit<N> {
    /// The name is no stop: it has no bundle, or its bundle names another by `%%ALIAS`.
    NoStop,
    /// The name is a stop, but an earlier stop has decided, so its bundle isn't searched.
    Skipped,
    /// The path was walked from this root, the one of the name's bundle, and the walk ended so.
    Walked(N, Ending<N>),
}

/// Observes a search, which calls each method when it gets to that point. What the search finds
/// doesn't depend on its observer. `()` observes nothing.
pub trait Watch {
    /// Receives the number of a level, from 1 on, and what is searched there: the package, the name
    /// and the path. The path has at most 1,024 bytes, or the search ends here.
    fn level(&mut self, number: u16, icudata: bool, name: &Name, path: &[u8]);

    /// Receives a name of the level's trail, with the path of the level, what the search does at
    /// this name, and what follows the name.
    fn name<N: Node>(&mut self, name: &Name, path: &[u8], visit: Visit<N>, next: &Next);

    /// Receives the alias at which a level ends, and the name of its bundle.
    fn alias<N: Node>(&mut self, node: N, actual: &Name)
        requires { kind_of (N.tree node) ≡ Kinds.Alias };

    /// Receives where an alias leads if its path is too long: the package, the name, and the path,
    /// which is the alias's text from the unit `at` on and, unless it is empty, a slash and `rest`.
    /// The search ends here.
    fn long_path<N: Node>(&mut self, icudata: bool, name: &Name, node: N, at: usize, rest: &[u8])
        requires { kind_of (N.tree node) ≡ Kinds.Alias };
}

impl Watch for () {
    fn level(&mut self, _number: u16, _icudata: bool, _name: &Name, _path: &[u8]) {}

    fn name<N: Node>(&mut self, _name: &Name, _path: &[u8], _visit: Visit<N>, _next: &Next) {}

    fn alias<N: Node>(&mut self, _node: N, _actual: &Name) {}

    fn long_path<N: Node>(
        &mut self,
        _icudata: bool,
        _name: &Name,
        _node: N,
        _at: usize,
        _rest: &[u8],
    ) {}
}
