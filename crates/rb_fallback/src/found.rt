ghost use Rattle.std.specs.Prelude.{◌≡◌};

use rb_locales::Name;

/// Stores what a lookup found.
#[derive(Clone, Copy)]
pub struct Found<N> {
    /// The node to which the path leads.
    pub node: N,
    /// The name of the bundle that has the node.
    pub actual: Name,
    /// The first stop of the requested name's trail.
    pub valid: Name,
}

impl<N> Found<N> {
    ghost use Rattle.rb_fallback.specs.Answers.{with_node};

    /// Returns a copy with another node, such as a view of the one that was found.
    pub fn with_node<M>(&self, node: M) -> Found<M>
        ensures { result ≡ with_node self.now node }
    {
        Found {
            node,
            actual: self.actual,
            valid: self.valid,
        }
    }
}
