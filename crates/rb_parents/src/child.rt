ghost use Rattle.std.specs.Prelude.{◌≡◌, ◌≢◌, IfSome, IfNone, Some};
ghost use Rattle.rb_tree.specs.Parts.{child_of, kind_of};
ghost use Rattle.rb_tree.specs.Resource.{Resource};

use rb_tree::{Kind, Node};

/// Returns a table's child at a key if it has this kind, or None for any other node.
pub(crate) fn child_of_kind<N: Node>(node: N, key: &[u8], kind: Kind) -> Option<N>
    ensures child { IfSome result (λ m. child_of key.now (N.tree node) ≡ Some (N.tree m)) }
    ensures kind { IfSome result (λ m. kind_of (N.tree m) ≡ kind) }
    ensures none { IfNone result
        ((t : Resource) → child_of key.now (N.tree node) ≡ Some t → kind_of t ≢ kind) }
{
    if node.kind() != Kind::Table {
        return None;
    }
    match node.child(key) {
        Some(child) if child.kind() == kind => Some(child),
        _ => None,
    }
}
