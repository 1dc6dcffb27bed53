//! Items without children as JSON, and errors in their places.
ghost use Rattle.std.specs.Prelude.{◌≡◌, codes};
ghost use Rattle.serde_json.specs.Data.{string};
ghost use Rattle.serde_json.specs.Written.{compact_text};
ghost use Rattle.rb_tree.specs.Parts.{kind_of};
ghost use Rattle.rb_json.specs.Value.{tagged, value_of};
ghost use Rattle.rb_inherit.specs.Leaves.{IsLeaf};
ghost use Rattle.rb_inherit.specs.inner.Written.{IsLeafOf};
ghost use Rattle.rb_inherit.specs.Merged.{Writes};

use rb_json::{Layout, Outlet, spell_text};
use rb_tree::{Kind, Node};

/// Writes an error in the place of an item.
pub(crate) fn put_error<O: Outlet>(out: &mut O, code: &str)
    ensures { O.takes out.old out.new
        (compact_text (tagged (codes ":error") (string code.now))) }
{
    out.put(b"{\":error\":");
    spell_text(out, code);
    out.put(b"}")
}

/// Writes an item that has no children, in the form of `rb_json::put_value`.
pub(crate) fn put_leaf<O: Outlet, N: Node>(out: &mut O, node: N)
    ensures leaf { IsLeaf (kind_of (N.tree node))
        → O.takes out.old out.new (compact_text (value_of (N.tree node))) }
    ensures value { Writes (O.takes out.old out.new)
        (IsLeafOf (kind_of (N.tree node)) (N.tree node)) }
{
    if node.kind() == Kind::Alias {
        put_error(out, "Missing");
        return;
    }
    rb_json::put_leaf(out, node, Layout::Compact, 0)
}
