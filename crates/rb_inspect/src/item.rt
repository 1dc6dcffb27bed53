//! One item of a file as JSON.
ghost use Rattle.std.specs.Prelude.{◌≡◌, Ok, Err, IfOk, IfErr};
ghost use Rattle.serde_json.specs.Data.{Data};
ghost use Rattle.serde_json.specs.Written.{compact_text};
ghost use Rattle.rb_tree.specs.Path.{IsPath, segments};
ghost use Rattle.rb_tree.specs.Walk.{walk};
ghost use Rattle.rb_inspect.specs.Got.{got, shown};

use rb_fallback::{PATH_LIMIT, rest_behind};
use rb_json::{Outlet, put_item};
use rb_tree::{Ending, Node, path_ok, walk};

/// The reason why there is no item to print.
#[derive(Clone, Copy, Debug, PartialEq, Eq)]
pub enum ItemError {
    /// The path has an empty segment, or a byte that is no plain ASCII character.
    BadPath,
    /// The path has more bytes than a path may have.
    PathTooLong,
    /// The path leads nowhere.
    Missing,
}

/// Writes the item to which a path leads.
fn put_shown<O: Outlet, N: Node>(out: &mut O, root: N, path: &[u8]) -> Result<(), ItemError>
    requires { IsPath path.now }
    ensures text { IfOk result (λ _. (d : Data) × (shown
        (walk (N.tree root) (segments path.now)) ≡ Ok d)
        × (O.takes out.old out.new (compact_text d))) }
    ensures error { IfErr result
        (λ e. shown (walk (N.tree root) (segments path.now)) ≡ Err e) }
{
    match walk(root, path) {
        Ending::End(node) => put_item(out, node, b""),
        Ending::Link(node, cut) => put_item(out, node, rest_behind(path, cut)),
        Ending::Gone => return Err(ItemError::Missing),
    }
    Ok(())
}

/// Writes the item at a path within one tree as JSON, piece by piece and without fallback. An alias
/// on the way is not followed: it is the item, with the remaining path. Errors: `BadPath`, then
/// `PathTooLong`, then `Missing` if the path leads nowhere; nothing is written then.
///
/// ```rust
/// put_at(&mut out, &tree, b"a/1")? // {"type":"string","value":"y"}
/// ```
pub fn put_at<O: Outlet, N: Node>(out: &mut O, root: N, path: &[u8]) -> Result<(), ItemError>
    ensures text { IfOk result (λ _. (d : Data) × (got (N.tree root) path.now ≡ Ok d)
        × (O.takes out.old out.new (compact_text d))) }
    ensures error { IfErr result (λ e. got (N.tree root) path.now ≡ Err e) }
{
    if !path_ok(path) {
        return Err(ItemError::BadPath);
    }
    if PATH_LIMIT < path.len() {
        return Err(ItemError::PathTooLong);
    }
    put_shown(out, root, path)
}
