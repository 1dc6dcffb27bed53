//! `resb json`: a whole item of a file as one JSON value.
ghost use Rattle.std.specs.Prelude.{◌≡◌, Ok, Err, IfOk, IfErr, option_map, true};
ghost use Rattle.rb_tree.specs.Path.{IsPath, segments};
ghost use Rattle.rb_tree.specs.Walk.{walk};
ghost use Rattle.rb_json.specs.Printed.{is_within};
ghost use Rattle.rb_convert.specs.Whole.{Prints, light, reached, shown};

use rb_asked::AskedJson;
use rb_console::{Console, Printing, accepted, finish, printed, refused_on};
use rb_fallback::{PATH_LIMIT, rest_behind};
use rb_json::{Layout, Outlet, is_within, put_value};
use rb_tree::{Ending, Node, path_ok, walk};
use rb_views::root;
use std::io;
use std::io::BufWriter;
use std::process::ExitCode;
use std::rt::Files;

/// The reason why there is no value to print.
#[derive(Clone, Copy, Debug, PartialEq, Eq)]
pub enum ValueError {
    /// The path has an empty segment, or a byte that is no plain ASCII character.
    BadPath,
    /// The path has more bytes than a path may have.
    PathTooLong,
    /// The path leads nowhere, or through an alias.
    Missing,
    /// The item has more levels or more weight than a bundle's tree may have.
    TooLarge,
}

/// Returns the item to which a path leads, or `None` if it leads nowhere or through an alias.
#[tactic(auto, using(crate::proofs::Shown::reached_end, crate::proofs::Shown::reached_link, crate::proofs::Shown::led_on, crate::proofs::Shown::reached_gone))]
fn item_at<N: Node>(root: N, path: &[u8]) -> Option<N>
    requires { IsPath path.now }
    ensures { option_map N.tree result ≡ reached (walk (N.tree root) (segments path.now)) }
{
    match walk(root, path) {
        Ending::End(node) => Some(node),
        Ending::Link(node, cut) => {
            if rest_behind(path, cut).is_empty() {
                Some(node)
            } else {
                None
            }
        }
        Ending::Gone => None,
    }
}

/// Returns the item to which a path leads, if it is within the limits of a bundle's tree.
#[tactic(auto, using(crate::proofs::Shown::light_ok, crate::proofs::Shown::light_large, crate::proofs::Shown::light_none))]
fn light_item<N: Node>(root: N, path: &[u8]) -> Result<N, ValueError>
    requires { IsPath path.now }
    ensures item { IfOk result
        (λ node. light (reached (walk (N.tree root) (segments path.now))) ≡ Ok (N.tree node)) }
    ensures within { IfOk result (λ node. is_within (N.tree node) ≡ true) }
    ensures error { IfErr result
        (λ e. light (reached (walk (N.tree root) (segments path.now))) ≡ Err e) }
{
    let Some(node) = item_at(root, path) else {
        return Err(ValueError::Missing);
    };
    if is_within(node) {
        Ok(node)
    } else {
        Err(ValueError::TooLarge)
    }
}

/// Returns the item that is printed for a path.
fn shown_item<N: Node>(root: N, path: &[u8]) -> Result<N, ValueError>
    ensures item { IfOk result (λ node. shown (N.tree root) path.now ≡ Ok (N.tree node)) }
    ensures within { IfOk result (λ node. is_within (N.tree node) ≡ true) }
    ensures error { IfErr result (λ e. shown (N.tree root) path.now ≡ Err e) }
{
    if !path_ok(path) {
        return Err(ValueError::BadPath);
    }
    if path.len() > PATH_LIMIT {
        return Err(ValueError::PathTooLong);
    }
    light_item(root, path)
}

/// Writes the whole item at a path within one tree as one JSON value, without fallback. An alias
/// at the path's end is printed, and none is followed: the path must not lead through one. Errors:
/// `BadPath`, then `PathTooLong`, then `Missing` if the path leads nowhere, then `TooLarge` if the
/// item has more than 64 levels or a weight above 33,554,432. It takes no memory, and writes
/// nothing before an error.
///
/// ```rust
/// put_value_at(out, &tree, b"a", Layout::Compact)? // ["x","y"]
/// ```
#[tactic(auto, using(crate::proofs::Shown::printed_item))]
pub fn put_value_at<O: Outlet, N: Node>(
    out: &mut O,
    root: N,
    path: &[u8],
    layout: Layout,
) -> Result<(), ValueError>
    ensures text { IfOk result
        (λ _. Prints (O.takes out.old out.new) layout (shown (N.tree root) path.now)) }
    ensures error { IfErr result (λ e. shown (N.tree root) path.now ≡ Err e) }
    ensures nothing { IfErr result (λ _. out.new ≡ out.old) }
{
    let node = match shown_item(root, path) {
        Ok(node) => node,
        Err(error) => return Err(error),
    };
    put_value(out, node, layout);
    Ok(())
}

fn layout_of(is_pretty: bool) -> Layout {
    if is_pretty {
        Layout::Pretty
    } else {
        Layout::Compact
    }
}

/// Prints the whole item of a file at a path as one JSON value and a line feed, in a layout.
/// Aliases are printed and not followed, and control characters are escaped. The status is 0; 1 if
/// the file is refused or has no such item, or one that is too large, with the file or the path and
/// the error's name on standard error; 2 if the file can't be read or standard output can't be
/// written.
pub fn json<R: Files + AllocGlobal + Print + Eprint>(
    rt: &R,
    console: Console,
    asked: &AskedJson<'_>,
) -> ExitCode {
    let (name, path) = (asked.file, asked.path);
    let bundle = match accepted(rt, name) {
        Ok(bundle) => bundle,
        Err(error) => return finish(rt, console, error),
    };
    let Ok(writer) = BufWriter::new(rt.alloc(), io::writer(rt)) else {
        return refused_on(rt, console, name, "Memory");
    };
    let mut out = Printing::new(writer, console.json_escapes());
    match put_value_at(
        &mut out,
        root(&bundle),
        path.as_bytes(),
        layout_of(asked.is_pretty),
    ) {
        Ok(()) => printed(rt, out.end_line()),
        Err(ValueError::TooLarge) => refused_on(rt, console, name, "TooLarge"),
        Err(error) => refused_on(rt, console, path, error.word()),
    }
}
