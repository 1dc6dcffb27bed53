//! Detects, before anything is written, a text that is too long even without its keys and texts.
ghost use Rattle.std.specs.Prelude.{◌≡◌, ◌+◌, ◌*◌, ◌≤◌, ℕ, length, Option};
ghost use Rattle.rb_tree.specs.Parts.{kind_of, len_of};
ghost use Rattle.rb_tree.specs.Resource.{height};
ghost use Rattle.rb_tree.specs.declared.kind.Kind.TheVariants as Kinds;
ghost use Rattle.rb_printer.specs.Page.{items_of, members_of};
ghost use Rattle.rb_printer.specs.inner.Least as leasts;
ghost use Rattle.rb_printer.specs.inner.Least.{frame, entries_frame, Takes};

use crate::line::DEEPEST;
use rb_tree::{Kind, Node};

fn charge_twice(budget: usize, length: usize) -> Option<usize>
    ensures { Takes budget (2 * length) result }
{
    budget.checked_sub(length)?.checked_sub(length)
}

/// Subtracts from the budget the fewest characters of a tree's body, without those of keys, Strings
/// and Aliases, or returns None if they exceed it. Each step costs some budget, which bounds how
/// often the parts that a file shares are visited.
#[cycle(budget)]
pub fn charge_body<N: Node>(budget: usize, level: usize, node: N) -> Option<usize>
    requires { level + height (N.tree node) ≤ 64 }
    ensures { Takes budget (frame level (N.tree node)) result }
{
    match node.kind() {
        Kind::String | Kind::Alias => budget.checked_sub(2),
        Kind::Int => budget.checked_sub(1),
        Kind::Ints => charge_twice(budget.checked_sub(1)?, node.len()),
        Kind::Binary => charge_twice(budget.checked_sub(5)?, node.len()),
        Kind::Array => {
            let mut left = budget.checked_sub(2)?;
            for i in 0..node.len() {
                let child = node.at(i);
                let budget = left.checked_sub(item_lead(level + 1, child))?;
                left = charge_body(budget, level + 1, child)?;
            }
            Some(left)
        }
        Kind::Table => charge_entries(budget.checked_sub(2)?, level + 1, node),
    }
}

/// Returns the fewest characters beside an item: the indentation of its line, or a space and a
/// comma if it may share a line.
fn item_lead<N: Node>(level: usize, node: N) -> usize
    requires { level ≤ 65 }
    ensures { result ≡ leasts.item_lead level (N.tree node) }
{
    if node.kind() == Kind::String && level <= DEEPEST {
        2
    } else {
        4 * level
    }
}

/// Subtracts from the budget the fewest characters of a table's entries, as `charge_body` does.
#[cycle(budget)]
pub fn charge_entries<N: Node>(budget: usize, level: usize, node: N) -> Option<usize>
    requires table { kind_of (N.tree node) ≡ Kinds.Table }
    requires low { level + height (N.tree node) ≤ 65 }
    ensures { Takes budget (entries_frame level (members_of (N.tree node))) result }
{
    let mut left = budget;
    for i in 0..node.len() {
        let child = node.at(i);
        let budget = left.checked_sub(4 * level)?;
        left = charge_body(budget, level, child)?;
    }
    Some(left)
}
