ghost use Rattle.std.specs.Prelude.{IfOk, length, ◌+◌, ◌^◌, ◌≤◌};
ghost use Rattle.rb_tree.specs.Parts.{kind_of, len_of, children_of, HasChildren};
ghost use Rattle.rb_tree.specs.View.{view_of};
ghost use Rattle.rb_writer.specs.inner.Growth.{IsDraft};
ghost use Rattle.rb_writer.specs.inner.Most.{data_most};
ghost use Rattle.rb_writer.specs.inner.Standing.{Stands, ChildrenStand, KeysStand, HasPlaces};
ghost use Rattle.rb_writer.specs.inner.Standing.{children_most, EachLaid, TreeLaid};

use crate::containers::write_array;
use crate::data::Data;
use crate::item::item;
use crate::keys::KeyOffsets;
use crate::leaves::{write_bytes, write_numbers, write_units};
use crate::spare::Spare;
use crate::table::write_table;
use rb_format::ItemKind;
use rb_tree::{Node, Tree};
use std::alloc::AllocError;

/// Writes a tree, and returns its item.
#[cycle(write)]
#[tactic(auto, using(rb_tree::specs::inner::Lower::child_lower, crate::proofs::Nodes::children_le))]
pub fn write_value(
    spare: &mut Spare,
    out: &mut Data,
    keys: &KeyOffsets<'_>,
    entry: &mut usize,
    tree: &Tree,
) -> Result<u32, AllocError>
    requires drafted { IsDraft keys.now.area out.old }
    requires room { length out.old + data_most (view_of tree.now) ≤ 2 ^ 28 }
    requires keys { KeysStand keys.now.area out.old keys.now }
    requires each { HasPlaces keys.now (view_of tree.now) }
    ensures stands { IfOk result (Stands keys.now.area out.old out.new (view_of tree.now)) }
    ensures laid { IfOk result
        (λ item. TreeLaid keys.now out.old out.new (view_of tree.now) item) }
{
    match tree {
        Tree::String(units) => Ok(item(ItemKind::String, write_units(out, units.as_slice())?)),
        Tree::Int(number) => Ok(item(ItemKind::Int, number.get())),
        Tree::Ints(numbers) => Ok(item(ItemKind::Ints, write_numbers(out, numbers.as_slice())?)),
        Tree::Binary(bytes) => Ok(item(ItemKind::Binary, write_bytes(out, bytes.as_slice())?)),
        Tree::Alias(units) => Ok(item(ItemKind::Alias, write_units(out, units.as_slice())?)),
        Tree::Array(trees) if trees.len() == 0 => Ok(item(ItemKind::Array, 0)),
        Tree::Array(trees) if trees.len() == 1 => {
            // An array of one item needs no list. Texts with many levels consist of these.
            let only = write_value(spare, out, keys, entry, tree.at(0))?;
            Ok(item(ItemKind::Array, write_array(out, &[only])?))
        }
        Tree::Array(_) => {
            let items = write_children(spare, out, keys, entry, tree)?;
            let offset = write_array(out, &items)?;
            spare.give(items)?;
            Ok(item(ItemKind::Array, offset))
        }
        Tree::Table(entries) if entries.len() == 0 => Ok(item(ItemKind::Table, 0)),
        Tree::Table(entries) => {
            let items = write_children(spare, out, keys, entry, tree)?;
            let written = write_table(spare, out, keys, entry, entries, &items)?;
            spare.give(items)?;
            Ok(written)
        }
    }
}

/// Writes the children of an array or a table, and returns their items.
#[cycle(write)]
#[tactic(auto, using(rb_tree::specs::inner::Lower::child_lower, rb_tree::specs::inner::Lower::children_len, crate::proofs::Nodes::children_none))]
fn write_children(
    spare: &mut Spare,
    out: &mut Data,
    keys: &KeyOffsets<'_>,
    entry: &mut usize,
    tree: &Tree,
) -> Result<Vec<u32>, AllocError>
    requires nested { HasChildren (kind_of (view_of tree.now)) }
    requires drafted { IsDraft keys.now.area out.old }
    requires room { length out.old + children_most (children_of (view_of tree.now)) ≤ 2 ^ 28 }
    requires keys { KeysStand keys.now.area out.old keys.now }
    requires each { HasPlaces keys.now (view_of tree.now) }
    ensures stand { IfOk result (λ items. ChildrenStand keys.now.area out.old out.new
        (children_of (view_of tree.now)) items.items (len_of (view_of tree.now))) }
    ensures laid { IfOk result (λ items. EachLaid keys.now out.old out.new
        (children_of (view_of tree.now)) items.items (len_of (view_of tree.now))) }
{
    let mut items = spare.take();
    items.reserve(tree.len())?;
    for i in 0..tree.len() {
        let item = write_value(spare, out, keys, entry, tree.at(i))?;
        items.push(item)?;
    }
    Ok(items)
}
