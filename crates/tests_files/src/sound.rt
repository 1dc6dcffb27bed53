ghost use Rattle.std.specs.Prelude.{◌≡◌};
ghost use Rattle.std.specs.List.{AllByRecursion};
ghost use Rattle.rb_tree.specs.View.{view_of};
ghost use Rattle.rb_tree.specs.Parts.{kind_of, numbers_of};
ghost use Rattle.rb_tree.specs.declared.kind.Kind.TheVariants as Kinds;
ghost use Rattle.rb_tree.specs.Keys.{IsTable};
ghost use Rattle.rb_printer.specs.Sound.{IsSound, AreSound, EachSound, AreUnits, AreBytes};
ghost use Rattle.rb_printer.specs.Sound.{IsNumber};

use rb_tree::{Entries, Node, Tree, TreeList};

fn look_at_units(units: &[u16])
    ensures { AreUnits units.now }
{}

fn look_at_numbers(tree: &Tree)
    requires { kind_of (view_of tree.now) ≡ Kinds.Ints }
    ensures { AllByRecursion IsNumber (numbers_of (view_of tree.now)) }
{
    for i in 0..Node::len(tree) {
        tree.number(i);
    }
}

fn look_at_bytes(bytes: &[u8])
    ensures { AreBytes bytes.now }
{}

/// Visits each part of a tree, since a contract says what a type promises only of what is visited:
/// the ranges of numbers, and that the keys of tables are valid and ascend.
#[cycle(look)]
pub(crate) fn look_at(tree: &Tree)
    ensures { IsSound (view_of tree.now) }
{
    match tree {
        Tree::String(units) => look_at_units(units.as_slice()),
        Tree::Int(number) => {
            number.get();
        }
        Tree::Ints(_) => look_at_numbers(tree),
        Tree::Binary(bytes) => look_at_bytes(bytes.as_slice()),
        Tree::Alias(units) => look_at_units(units.as_slice()),
        Tree::Array(trees) => look_at_items(trees),
        Tree::Table(entries) => look_at_entries(entries),
    }
}

#[cycle(look)]
fn look_at_items(trees: &TreeList)
    ensures { AreSound trees.now }
{
    for i in 0..trees.len() {
        look_at(trees.at(i));
    }
}

#[cycle(look)]
fn look_at_entries(entries: &Entries)
    ensures table { IsTable entries.now }
    ensures trees { EachSound entries.now }
{
    for i in 0..entries.len() {
        look_at(entries.at(i));
    }
}
