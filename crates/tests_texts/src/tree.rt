//! Tests trees: each public call at least once.
ghost use Rattle.std.specs.Prelude.{All};
ghost use Rattle.rb_tree.specs.Keys.{IsKey};
ghost use Rattle.rb_tree.specs.Table.{keys_in};

use rb_tree::{
    ByteList, Ending, Int28, Kind, Node, NumberList, TableFault, Tree, TreeList, UnitList, key_ok,
    path_ok, walk,
};
use std::alloc::Global;
use std::test::Fail;

fn number(n: u32) -> Result<Tree, Fail> {
    Ok(Tree::Int(Int28::new(n).ok_or("too large")?))
}

fn text(alloc: Global, unit: u16) -> Result<UnitList, Fail> {
    Ok(UnitList::from_vec(vec![in alloc; unit]?))
}

/// Adds an entry.
fn put(alloc: Global, pairs: &mut Vec<(ByteList, Tree)>, key: &[u8], tree: Tree) -> Result<(), Fail>
    requires { All IsKey (keys_in pairs.old.items) }
    ensures { All IsKey (keys_in pairs.new.items) }
{
    let key = ByteList::from_vec(key.to_vec(alloc)?);
    if !key_ok(key.as_slice()) {
        return Err("no key".into());
    }
    match pairs.push((key, tree)) {
        Ok(()) => Ok(()),
        Err(_) => Err("memory".into()),
    }
}

fn put_number(
    alloc: Global,
    pairs: &mut Vec<(ByteList, Tree)>,
    key: &[u8],
    n: u32,
) -> Result<(), Fail>
    requires { All IsKey (keys_in pairs.old.items) }
    ensures { All IsKey (keys_in pairs.new.items) }
{
    put(alloc, pairs, key, number(n)?)
}

fn put_text(
    alloc: Global,
    pairs: &mut Vec<(ByteList, Tree)>,
    key: &[u8],
    unit: u16,
) -> Result<(), Fail>
    requires { All IsKey (keys_in pairs.old.items) }
    ensures { All IsKey (keys_in pairs.new.items) }
{
    put(alloc, pairs, key, Tree::String(text(alloc, unit)?))
}

fn table(alloc: Global, pairs: Vec<(ByteList, Tree)>) -> Result<Tree, Fail>
    requires { All IsKey (keys_in pairs.items) }
{
    Tree::table(alloc, pairs).map_err(|fault| fault.word().into())
}

/// Returns a table of the integer 1 under `b` and the integer 2 under `a`.
fn numbers(alloc: Global) -> Result<Tree, Fail> {
    let mut pairs = Vec::new(alloc);
    put_number(alloc, &mut pairs, b"b", 1)?;
    put_number(alloc, &mut pairs, b"a", 2)?;
    table(alloc, pairs)
}

/// Checks whether a tree is an integer.
fn is_number(node: &Tree, n: u32) -> bool {
    node.kind() == Kind::Int && node.int() == n
}

/// Checks whether a table has a key with an integer.
fn has_number(table: &Tree, key: &[u8], n: u32) -> bool {
    table.kind() == Kind::Table && table.child(key).is_some_and(|node| is_number(node, n))
}

#[test]
fn sorts_a_table(rt: HostRuntime) -> Result<(), Fail> {
    let tree = numbers(rt.alloc())?;
    assert!(rt; tree.height() == 2 && tree.weight() == 28 && tree.fits());
    assert!(rt; (&tree).len() == 2 && has_number(&tree, b"a", 2));
    Ok(())
}

/// Returns a table of the string `B` under `b` and the string `A` under `a`.
fn texts(alloc: Global) -> Result<Tree, Fail> {
    let mut pairs = Vec::new(alloc);
    put_text(alloc, &mut pairs, b"b", 66)?;
    put_text(alloc, &mut pairs, b"a", 65)?;
    table(alloc, pairs)
}

/// Checks whether a tree is text of one unit, of this kind.
fn is_text(node: &Tree, kind: Kind, unit: u16) -> bool {
    match node {
        Tree::String(_) | Tree::Alias(_) => node.kind() == kind
            && node.len() == 1
            && node.unit(0) == unit,
        _ => false,
    }
}

/// Checks whether a table has, at an index, this key and a string of this one unit.
fn has_text(table: &Tree, i: usize, key: &[u8], unit: u16) -> bool {
    if table.kind() != Kind::Table || i >= table.len() || table.key_at(i) != key {
        return false;
    }
    is_text(table.at(i), Kind::String, unit)
}

#[test]
fn sorts_a_table_of_texts(rt: HostRuntime) -> Result<(), Fail> {
    let tree = texts(rt.alloc())?;
    assert!(rt; tree.height() == 2 && tree.weight() == 48);
    assert!(rt; has_text(&tree, 0, b"a", 65) && has_text(&tree, 1, b"b", 66));
    Ok(())
}

/// Returns the fault of three entries of which the last has the key of the first.
fn repeated(alloc: Global) -> Result<Option<TableFault>, Fail> {
    let mut pairs = Vec::new(alloc);
    put_number(alloc, &mut pairs, b"b", 1)?;
    put_number(alloc, &mut pairs, b"a", 2)?;
    put_number(alloc, &mut pairs, b"b", 3)?;
    Ok(Tree::table(alloc, pairs).err())
}

#[test]
fn refuses_a_key_that_comes_again(rt: HostRuntime) -> Result<(), Fail> {
    assert!(rt; repeated(rt.alloc())? == Some(TableFault::DuplicateKey(2)));
    assert!(rt; TableFault::Memory.word() == "Memory");
    Ok(())
}

/// Adds an item.
fn push(trees: &mut Vec<Tree>, tree: Tree) -> Result<(), Fail> {
    match trees.push(tree) {
        Ok(()) => Ok(()),
        Err(_) => Err("memory".into()),
    }
}

/// Returns an array of the integer 7 and an alias.
fn pair(alloc: Global) -> Result<Tree, Fail> {
    let mut trees = Vec::new(alloc);
    push(&mut trees, number(7)?)?;
    push(&mut trees, Tree::Alias(text(alloc, 65)?))?;
    Ok(Tree::Array(TreeList::from_vec(trees)))
}

/// Returns a table of that array under `list`.
fn listed(alloc: Global) -> Result<Tree, Fail> {
    let mut pairs = Vec::new(alloc);
    put(alloc, &mut pairs, b"list", pair(alloc)?)?;
    table(alloc, pairs)
}

/// Returns a word for where a walk ends.
fn ended(tree: &Tree, path: &[u8]) -> &'static str {
    if !path_ok(path) {
        return "no path";
    }
    match walk(tree, path) {
        Ending::End(node) => match node.kind() {
            Kind::Table => "Table",
            Kind::Array => "Array",
            Kind::Int => "Int",
            _ => "other",
        },
        Ending::Link(_, 6) => "link 6",
        Ending::Link(..) => "link",
        Ending::Gone => "gone",
    }
}

/// Paths, each with the word for where a walk ends.
const WALKS: &str = "\
|Table
list|Array
list/0|Int
list/1/x|link 6
list/01|gone
list/2|gone
lis|gone
list/0/0|gone
a//b|no path
/|no path
a/|no path
\x1F|no path
\x7F|no path";

/// Checks whether each path of `WALKS` ends as its word says.
fn all_end(tree: &Tree) -> bool {
    for row in WALKS.lines() {
        let Some((path, wanted)) = row.split_once('|') else {
            return false;
        };
        if ended(tree, path.as_bytes()) != wanted {
            return false;
        }
    }
    true
}

#[test]
fn walks(rt: HostRuntime) -> Result<(), Fail> {
    let tree = listed(rt.alloc())?;
    assert!(rt; all_end(&tree));
    Ok(())
}

/// Returns an array of the integers 7 and 8.
fn plain(alloc: Global) -> Result<Tree, Fail> {
    let mut trees = Vec::new(alloc);
    push(&mut trees, number(7)?)?;
    push(&mut trees, number(8)?)?;
    Ok(Tree::Array(TreeList::from_vec(trees)))
}

/// Checks whether a path ends at an integer.
fn leads_to(tree: &Tree, path: &[u8], n: u32) -> bool {
    path_ok(path)
        && match walk(tree, path) {
            Ending::End(node) => is_number(node, n),
            _ => false,
        }
}

#[test]
fn walks_to_the_last_item(rt: HostRuntime) -> Result<(), Fail> {
    let tree = plain(rt.alloc())?;
    assert!(rt; leads_to(&tree, b"1", 8));
    Ok(())
}

#[test]
fn keeps_units(rt: HostRuntime) -> Result<(), Fail> {
    assert!(rt; UnitList::new(rt.alloc()).into_vec().len() == 0);
    let units = text(rt.alloc(), 66)?;
    assert!(rt; units.as_slice() == [66].as_slice());
    assert!(rt; units.into_vec().len() == 1);
    Ok(())
}

#[test]
fn keeps_numbers(rt: HostRuntime) -> Result<(), Fail> {
    let numbers = NumberList::from_vec(vec![in rt.alloc(); -1]?);
    assert!(rt; numbers.as_slice() == [-1].as_slice());
    assert!(rt; numbers.into_vec().len() == 1);
    Ok(())
}

#[test]
fn keeps_bytes(rt: HostRuntime) -> Result<(), Fail> {
    let bytes = ByteList::from_vec(vec![in rt.alloc(); 7]?);
    assert!(rt; bytes.into_vec().len() == 1);
    Ok(())
}

#[test]
fn keeps_28_bits(rt: HostRuntime) {
    assert!(rt; Int28::new(1 << 28).is_none());
    assert!(rt; Int28::new((1 << 28) - 1).is_some());
}

/// Returns an array of a string, integers, a binary and an alias, each of one element.
fn each_kind(alloc: Global) -> Result<Tree, Fail> {
    let mut trees = Vec::new(alloc);
    push(&mut trees, Tree::String(text(alloc, 9)?))?;
    push(
        &mut trees,
        Tree::Ints(NumberList::from_vec(vec![in alloc; -8]?)),
    )?;
    push(
        &mut trees,
        Tree::Binary(ByteList::from_vec(vec![in alloc; 7]?)),
    )?;
    push(&mut trees, Tree::Alias(text(alloc, 6)?))?;
    Ok(Tree::Array(TreeList::from_vec(trees)))
}

/// Checks whether a tree is a vector of one number.
fn is_ints(node: &Tree, n: i32) -> bool {
    node.kind() == Kind::Ints && node.len() == 1 && node.number(0) == n
}

/// Checks whether a tree is a binary of one byte.
fn is_binary(node: &Tree, byte: u8) -> bool {
    node.kind() == Kind::Binary && node.len() == 1 && node.byte(0) == byte
}

/// Checks whether a tree is the array of `each_kind`.
fn has_each_kind(node: &Tree) -> bool {
    node.kind() == Kind::Array
        && node.len() == 4
        && is_text(node.at(0), Kind::String, 9)
        && is_ints(node.at(1), -8)
        && is_binary(node.at(2), 7)
        && is_text(node.at(3), Kind::Alias, 6)
}

#[test]
fn reads_each_kind(rt: HostRuntime) -> Result<(), Fail> {
    let tree = each_kind(rt.alloc())?;
    assert!(rt; has_each_kind(&tree));
    Ok(())
}
