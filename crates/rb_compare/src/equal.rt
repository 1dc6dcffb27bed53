ghost use Rattle.std.specs.Prelude.{◌≡◌, ◌≤◌, ◌<◌};
ghost use Rattle.rb_tree.specs.Parts.{kind_of, len_of};
ghost use Rattle.rb_tree.specs.declared.kind.Kind.TheVariants as Kinds;

use rb_tree::{Kind, Node};

/// Compares the units, numbers or bytes of two items.
fn are_equal_parts<N: Node>(a: N, b: N) -> bool
    requires kind { kind_of (N.tree a) ≡ kind_of (N.tree b) }
    requires len { len_of (N.tree a) ≡ len_of (N.tree b) }
{
    for i in 0..a.len() {
        let is_same = match a.kind() {
            Kind::String | Kind::Alias => a.unit(i) == b.unit(i),
            Kind::Ints => a.number(i) == b.number(i),
            Kind::Binary => a.byte(i) == b.byte(i),
            Kind::Int | Kind::Array | Kind::Table => true,
        };
        if !is_same {
            return false;
        }
    }
    true
}

/// Compares the items of two arrays.
#[cycle(equal)]
fn are_equal_items<N: Node>(a: N, b: N, levels: u64) -> bool
    requires a { kind_of (N.tree a) ≡ Kinds.Array }
    requires b { kind_of (N.tree b) ≡ Kinds.Array }
    requires len { len_of (N.tree a) ≡ len_of (N.tree b) }
    requires levels { (0 < levels) × (levels ≤ 64) }
{
    for i in 0..a.len() {
        if !are_equal(a.at(i), b.at(i), levels - 1) {
            return false;
        }
    }
    true
}

/// Compares the entries of two tables.
#[cycle(equal)]
fn are_equal_entries<N: Node>(a: N, b: N, levels: u64) -> bool
    requires a { kind_of (N.tree a) ≡ Kinds.Table }
    requires b { kind_of (N.tree b) ≡ Kinds.Table }
    requires len { len_of (N.tree a) ≡ len_of (N.tree b) }
    requires levels { (0 < levels) × (levels ≤ 64) }
{
    for i in 0..a.len() {
        if a.key_at(i) != b.key_at(i) || !are_equal(a.at(i), b.at(i), levels - 1) {
            return false;
        }
    }
    true
}

/// Checks whether two items of at most `levels` levels are equal, with all that is below them.
#[cycle(equal)]
pub fn are_equal<N: Node>(a: N, b: N, levels: u64) -> bool
    requires { levels ≤ 64 }
{
    if a.kind() != b.kind() || a.len() != b.len() {
        return false;
    }
    match a.kind() {
        Kind::Int => a.int() == b.int(),
        Kind::Array if levels > 0 => are_equal_items(a, b, levels),
        Kind::Table if levels > 0 => are_equal_entries(a, b, levels),
        Kind::Array | Kind::Table => a.len() == 0,
        _ => are_equal_parts(a, b),
    }
}
