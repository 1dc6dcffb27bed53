ghost use Rattle.std.specs.Prelude.{◌≡◌, ◌≤◌, ◌+◌, ◌-◌, length, take, drop, map, slice_range};
ghost use Rattle.std.specs.Result.{result_ok};
ghost use Rattle.std.specs.List.{position_or_len};
ghost use Rattle.rb_tree.specs.Parts.{HasUnits, kind_of, len_of, units_of};
ghost use Rattle.rb_locales.specs.Locale.{name, is_at};
ghost use Rattle.rb_locales.specs.inner.Narrow.{narrow};

use crate::fault::BadLocale;
use crate::limits::NAME_LIMIT;
use crate::name::Name;
use rb_tree::Node;

#[tactic(auto, using(crate::proofs::Narrowed::before_here, crate::proofs::Narrowed::before_none))]
fn units_before_at<N: Node>(node: N, from: usize, past: usize) -> usize
    requires units { HasUnits (kind_of (N.tree node)) }
    requires order { from ≤ past }
    requires within { past ≤ len_of (N.tree node) }
    ensures first { result
        ≡ position_or_len is_at (slice_range (units_of (N.tree node)) from past) }
    ensures within { result ≤ past - from }
{
    for i in from..past {
        if node.unit(i) == 0x40 {
            return i - from;
        }
    }
    past - from
}

#[tactic(auto, using(crate::proofs::Narrowed::filled))]
fn fill_units<N: Node>(node: N, from: usize, past: usize, field: &mut [u8])
    requires units { HasUnits (kind_of (N.tree node)) }
    requires inside { from + length field.old ≤ past }
    requires within { past ≤ len_of (N.tree node) }
    ensures { field.new
        ≡ map narrow (take (length field.old) (drop from (units_of (N.tree node)))) }
{
    for i in 0..field.len() {
        let unit = node.unit(from + i);
        field[i] = if unit < 128 { unit as u8 } else { 0 };
    }
}

fn fill_front<N: Node>(node: N, from: usize, past: usize, len: usize, field: &mut [u8])
    requires units { HasUnits (kind_of (N.tree node)) }
    requires fits { len ≤ length field.old }
    requires inside { from + len ≤ past }
    requires within { past ≤ len_of (N.tree node) }
    ensures front { take len field.new
        ≡ map narrow (take len (drop from (units_of (N.tree node)))) }
    ensures room { length field.new ≡ length field.old }
{
    fill_units(node, from, past, &mut field[..len]);
}

impl Name {
    /// Reads a name from the units `from..past` of a String or an Alias, like `read`.
    pub fn read_part<N: Node>(node: N, from: usize, past: usize) -> Result<Name, BadLocale>
        requires units { HasUnits (kind_of (N.tree node)) }
        requires order { from ≤ past }
        requires within { past ≤ len_of (N.tree node) }
        ensures { result_ok result ≡ name (slice_range (units_of (N.tree node)) from past) }
    {
        let len = units_before_at(node, from, past);
        if len > NAME_LIMIT {
            return Err(BadLocale);
        }
        let mut field = [0u8; NAME_LIMIT];
        fill_front(node, from, past, len, &mut field);
        Name::read(&field[..len])
    }

    /// Reads a name from the units of a String or an Alias, like `read`.
    pub fn read_units<N: Node>(node: N) -> Result<Name, BadLocale>
        requires { HasUnits (kind_of (N.tree node)) }
        ensures { result_ok result ≡ name (units_of (N.tree node)) }
    {
        Name::read_part(node, 0, node.len())
    }
}
