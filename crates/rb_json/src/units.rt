ghost use Rattle.std.specs.Prelude.{◌≡◌, ◌+◌, ◌<◌, ◌≤◌, ◌∷◌, drop, slice_index};
ghost use Rattle.std.specs.Char.Utf16.{utf16_chars};
ghost use Rattle.hex.specs.Hex.{lower_digits};
ghost use Rattle.rb_tree.specs.Parts.{HasUnits, kind_of, len_of, units_of};
ghost use Rattle.rb_json.specs.inner.Run.{IsRun};

use rb_tree::Node;

/// Returns a hexadecimal digit.
pub(crate) fn digit(n: u8) -> char
    requires { n < 16 }
    ensures is { result ≡ slice_index lower_digits n }
    ensures ascii { result < 128 }
{
    char::from(b"0123456789abcdef"[n as usize])
}

/// Returns the character whose units begin at an index, or `None` for a surrogate without a
/// partner, and the index at which the next one begins.
pub(crate) fn character_at<N: Node>(node: N, at: usize, len: usize) -> (Option<char>, usize)
    requires units { HasUnits (kind_of (N.tree node)) }
    requires len { len ≡ len_of (N.tree node) }
    requires in_range { at < len }
    ensures bound { (at < result.1) × (result.1 ≤ len_of (N.tree node)) }
    ensures first { utf16_chars (drop at (units_of (N.tree node)))
        ≡ result.0 ∷ utf16_chars (drop result.1 (units_of (N.tree node))) }
{
    let high = node.unit(at) as u32;
    if high < 0xD800 || 0xE000 <= high {
        return (char::from_u32(high), at + 1);
    }
    if 0xDC00 <= high || len - at < 2 {
        return (None, at + 1);
    }
    let low = node.unit(at + 1) as u32;
    if low < 0xDC00 || 0xE000 <= low {
        return (None, at + 1);
    }
    let code = 0x1_0000 + (high - 0xD800) * 0x400 + (low - 0xDC00);
    (char::from_u32(code), at + 2)
}

/// The most ASCII units that are written at a time.
pub(crate) const RUN: usize = 64;

/// Copies the ASCII units from an index on to the front of a block, a byte each, and returns their
/// number.
#[inline(always)]
pub(crate) fn ascii_run<N: Node>(block: &mut [u8; RUN], node: N, at: usize, len: usize) -> usize
    requires units { HasUnits (kind_of (N.tree node)) }
    requires len { len ≡ len_of (N.tree node) }
    requires in_range { at ≤ len }
    ensures bound { (result ≤ 64) × (at + result ≤ len) }
    ensures run { IsRun block.new (units_of (N.tree node)) at result }
{
    let most = RUN.min(len - at);
    for i in 0..most {
        let unit = node.unit(at + i);
        if 0x80 <= unit {
            return i;
        }
        block[i] = unit as u8;
    }
    most
}
