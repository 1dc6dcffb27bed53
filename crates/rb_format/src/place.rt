ghost use Rattle.std.specs.Prelude.{◌≡◌, ◌+◌, ◌*◌, ◌≤◌, ◌<◌, ◌==◌, ◌&&◌, nat_lt, length};
ghost use Rattle.std.specs.Prelude.{slice_index_or, position, not, IfSome};
ghost use Rattle.std.specs.Option.{option_copied};
ghost use Rattle.rb_format.specs.Place as places;
ghost use Rattle.rb_tree.specs.Path.{is_plain};
ghost use Rattle.rb_format.specs.Place.{word, half, key, key_at, key_front};

use crate::layout::Layout;
use byteorder::{ByteOrder, LittleEndian};

/// Reads the word at byte 4i, or returns None if it extends past the end.
#[tactic(auto, unfolding(crate::specs::Place::word_at))]
pub fn word(body: &[u8], i: usize) -> Option<u32>
    ensures { result ≡ word body.now i }
{
    (i < body.len() / 4).then(|| word_at(body, i))
}

/// Reads the half word at byte 2i, or returns None if it extends past the end.
#[tactic(auto, unfolding(crate::specs::Place::half_at))]
pub fn half(body: &[u8], i: usize) -> Option<u16>
    ensures { result ≡ half body.now i }
{
    (i < body.len() / 2).then(|| half_at(body, i))
}

/// Reads the key at byte k: the bytes before the next NUL, or None if there is no key.
pub fn key_at(body: &[u8], k: u32) -> Option<&[u8]>
    ensures { option_copied result ≡ key_at body.now k }
{
    if body.len() < 12 {
        return None;
    }
    let layout = Layout {
        indexes: word_at(body, 1),
        keys_top: word_at(body, 2),
        top: 0,
    };
    key_within(&layout, body, k)
}

/// Reads the key at byte k, like `key_at`, with the bounds already known.
#[tactic(auto, unfolding(crate::specs::Place::key), using(crate::proofs::Fronts::key_behind, crate::proofs::Fronts::key_beyond))]
pub fn key_within<'a>(layout: &Layout, body: &'a [u8], k: u32) -> Option<&'a [u8]>
    ensures { option_copied result ≡ key layout.now body.now k }
{
    let k = k as usize;
    let high = (4 * layout.keys_top as usize).min(body.len());
    if k < 4 * (1 + layout.indexes as usize) {
        return None;
    }
    if k < high {
        key_in(&body[k..high])
    } else {
        None
    }
}

fn key_in(run: &[u8]) -> Option<&[u8]>
    ensures { option_copied result ≡ key_front run.now }
{
    match plain_end(run) {
        Some(end) if is_ended(run, end) => Some(&run[..end]),
        _ => None,
    }
}

fn is_ended(run: &[u8], end: usize) -> bool
    requires { end < length run.now }
    ensures { result ≡ (nat_lt 0 end && (slice_index_or run.now end 0 == 0)) }
{
    0 < end && run[end] == 0
}

fn plain_end(bytes: &[u8]) -> Option<usize>
    ensures value { result ≡ position (λ b. not (is_plain b)) bytes.now }
    ensures bound { IfSome result (λ n. n < length bytes.now) }
{
    bytes.iter().position(|&b| !(0x20 <= b && b <= 0x7E))
}

#[tactic(auto, unfolding(crate::specs::Place::word_at))]
pub fn word_at(body: &[u8], i: usize) -> u32
    requires { 4 * i + 4 ≤ length body.now }
    ensures { result ≡ places.word_at body.now i }
{
    LittleEndian::read_u32(&body[4 * i..])
}

#[tactic(auto, unfolding(crate::specs::Place::half_at))]
pub fn half_at(body: &[u8], i: usize) -> u16
    requires { 2 * i + 2 ≤ length body.now }
    ensures { result ≡ places.half_at body.now i }
{
    LittleEndian::read_u16(&body[2 * i..])
}
