ghost use Rattle.std.specs.Prelude.{◌≡◌, ◌≤◌, ◌<◌, ◌+◌, ◌-◌, ◌↔◌, List, ℕ, true, false};
ghost use Rattle.std.specs.Prelude.{IfNone, IfSome, IsTrue, Some, slice_index, slice_range};
ghost use Rattle.std.specs.List.{list_all};
ghost use Rattle.std.specs.Str.{bytes_eq};
ghost use Rattle.rb_tree.specs.Parts.{HasUnits, kind_of, len_of, units_of};
ghost use Rattle.rb_tree.specs.declared.kind.Kind.TheVariants as Kinds;
ghost use Rattle.rb_fallback.specs.Alias.{is_plain, aim, aims, with_path, located, packaged};
ghost use Rattle.rb_fallback.specs.Answers.{aim_of};
ghost use Rattle.rb_fallback.specs.AliasPaths.{are_filled, segment_end, segments_after};
ghost use Rattle.rb_fallback.specs.AliasPaths.{segments_from};
ghost use Rattle.rb_fallback.specs.inner.PathScan.{AreFollowed, may_follow};
ghost use Rattle.rb_fallback.specs.inner.Stretches.{ArePlain, HasNoSlash};

use crate::fault::AliasFault;
use rb_locales::Name;
use rb_tree::Node;

/// Describes where an alias leads.
#[derive(Clone, Copy)]
pub struct Target {
    /// True if the text names ICUDATA; otherwise the alias stays in its own package.
    pub icudata: bool,
    /// The locale; for `/LOCALE` it is the valid locale of the lookup.
    pub name: Name,
    /// The unit at which the path begins in the alias's text; `None` keeps the path of the lookup.
    pub path_at: Option<usize>,
}

/// The number of units that a scan reads before it asks the node which units it may skip.
const STRETCH: usize = 1024;

/// The unit at which the path begins after `/LOCALE/`.
pub(crate) const LOCALE_PATH: usize = 8;

/// Returns true if each unit from `from` up to `past` is printable ASCII.
fn are_plain<N: Node>(node: N, from: usize, past: usize) -> bool
    requires units { HasUnits (kind_of (N.tree node)) }
    requires within { past ≤ len_of (N.tree node) }
    ensures yes { result ≡ true → ArePlain (units_of (N.tree node)) from past }
    ensures no { result ≡ false → list_all is_plain (units_of (N.tree node)) ≡ false }
{
    for i in from..past {
        let unit = node.unit(i);
        if unit < 0x20 || unit > 0x7E {
            return false;
        }
    }
    true
}

fn units_plain<N: Node>(node: N) -> bool
    requires { HasUnits (kind_of (N.tree node)) }
    ensures { result ≡ list_all is_plain (units_of (N.tree node)) }
{
    let len = node.len();
    let mut at = 0usize;
    'stretches: loop {
        let stop = len.min(at.saturating_add(STRETCH));
        if !are_plain(node, at, stop) {
            return false;
        }
        if stop == len {
            return true;
        }
        at = stop + node.segment_run(stop);
    }
}

/// Returns the index of the first slash from `from` up to `past`.
fn slash_in<N: Node>(node: N, from: usize, past: usize) -> Option<usize>
    requires units { HasUnits (kind_of (N.tree node)) }
    requires within { past ≤ len_of (N.tree node) }
    ensures some { IfSome result (λ i. from ≤ i × i < past
        × slice_index (units_of (N.tree node)) i ≡ 47
        × HasNoSlash (units_of (N.tree node)) from i) }
    ensures none { IfNone result (HasNoSlash (units_of (N.tree node)) from past) }
{
    for i in from..past {
        if node.unit(i) == 0x2F {
            return Some(i);
        }
    }
    None
}

/// Returns the index at which the segment ends that begins at `from`.
#[tactic(auto, using(crate::proofs::Texts::slash_here, crate::proofs::Texts::slash_none))]
fn segment_end<N: Node>(node: N, from: usize) -> usize
    requires units { HasUnits (kind_of (N.tree node)) }
    requires within { from ≤ len_of (N.tree node) }
    ensures place { result ≡ segment_end (units_of (N.tree node)) from }
    ensures within { result ≤ len_of (N.tree node) }
{
    let len = node.len();
    let mut at = from;
    'stretches: loop {
        let stop = len.min(at.saturating_add(STRETCH));
        if let Some(i) = slash_in(node, at, stop) {
            return i;
        }
        if stop == len {
            return len;
        }
        at = stop + node.segment_run(stop);
    }
}

/// Returns true if the units from `from` up to `past` spell a word.
#[tactic(auto, using(crate::proofs::Texts::word_no, crate::proofs::Texts::word_yes, crate::proofs::Texts::word_long))]
fn is_word<N: Node>(node: N, from: usize, past: usize, word: &[u8]) -> bool
    requires units { HasUnits (kind_of (N.tree node)) }
    requires order { from ≤ past }
    requires within { past ≤ len_of (N.tree node) }
    ensures { result ≡ bytes_eq (slice_range (units_of (N.tree node)) from past) word.now }
{
    if past - from != word.len() {
        return false;
    }
    for i in 0..word.len() {
        if node.unit(from + i) != word[i] as u16 {
            return false;
        }
    }
    true
}

/// Returns true if no segment from `from` on is empty.
#[tactic(auto, using(crate::proofs::Texts::filled_steps))]
fn filled_from<N: Node>(node: N, from: usize) -> bool
    requires units { HasUnits (kind_of (N.tree node)) }
    requires within { from ≤ len_of (N.tree node) }
    ensures { result ≡ are_filled (segments_from (units_of (N.tree node)) from) }
{
    let len = node.len();
    let mut at = from;
    'segments: loop {
        let past = segment_end(node, at);
        if past == at {
            return false;
        }
        if past == len {
            return true;
        }
        at = past + 1;
    }
}

/// Reads the path that follows a name, whose segment ends at `past`.
#[tactic(auto, using(crate::proofs::Texts::path_some, crate::proofs::Texts::segments_after_some))]
fn with_path<N: Node>(icudata: bool, name: Name, node: N, past: usize) -> Result<Target, AliasFault>
    requires units { HasUnits (kind_of (N.tree node)) }
    requires within { past ≤ len_of (N.tree node) }
    ensures { aim_of (units_of (N.tree node)) result
        ≡ with_path icudata name (segments_after (units_of (N.tree node)) past) }
{
    let len = node.len();
    if past == len || past + 1 == len {
        return Ok(Target {
            icudata,
            name,
            path_at: None,
        });
    }
    if !filled_from(node, past + 1) {
        return Err(AliasFault::AliasText);
    }
    Ok(Target {
        icudata,
        name,
        path_at: Some(past + 1),
    })
}

/// Reads a locale and a path, from `from` on.
#[tactic(auto, using(crate::proofs::Texts::located_none))]
fn located<N: Node>(icudata: bool, node: N, from: usize) -> Result<Target, AliasFault>
    requires units { HasUnits (kind_of (N.tree node)) }
    requires within { from ≤ len_of (N.tree node) }
    ensures { aim_of (units_of (N.tree node)) result
        ≡ located icudata (segments_from (units_of (N.tree node)) from) }
{
    let past = segment_end(node, from);
    if past == from {
        return Err(AliasFault::AliasText);
    }
    match Name::read_part(node, from, past) {
        Ok(name) => with_path(icudata, name, node, past),
        Err(_) => Err(AliasFault::AliasText),
    }
}

/// Reads a package and what follows it, after the first slash.
fn packaged<N: Node>(node: N, valid: &Name) -> Result<Target, AliasFault>
    requires units { HasUnits (kind_of (N.tree node)) }
    requires slash { 1 ≤ len_of (N.tree node) }
    ensures { aim_of (units_of (N.tree node)) result
        ≡ packaged valid.now (segments_from (units_of (N.tree node)) 1) }
{
    let past = segment_end(node, 1);
    if is_word(node, 1, past, b"LOCALE") {
        return with_path(false, *valid, node, past);
    }
    if !is_word(node, 1, past, b"ICUDATA") {
        return Err(AliasFault::AliasPackage);
    }
    if past == node.len() {
        return Err(AliasFault::AliasText);
    }
    located(true, node, past + 1)
}

/// Returns true if a unit may follow another one in a path.
fn may_follow(before: u16, unit: u16) -> bool
    ensures { result ≡ may_follow before unit }
{
    (0x20 <= unit) & (unit <= 0x7E) & !((unit == 0x2F) & (before == 0x2F))
}

/// Returns true if each of 16 units from `at` on may be followed by the next one. It never ends
/// early, so all of them are tested at a time.
#[inline(always)]
fn block_ok<N: Node>(node: N, at: usize) -> bool
    requires units { HasUnits (kind_of (N.tree node)) }
    requires within { at + 16 < len_of (N.tree node) }
    requires short { at ≤ 1024 }
    ensures { IsTrue result ↔ AreFollowed (units_of (N.tree node)) at (at + 16) }
{
    let mut good = true;
    for i in 0..16 {
        good = good & may_follow(node.unit(at + i), node.unit(at + i + 1));
    }
    good
}

/// Returns true if each unit from `from` on but the last may be followed by the next one. The last
/// block begins 16 units before the last unit, so it may overlap the one before it.
fn blocks_ok<N: Node>(node: N, from: usize) -> bool
    requires units { HasUnits (kind_of (N.tree node)) }
    requires block { from + 16 < len_of (N.tree node) }
    requires short { len_of (N.tree node) ≤ 1024 }
    ensures { result ≡ true
        → AreFollowed (units_of (N.tree node)) from (len_of (N.tree node) - 1) }
{
    let last = node.len() - 17;
    let mut at = from;
    while at < last {
        if !block_ok(node, at) {
            return false;
        }
        at += 16;
    }
    block_ok(node, last)
}

/// Tests quickly whether the text is `/LOCALE/` and a path of 16 to 1,016 units. Almost all aliases
/// of CLDR are. For another text it may return false although the text is valid.
pub(crate) fn leads_to_path<N: Node>(node: N) -> bool
    requires { HasUnits (kind_of (N.tree node)) }
    ensures { result ≡ true → (valid : List ℕ) → aim (units_of (N.tree node)) valid
        ≡ aims false valid (Some (segments_from (units_of (N.tree node)) 8)) }
{
    let len = node.len();
    if len < 24 || len > STRETCH {
        return false;
    }
    if !is_word(node, 0, LOCALE_PATH, b"/LOCALE/") {
        return false;
    }
    // The end is tested last: clang makes more of the blocks if it knows nothing of their units.
    let followed = blocks_ok(node, 7);
    followed & (node.unit(len - 1) != 0x2F)
}

/// Reads the text of an alias, where `valid` is the valid locale of the lookup.
///
/// The errors come in this order. `AliasText`: the text is empty or has a unit outside of printable
/// ASCII. `AliasPackage`: it begins with a slash, and neither `LOCALE` nor `ICUDATA` follows.
/// `AliasText`: its locale is missing, empty or invalid, or its path has an empty segment.
#[tactic(auto, using(crate::proofs::Texts::aim_slash))]
pub fn read_alias<N: Node>(node: N, valid: &Name) -> Result<Target, AliasFault>
    requires { kind_of (N.tree node) ≡ Kinds.Alias }
    ensures { aim_of (units_of (N.tree node)) result ≡ aim (units_of (N.tree node)) valid.now }
{
    if leads_to_path(node) {
        return Ok(Target {
            icudata: false,
            name: *valid,
            path_at: Some(LOCALE_PATH),
        });
    }
    if node.len() == 0 || !units_plain(node) {
        return Err(AliasFault::AliasText);
    }
    if node.unit(0) != 0x2F {
        return located(false, node, 0);
    }
    packaged(node, valid)
}
