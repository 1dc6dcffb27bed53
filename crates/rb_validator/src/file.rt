//! Checks a whole file.
ghost use Rattle.std.specs.Prelude.{◌≡◌, ◌⊎◌, ◌+◌, ◌*◌, ◌≤◌, ◌<◌, ◌^◌, None, Some, Err, length, drop, IfOk};
ghost use Rattle.std.specs.Prelude.{IfErr, MatchResult};
ghost use Rattle.rb_tree.specs.Resource.{height};
ghost use Rattle.rb_format.specs.inner.FirstFault.{result_map, read};
ghost use Rattle.rb_validator.specs.inner.KnownKeys.{IsSound};
ghost use Rattle.rb_validator.specs.inner.Marks.{marked};
ghost use Rattle.rb_format.specs.inner.FirstFault.{fault_of, read_data, read_file};
ghost use Rattle.rb_format.specs.Place as fields;
ghost use Rattle.rb_validator.specs.TextBlocks.{AreSegmentBlocks};
ghost use Rattle.rb_validator.specs.inner.CachedSpans.{IsFresh};
ghost use Rattle.rb_validator.specs.inner.Noted.{blocks_noted};
ghost use Rattle.rb_validator.specs.Visits.{IsPlaceAt, IsCount, HasVisits};
ghost use Rattle.rb_format.specs.Limits.{file_limit};

use crate::body::{Body, Checked};
use crate::items::state::CheckState;
use crate::items::walk::check_item;
use crate::notes::{Notes, noted};
use crate::text_blocks::segment_blocks;
use rb_format::{
    Attributes, FILE_LIMIT, FileFault, Header, Layout, has_valid_indexes, is_table, item_kind,
    word_at,
};
use rb_tree::HEIGHT_LIMIT;
use std::alloc::Global;

#[derive(Drop)]
pub struct Found {
    pub visits: u32,
    pub notes: Option<Box<Notes>>,
}

/// Checks a file, and returns its number of visits and its notes, its first fault, or `Memory`.
#[tactic(auto, using(rb_format::proofs::Checks::header_is), unfolding(rb_format::specs::inner::FirstFault::read_file))]
pub fn check_file(alloc: Global, bytes: &[u8]) -> Checked<Found>
    ensures answer { MatchResult result (λ _. fault_of (read_file 64 bytes.now) ≡ None)
        (λ e. (e ≡ FileFault.Memory) ⊎ (fault_of (read_file 64 bytes.now) ≡ Some e)) }
    ensures visits { IfOk result (λ n. HasVisits bytes.now n.visits) }
    ensures blocks { IfOk result
        (λ n. AreSegmentBlocks (drop (fields.half_at bytes.now 0) bytes.now)
        (blocks_noted n.notes)) }
{
    if bytes.len() > FILE_LIMIT {
        return Err(FileFault::TooLong);
    }
    let header = Header::read(bytes)?;
    check_data(alloc, header.minor, &bytes[header.size as usize..])
}

fn found_of(alloc: Global, body: Body<'_>, state: &CheckState) -> Checked<Found>
    requires { marked state.now.memo (length state.now.memo) < 2 ^ 32 }
    ensures memory { IfErr result (λ e. e ≡ FileFault.Memory) }
    ensures visits { IfOk result
        (λ n. n.visits ≡ marked state.now.memo (length state.now.memo)) }
    ensures blocks { IfOk result
        (λ n. AreSegmentBlocks body.entry.bytes.now (blocks_noted n.notes)) }
{
    let Ok(blocks) = segment_blocks(alloc, body.bytes, state.has_long_alias) else {
        return Err(FileFault::Memory);
    };
    let Ok(notes) = noted(alloc, blocks) else {
        return Err(FileFault::Memory);
    };
    Ok(Found {
        visits: state.memo.visits() as u32,
        notes,
    })
}

/// Checks the root item and all items below it.
fn check_root(body: Body<'_>, state: &mut CheckState, root: u32) -> Checked<u8>
    requires room { 4 * body.layout.now.top ≤ length body.bytes.now }
    requires tops { body.layout.now.keys_top ≤ body.layout.now.top }
    requires layout { body.layout.now ≡ fields.layout_of body.bytes.now }
    requires root { root ≡ fields.word_at body.bytes.now 0 }
    requires fresh { IsFresh body.layout.now state.old.memo state.old.runs }
    requires sound { IsSound body.layout.now body.bytes.now state.old.keys.known }
    ensures value { (result ≡ Err FileFault.Memory) ⊎ (result
        ≡ result_map height (read body.entry.layout.now body.entry.bytes.now 64 root)) }
    ensures sound { IsSound body.entry.layout.now body.entry.bytes.now state.new.keys.known }
    ensures visits { IfOk result (λ _. IsCount (IsPlaceAt body.entry.bytes.now)
        (3 * fields.word_at body.entry.bytes.now 4)
        (marked state.new.memo (length state.new.memo))) }
{
    let height = check_item(body, state, root, HEIGHT_LIMIT as u8)?;
    Ok(height)
}

fn check_tree(alloc: Global, body: Body<'_>, root: u32) -> Checked<Found>
    requires short { length body.bytes.now ≤ file_limit }
    requires room { 4 * body.layout.now.top ≤ length body.bytes.now }
    requires tops { body.layout.now.keys_top ≤ body.layout.now.top }
    requires layout { body.layout.now ≡ fields.layout_of body.bytes.now }
    requires root { root ≡ fields.word_at body.bytes.now 0 }
    ensures fault { (result ≡ Err FileFault.Memory) ⊎ (fault_of result
        ≡ fault_of (read body.entry.layout.now body.entry.bytes.now 64 root)) }
    ensures visits { IfOk result (λ n. IsCount (IsPlaceAt body.entry.bytes.now)
        (3 * fields.word_at body.entry.bytes.now 4) n.visits) }
    ensures blocks { IfOk result (λ n. AreSegmentBlocks body.entry.bytes.now (blocks_noted n.notes)) }
{
    let Ok(mut state) = CheckState::new(alloc, body) else {
        return Err(FileFault::Memory);
    };
    check_root(body, &mut state, root)?;
    found_of(alloc, body, &state)
}

#[tactic(auto, unfolding(rb_format::specs::inner::FirstFault::read_data))]
fn check_data(alloc: Global, minor: u8, body: &[u8]) -> Checked<Found>
    requires { length body.now ≤ file_limit }
    ensures answer { MatchResult result (λ _. fault_of (read_data 64 minor body.now) ≡ None)
        (λ e. (e ≡ FileFault.Memory) ⊎ (fault_of (read_data 64 minor body.now) ≡ Some e)) }
    ensures visits { IfOk result
        (λ n. IsCount (IsPlaceAt body.now) (3 * fields.word_at body.now 4) n.visits) }
    ensures blocks { IfOk result (λ n. AreSegmentBlocks body.now (blocks_noted n.notes)) }
{
    if !has_valid_indexes(body) {
        return Err(FileFault::Indexes);
    }
    if Attributes::of(minor, body).has_pool() {
        return Err(FileFault::Attributes);
    }
    let layout = Layout::of(body);
    let root = word_at(body, 0);
    if !is_table(item_kind(root)) {
        return Err(FileFault::Root);
    }
    let body = Body {
        layout: &layout,
        bytes: body,
    };
    check_tree(alloc, body, root)
}
