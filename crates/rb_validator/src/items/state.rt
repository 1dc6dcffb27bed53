ghost use Rattle.std.specs.Prelude.{◌≡◌, ◌≤◌, ◌<◌, ◌*◌, ℕ, IfOk, length, slice_index};
ghost use Rattle.rb_format.specs.Limits.{file_limit};
ghost use Rattle.rb_validator.specs.inner.KnownKeys.{IsSound};
ghost use Rattle.rb_validator.specs.inner.CachedSpans.{IsFresh};

use crate::body::Body;
use crate::items::memo::Memo;
use crate::keys::checker::KeyChecker;
use crate::spans::cache::SpanCache;
use crate::text_blocks::is_long_alias;
use rb_format::ItemKind;
use std::alloc::{AllocError, Global};

#[derive(Drop)]
pub struct CheckState {
    pub memo: Memo,
    pub runs: SpanCache,
    pub keys: KeyChecker,
    /// True if the text of some alias is as long as a block.
    pub has_long_alias: bool,
}

impl CheckState {
    pub fn new(alloc: Global, body: Body<'_>) -> Result<CheckState, AllocError>
        requires { length body.bytes.now ≤ file_limit }
        ensures fresh { IfOk result (λ s. IsFresh body.entry.layout.now s.memo s.runs) }
        ensures sound { IfOk result
            (λ s. IsSound body.entry.layout.now body.entry.bytes.now s.keys.known) }
    {
        Ok(CheckState {
            memo: Memo::new(alloc, body.layout.top)?,
            runs: SpanCache::new(alloc, body.layout.top),
            keys: KeyChecker::new(alloc, body),
            has_long_alias: false,
        })
    }

    #[inline(always)]
    pub fn note(&mut self, body: Body<'_>, kind: ItemKind, offset: u32)
        requires room { 4 * body.layout.now.top ≤ length body.bytes.now }
        requires below { offset < body.layout.now.top }
        ensures memo { self.new.memo ≡ self.old.memo }
        ensures runs { self.new.runs ≡ self.old.runs }
        ensures keys { self.new.keys ≡ self.old.keys }
    {
        if is_long_alias(body, kind, offset) {
            self.has_long_alias = true;
        }
    }
}
