ghost use Rattle.std.specs.Prelude.{◌≡◌, [], ◌∷◌, ◌++◌, OnOk, Some, option_map};
ghost use Rattle.serde_json.specs.Written.{compact_text};
ghost use Rattle.rb_replies.specs.Replied.{error as error_data, reply_data, response_data};
ghost use Rattle.rb_replies.specs.Replied.{usage_data};
ghost use Rattle.rb_replies.specs.Extended.{refusal_data, sizes_data, stored_data};
ghost use Rattle.rb_engine.specs.LookResponse.{look_response};
ghost use Rattle.rb_views.specs.Seen.{tree_seen};

use crate::extended::{Detail, put_refusal, put_sizes, put_stored};
use crate::reply::{put_error, put_look, put_reply, put_usage};
use rb_engine::{LookFault, Reply};
use rb_fallback::Found;
use rb_json::Buffer;
use rb_locales::Name;
use rb_views::Item;
use std::alloc::{AllocError, Global};
use std::marker::Model;
use std::mem;

/// A buffer above this many bytes isn't kept for the next reply.
const KEPT: usize = 65_536;

/// A reply as a line: a compact JSON object with its members in ascending order, and a line feed. A
/// form of this project.
///
/// The next reply uses the memory of the last one, unless it is above 64 KB.
#[derive(Drop)]
pub struct ReplyLine {
    bytes: Vec<u8>,
}

impl Model for ReplyLine {
    ghost use Rattle.std.specs.Prelude.{List, ℕ};

    ghost Value = { List ℕ };

    ghost view = { λ line. line.bytes.items };
}

#[tactic(auto, using(crate::proofs::Lines::line_told))]
impl ReplyLine {
    /// Returns an empty line, which takes no memory.
    pub fn new(alloc: Global) -> Self
        ensures { result ≡ [] }
    {
        ReplyLine {
            bytes: Vec::new(alloc),
        }
    }

    /// Returns the bytes of the line.
    pub fn as_bytes(&self) -> &[u8]
        ensures { result.now ≡ self.now }
    {
        &self.bytes
    }

    /// Returns the memory of the last reply as an empty vector.
    pub fn take_memory(&mut self, alloc: Global) -> Vec<u8>
        ensures { result.items ≡ [] }
    {
        let mut bytes = mem::replace(&mut self.bytes, Vec::new(alloc));
        if bytes.capacity() > KEPT {
            bytes = Vec::new(alloc);
        }
        bytes.clear();
        bytes
    }

    /// Stores a vector, whose memory the next reply uses.
    pub fn keep_memory(&mut self, bytes: Vec<u8>)
        ensures { self.new ≡ bytes.items }
    {
        self.bytes = bytes;
    }

    /// Begins a reply in the memory of the last one.
    fn begin(&mut self, alloc: Global) -> Buffer
        ensures { result ≡ Some [] }
    {
        Buffer::from_vec(self.take_memory(alloc))
    }

    /// Ends a reply.
    fn end(&mut self, out: Buffer) -> Result<(), AllocError>
        ensures { OnOk result (out ≡ Some self.new) }
    {
        self.bytes = out.into_bytes()?;
        Ok(())
    }

    /// Makes the line the reply of an error with a code. After an error, which comes only if memory
    /// runs out, nothing is known of the line.
    pub fn tell_error(&mut self, alloc: Global, code: &str) -> Result<(), AllocError>
        ensures { OnOk result (self.new ≡ compact_text (error_data code.now) ++ 10 ∷ []) }
    {
        let mut out = self.begin(alloc);
        put_error(&mut out, code);
        self.end(out)
    }

    /// Makes the line the reply to a request. After an error, which comes only if memory runs out,
    /// nothing is known of the line.
    pub fn tell_reply(&mut self, alloc: Global, reply: &Reply) -> Result<(), AllocError>
        ensures { OnOk result (self.new ≡ compact_text (reply_data reply.now) ++ 10 ∷ []) }
    {
        let mut out = self.begin(alloc);
        put_reply(&mut out, reply);
        self.end(out)
    }

    /// Makes the line the reply to a lookup. After an error, which comes only if memory runs out,
    /// nothing is known of the line.
    pub fn tell_look(
        &mut self,
        alloc: Global,
        found: &Result<Found<Item<'_>>, LookFault>,
    ) -> Result<(), AllocError>
        ensures { OnOk result (self.new
            ≡ compact_text (response_data (look_response tree_seen found.now)) ++ 10 ∷ []) }
    {
        let mut out = self.begin(alloc);
        put_look(&mut out, found);
        self.end(out)
    }

    /// Makes the line the reply of an application's usage: how many bytes its bundles have, and how
    /// many bundles there are. After an error, which comes only if memory runs out, nothing is
    /// known of the line.
    pub fn tell_usage(&mut self, alloc: Global, bytes: u64, bundles: u64) -> Result<(), AllocError>
        ensures { OnOk result (self.new ≡ compact_text (usage_data bytes bundles) ++ 10 ∷ []) }
    {
        let mut out = self.begin(alloc);
        put_usage(&mut out, bytes, bundles);
        self.end(out)
    }

    /// Makes the line a refusal. After an error, which comes only if memory runs out, nothing is
    /// known of the line.
    pub fn tell_refusal(
        &mut self,
        alloc: Global,
        code: &str,
        detail: Detail,
    ) -> Result<(), AllocError>
        ensures { OnOk result (self.new ≡ compact_text (refusal_data code.now
            (option_map (λ s. s.now) detail.code)
            detail.index detail.line) ++ 10 ∷ []) }
    {
        let mut out = self.begin(alloc);
        put_refusal(&mut out, code, detail);
        self.end(out)
    }

    /// Makes the line the reply of a bundle that is stored. After an error, which comes only if
    /// memory runs out, nothing is known of the line.
    pub fn tell_stored(&mut self, alloc: Global, is_replaced: bool) -> Result<(), AllocError>
        ensures { OnOk result (self.new ≡ compact_text (stored_data is_replaced) ++ 10 ∷ []) }
    {
        let mut out = self.begin(alloc);
        put_stored(&mut out, is_replaced);
        self.end(out)
    }

    /// Makes the line the reply of an application's bundles. After an error, which comes only if
    /// memory runs out, nothing is known of the line.
    pub fn tell_sizes(&mut self, alloc: Global, sizes: &[(Name, u64)]) -> Result<(), AllocError>
        ensures { OnOk result (self.new ≡ compact_text (sizes_data sizes.now) ++ 10 ∷ []) }
    {
        let mut out = self.begin(alloc);
        put_sizes(&mut out, sizes);
        self.end(out)
    }
}
