ghost use Rattle.std.specs.Prelude.{◌≡◌, ◌≤◌, ◌<◌, ◌↔◌, IfNone, IfSome, IsTrue, Some, length};
ghost use Rattle.serde_json.specs.Written.{compact_text};
ghost use Rattle.rb_engine.specs.Answer.{Finds, Replies};
ghost use Rattle.rb_fallback.specs.Answers.{hit_of};
ghost use Rattle.rb_json.specs.Item.{found_data};
ghost use Rattle.rb_replies.specs.Replied.{reply_line};
ghost use Rattle.rb_replies.specs.Within.{IsAbove, limit_of};
ghost use Rattle.rb_views.specs.Seen.{tree_seen};

use crate::reply::{put_found_line, put_reply};
use rb_engine::Reply;
use rb_fallback::Found;
use rb_json::{Room, put_found};
use rb_views::Item;

/// Checks whether a line that a function writes exceeds a limit, if there is one.
macro_rules! is_above {
    ($limit:ident, $put:ident($($argument:ident),+)) => {{
        let Some(most) = $limit else {
            return false;
        };
        let mut room = Room { left: Some(most) };
        $put(&mut room, $($argument),+);
        room.left.is_none()
    }};
}

pub(crate) use is_above;

/// Checks whether the reply to a lookup that found an item exceeds a limit, with its line feed. It
/// takes no memory, and spells no more of the item than the limit's length.
pub fn found_is_above(found: &Found<Item<'_>>, limit: Option<u64>) -> bool
    ensures { IsTrue result ↔ IsAbove
        (length (reply_line (Some (Finds (hit_of tree_seen found.now) found.now.valid)))) limit }
{
    is_above!(limit, put_found_line(found))
}

/// Returns the length of an item that was found as JSON, without a line feed, or `None` if it is
/// above a limit. It takes no memory, and spells no more of the item than the limit's length.
pub fn found_len(found: &Found<Item<'_>>, limit: u64) -> Option<u64>
    ensures within { IfSome result (λ n. n ≤ limit) }
    ensures len { IfSome result (λ n. n ≡ length (compact_text
        (found_data found.now.actual found.now.valid (tree_seen found.now.node)))) }
    ensures above { IfNone result (limit < length (compact_text
        (found_data found.now.actual found.now.valid (tree_seen found.now.node)))) }
{
    let mut room = Room { left: Some(limit) };
    put_found(
        &mut room,
        found.actual.as_bytes(),
        found.valid.as_bytes(),
        found.node,
    );
    limit.checked_sub(room.left?)
}

fn line_is_above(reply: &Reply, limit: Option<u64>) -> bool
    ensures { IsTrue result ↔ IsAbove (length (reply_line (Some (Replies reply.now)))) limit }
{
    is_above!(limit, put_reply(reply))
}

/// Checks whether the reply to a request exceeds a limit, which only names have, with its line
/// feed. It takes no memory.
pub fn reply_is_above(reply: &Reply, limit: Option<u64>) -> bool
    ensures { IsTrue result ↔ IsAbove (length (reply_line (Some (Replies reply.now))))
        (limit_of (Replies reply.now) limit) }
{
    match reply {
        Reply::Names(_) => line_is_above(reply, limit),
        _ => false,
    }
}
