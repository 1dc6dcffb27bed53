//! Replies of an engine: each is a compact JSON object, its members ascending, and a line feed.
ghost use Rattle.std.specs.Prelude.{[], ◌∷◌, ◌++◌, Some, encode_utf8_all};
ghost use Rattle.json.specs.Print.{quoted};
ghost use Rattle.serde_json.specs.Written.{compact_text};
ghost use Rattle.rb_engine.specs.Answer.{Finds, Replies};
ghost use Rattle.rb_engine.specs.LookResponse.{look_response};
ghost use Rattle.rb_engine.specs.declared.request.Reply.TheVariants as replies;
ghost use Rattle.rb_fallback.specs.Answers.{hit_of};
ghost use Rattle.rb_json.specs.Item.{texts_data};
ghost use Rattle.rb_json.specs.inner.Listed.{listed};
ghost use Rattle.rb_replies.specs.Replied.{error as error_data, reply_line, usage_data};
ghost use Rattle.rb_views.specs.Seen.{tree_seen};

use rb_engine::{LookFault, Reply};
use rb_fallback::Found;
use rb_json::{Outlet, put_found, put_name, skips_items, spell_bytes, spell_text, spell_unsigned};
use rb_locales::Name;
use rb_views::Item;

/// Writes the line of an object, each of whose members is a name and a call that writes its value.
macro_rules! put_line {
    ($out:ident, $first:literal: $value:expr $(, $name:literal: $more:expr)*) => {{
        $out.put(b"{");
        put_name($out, false, $first);
        $value;
        $(
            put_name($out, true, $name);
            $more;
        )*
        $out.put(b"}");
        $out.put(b"\n")
    }};
}

pub(crate) use put_line;

/// Writes the line of an error with a code.
pub fn put_error<O: Outlet>(out: &mut O, code: &str)
    ensures { O.takes out.old out.new (compact_text (error_data code.now) ++ 10 ∷ []) }
{
    put_line!(out, "error": spell_text(out, code))
}

fn put_done<O: Outlet>(out: &mut O)
    ensures { O.takes out.old out.new (reply_line (Some (Replies replies.Done))) }
{
    put_line!(out, "ok": out.put(b"true"))
}

fn put_name_items<O: Outlet>(out: &mut O, names: &[Name])
    ensures { O.takes out.old out.new (listed (λ k. quoted (encode_utf8_all k)) names.now) }
{
    let len = names.len();
    for i in 0..len {
        if skips_items(out, i) {
            return;
        }
        spell_bytes(out, names[i].as_bytes());
    }
}

fn put_name_array<O: Outlet>(out: &mut O, names: &[Name])
    ensures { O.takes out.old out.new (compact_text (texts_data names.now)) }
{
    out.put(b"[");
    put_name_items(out, names);
    out.put(b"]")
}

fn put_names<O: Outlet>(out: &mut O, names: &[Name])
    ensures { O.takes out.old out.new (reply_line (Some (Replies (replies.Names names.now)))) }
{
    put_line!(out, "names": put_name_array(out, names))
}

/// Writes the line of the reply to a request. It takes no memory.
pub fn put_reply<O: Outlet>(out: &mut O, reply: &Reply)
    ensures { O.takes out.old out.new (reply_line (Some (Replies reply.now))) }
{
    match reply {
        Reply::Done => put_done(out),
        Reply::Names(names) => put_names(out, names.as_slice()),
        refusal => put_error(out, refusal.word()),
    }
}

/// Writes the line that reports an application's usage: how many bytes its bundles have, and how
/// many bundles there are. It takes no memory.
pub fn put_usage<O: Outlet>(out: &mut O, bytes: u64, bundles: u64)
    ensures { O.takes out.old out.new (compact_text (usage_data bytes bundles) ++ 10 ∷ []) }
{
    put_line!(out, "app_bytes": spell_unsigned(out, bytes), "bundles": spell_unsigned(out, bundles))
}

/// Writes the line of the reply to a lookup that found an item. It takes no memory.
pub fn put_found_line<O: Outlet>(out: &mut O, found: &Found<Item<'_>>)
    ensures { O.takes out.old out.new
        (reply_line (Some (Finds (hit_of tree_seen found.now) found.now.valid))) }
{
    put_found(
        out,
        found.actual.as_bytes(),
        found.valid.as_bytes(),
        found.node,
    );
    out.put(b"\n")
}

/// Writes the line of the reply to a lookup. It takes no memory.
pub fn put_look<O: Outlet>(out: &mut O, found: &Result<Found<Item<'_>>, LookFault>)
    ensures { O.takes out.old out.new
        (reply_line (Some (look_response tree_seen found.now))) }
{
    match found {
        Ok(found) => put_found_line(out, found),
        Err(fault) => put_error(out, fault.word()),
    }
}
