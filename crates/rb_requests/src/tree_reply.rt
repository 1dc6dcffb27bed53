//! Answers with an item and everything that it inherits.
ghost use Rattle.std.specs.Prelude.{◌≡◌, IfErr, IfOk, IfSome, Ok};
ghost use Rattle.rb_tree.specs.Path.{IsPath, segments};
ghost use Rattle.rb_parents.specs.Family.{parent_in, parent_of};
ghost use Rattle.rb_fallback.specs.Answers.{hit_of};
ghost use Rattle.rb_fallback.specs.Search.{Hit, look_up};
ghost use Rattle.rb_views.specs.Seen.{tree_seen};
ghost use Rattle.rb_inherit.specs.Lookups.{IsTreeOf};
ghost use Rattle.rb_packages.specs.Lent.{bundles_lent};
ghost use Rattle.rb_packages.specs.Packages.{icudata_of, list_of};
ghost use Rattle.rb_packages.specs.Shelf.{bundle_at};
ghost use Rattle.rb_engine.specs.Place.{place_of};
ghost use Rattle.rb_engine.specs.declared.place.Place.{Place};
ghost use Rattle.rb_requests.specs.TreeReply.{FoundReply, IsTreeError, TreeReply};
ghost use Rattle.rb_requests.specs.declared.limits.Limits.{Limits};
ghost use Rattle.rb_requests.specs.inner.Placing.{PlacesOn};

use crate::answer::{Placed, tell_word};
use crate::bounded_buffer::{BoundedBuffer, BufferFault};
use crate::device::Sink;
use crate::limits::{Limited, Limits};
use crate::long_line::{LongLine, place_line};
use crate::lookups::look;
use crate::words::LineError;
use rb_engine::{App, AppShelves, Engine};
use rb_fallback::Found;
use rb_inherit::{TREE_LIMIT, TreeError, TreeLimits, put_tree};
use rb_locales::Name;
use rb_replies::ReplyLine;
use rb_views::Item;
use std::alloc::{AllocError, Global};

/// The most steps of a tree if there is no limit on steps: those of the largest bundles of CLDR.
const TREE_STEPS: u64 = 100_000;

/// Returns the number of bytes that a tree may have, and the error code if it has more.
fn tree_room(limits: &Limits) -> (u64, &'static str)
    ensures { IsTreeError limits.now result.1.now }
{
    match limits.reply_bytes {
        Some(most) if most <= TREE_LIMIT => (most, LineError::ReplyTooLong.word()),
        _ => (TREE_LIMIT, "TreeTooLarge"),
    }
}

/// Returns the error code if a tree takes too many steps; `None` is out of memory.
fn tree_error(error: TreeError) -> Option<&'static str>
    ensures { IfSome result (λ word. (limits : Limits) → IsTreeError limits word.now) }
{
    match error {
        TreeError::TooManySteps => Some("TooManySteps"),
        TreeError::TreeTooLarge => Some("TreeTooLarge"),
        // A lookup found the item, so that of the tree does.
        TreeError::Look(_) | TreeError::Memory => None,
    }
}

/// Makes the text of the tree of an item that a lookup finds, or returns the error code if there is
/// none.
fn tree_text(
    alloc: Global,
    shelves: AppShelves<'_>,
    limits: &Limits,
    name: &Name,
    path: &[u8],
) -> Result<Result<Vec<u8>, &'static str>, AllocError>
    ensures tree { IfOk result (λ made. IfOk made (λ tree. (hit : Hit) → IsPath path.now
        → look_up (bundles_lent shelves.entry.own) (bundles_lent shelves.entry.icudata)
        (parent_of shelves.entry.parents.now) name.now (segments path.now) ≡ Ok hit
        → IsTreeOf (bundles_lent shelves.entry.own) (parent_of shelves.entry.parents.now) name.now
        path.now (λ written. tree.items ≡ written) hit)) }
    ensures error { IfOk result (λ made. IfErr made (λ word. IsTreeError limits.now word.now)) }
{
    let (room, too_long) = tree_room(limits);
    let steps = TreeLimits {
        steps: Some(limits.steps.unwrap_or(TREE_STEPS)),
        ..TreeLimits::none()
    };
    let AppShelves {
        own,
        icudata,
        parents,
    } = shelves;
    let mut out = BoundedBuffer::new(alloc, room)?;
    match put_tree(&mut out, alloc, own, icudata, parents, name, path, steps) {
        Ok(()) => {}
        Err(error) => {
            return match tree_error(error) {
                Some(word) => Ok(Err(word)),
                None => Err(AllocError),
            };
        }
    }
    match out.into_bytes() {
        Ok(tree) => Ok(Ok(tree)),
        Err(BufferFault::TooLong) => Ok(Err(too_long)),
        Err(BufferFault::Memory) => Err(AllocError),
    }
}

/// Answers with the tree of an item that a lookup finds.
fn answer_found<S: Sink>(
    alloc: Global,
    shelves: AppShelves<'_>,
    limits: &Limits,
    name: &Name,
    path: &[u8],
    found: &Found<Item<'_>>,
    reply: &mut ReplyLine,
    sink: &mut S,
) -> Result<Placed, AllocError>
    ensures { PlacesOn S.Sink result reply.new sink.old sink.new
        (λ text. IsPath path.now
        → look_up (bundles_lent shelves.entry.own) (bundles_lent shelves.entry.icudata)
        (parent_of shelves.entry.parents.now) name.now (segments path.now)
        ≡ Ok (hit_of tree_seen found.now)
        → FoundReply limits.now (bundles_lent shelves.entry.own)
        (parent_of shelves.entry.parents.now) name.now path.now (hit_of tree_seen found.now)
        found.now.valid text) }
{
    match tree_text(alloc, shelves, limits, name, path)? {
        Ok(tree) => {
            let line = LongLine::Tree(&found.actual, &found.valid, &tree);
            place_line(alloc, limits, line, reply, sink)
        }
        Err(word) => {
            tell_word(alloc, word, reply)?;
            Ok(Placed::Held)
        }
    }
}

/// Answers with the tree of an item that a lookup with these names finds.
fn answer_named<S: Sink>(
    alloc: Global,
    engine: &Engine,
    limits: &Limits,
    app: &[u8],
    locale: &[u8],
    path: &[u8],
    found: &Found<Item<'_>>,
    reply: &mut ReplyLine,
    sink: &mut S,
) -> Result<Placed, AllocError>
    ensures { PlacesOn S.Sink result reply.new sink.old sink.new
        (λ text. (p : Place) → place_of app.now locale.now ≡ Ok p → IsPath path.now
        → look_up (bundle_at (list_of p.app engine.now.packages))
        (bundle_at (icudata_of engine.now.packages)) (parent_in engine.now.parents) p.name
        (segments path.now) ≡ Ok (hit_of tree_seen found.now)
        → FoundReply limits.now (bundle_at (list_of p.app engine.now.packages))
        (parent_in engine.now.parents) p.name path.now (hit_of tree_seen found.now)
        found.now.valid text) }
{
    let word = match App::read(app) {
        Ok(app) => match Name::read(locale) {
            Ok(name) => {
                let shelves = engine.shelves(&app);
                return answer_found(alloc, shelves, limits, &name, path, found, reply, sink);
            }
            Err(_) => "BadLocale",
        },
        Err(fault) => fault.word(),
    };
    tell_word(alloc, word, reply)?;
    Ok(Placed::Held)
}

/// Answers with the item at a path and everything that it inherits. Errors come in this order:
/// those of a lookup; `TooManySteps` or `TreeTooLarge` if the tree takes too many steps; and
/// `ReplyTooLong` or `TreeTooLarge` if it is too long, for the lesser of the two limits.
///
/// The tree is made in memory before any of its line is written, so if memory runs out nothing is.
pub(crate) fn answer_tree<S: Sink>(
    alloc: Global,
    engine: &Engine,
    limits: &Limits,
    app: &str,
    locale: &str,
    path: &str,
    reply: &mut ReplyLine,
    sink: &mut S,
) -> Result<Placed, AllocError>
    ensures { PlacesOn S.Sink result reply.new sink.old sink.new
        (TreeReply limits.now engine.now app.now locale.now path.now) }
{
    let (app, locale, path) = (app.as_bytes(), locale.as_bytes(), path.as_bytes());
    match look(engine, limits, app, locale, path) {
        Limited::Answer(Ok(found)) => {
            return answer_named(
                alloc, engine, limits, app, locale, path, &found, reply, sink,
            );
        }
        Limited::Answer(Err(fault)) => tell_word(alloc, fault.word(), reply)?,
        Limited::Refused(refusal) => tell_word(alloc, refusal.word(), reply)?,
    }
    Ok(Placed::Held)
}
