ghost use Rattle.std.specs.Prelude.{◌≡◌, ◌≢◌, ◌≤◌, ◌↔◌, ◌==◌, ◌+◌, ◌++◌, ℕ, List, Option, Result};
ghost use Rattle.std.specs.Prelude.{Err, IfOk, IfSome, None, Some, drop, false, length};
ghost use Rattle.std.specs.Prelude.{if◌then◌else◌};
ghost use Rattle.rb_tree.specs.Resource.{Resource};
ghost use Rattle.rb_tree.specs.Parts.{kind_of, units_of};
ghost use Rattle.rb_tree.specs.declared.kind.Kind.TheVariants as Kinds;
ghost use Rattle.rb_tree.specs.Path.{IsPath, segments};
ghost use Rattle.rb_tree.specs.Walk.{behind};
ghost use Rattle.rb_parents.specs.Family.{parent_of};
ghost use Rattle.rb_parents.specs.Trail.{trail};
ghost use Rattle.rb_fallback.specs.Alias.{target};
ghost use Rattle.rb_fallback.specs.Answers.{answer_of, bounded_answer_of};
ghost use Rattle.rb_fallback.specs.Limits.{path_limit};
ghost use Rattle.rb_fallback.specs.Search.{Decided, bundles_of, first_stop, follow, level, look_up};
ghost use Rattle.rb_fallback.specs.Search.{setting, setting_of, step};
ghost use Rattle.rb_fallback.specs.Steps.{look_up_within, trail_length};
ghost use Rattle.rb_fallback.specs.Stops.{AreStopsOf};
ghost use Rattle.rb_fallback.specs.inner.Budget.{AreGiven, after_step, search_within};
ghost use Rattle.rb_fallback.specs.inner.LevelResult.{IsAliasAt, IsLevel};
ghost use Rattle.rb_fallback.specs.inner.Reached.{IsReached, IsReachedLevel, IsSomeReached};
ghost use Rattle.rb_fallback.specs.inner.Reached.{answer_at};
ghost use Rattle.rb_fallback.specs.inner.Reached.{given_stop};
ghost use Rattle.rb_fallback.specs.inner.Steps.{IsFollowed, IsOutcome};
ghost use Rattle.rb_fallback.specs.declared.fault.BoundedError.TheVariants as Bounded;
ghost use Rattle.rb_fallback.specs.declared.fault.LookError.{LookError};
ghost use Rattle.rb_fallback.specs.declared.fault.LookError.TheVariants as Faults;

use crate::alias::read_alias;
use crate::fault::{AliasFault, BoundedError, LookError};
use crate::found::Found;
use crate::level::{LevelResult, level};
use crate::limits::{LEVEL_LIMIT, PATH_LIMIT};
use crate::path::is_path;
use crate::path_buffer::PathBuffer;
use crate::steps::left_after;
use crate::stops::{At, FoundAt, NoStops, Reached, Stops, first_ending};
use crate::watch::Watch;
use rb_locales::Name;
use rb_parents::{Parents, Shelf};
use rb_tree::{Ending, Node};

/// Stores where a search continues: a package, a name and a path.
#[derive(Drop)]
pub(crate) struct SearchState {
    pub(crate) icudata: bool,
    pub(crate) name: Name,
    pub(crate) path: PathBuffer,
}

/// Moves a state to where an alias leads that was met after the first `cut` bytes of its path.
/// Returns false if the path there is too long. The errors are those of `read_alias`.
#[inline(always)]
fn follow_alias<N: Node, W: Watch>(
    node: N,
    cut: usize,
    valid: &Name,
    state: &mut SearchState,
    watch: &mut W,
) -> Result<bool, LookError>
    requires alias { kind_of (N.tree node) ≡ Kinds.Alias }
    requires path { IsPath state.old.path }
    ensures { (walked rest : List (List ℕ)) → walked ++ rest ≡ segments state.old.path
        → rest ≡ segments (drop (behind cut) state.old.path)
        → IsFollowed result state.new
        (follow rest (target (units_of (N.tree node)) state.old.icudata valid.now walked)) }
{
    let target = match read_alias(node, valid) {
        Ok(target) => target,
        Err(AliasFault::AliasText) => return Err(LookError::AliasText),
        Err(AliasFault::AliasPackage) => return Err(LookError::AliasPackage),
    };
    state.icudata = target.icudata | state.icudata;
    state.name = target.name;
    let at = match target.path_at {
        Some(at) => at,
        None => return Ok(true),
    };
    state.path.cut_front(cut);
    let fits = state.path.put_before(node, at);
    if !fits {
        watch.long_path(state.icudata, &state.name, node, at, state.path.as_slice());
    }
    Ok(fits)
}

/// The end of a level: an item, an alias that leads on, or one whose path is too long.
#[derive(Drop)]
pub(crate) enum Outcome<N> {
    Found(FoundAt<N>),
    Next,
    TooLong,
}

/// Reports an alias to the observer, unless it is in a stop that was given, whose name isn't read.
fn tell_alias<N: Node, W: Watch>(node: N, at: &At, watch: &mut W)
    requires { kind_of (N.tree node) ≡ Kinds.Alias }
{
    if let At::Bundle(actual) = at {
        watch.alias(node, actual);
    }
}

/// Ends a level with what its stops give, and moves the state to where an alias leads.
#[inline(always)]
fn end_level<N: Node, W: Watch>(
    reached: &Reached<N>,
    valid: &Name,
    state: &mut SearchState,
    watch: &mut W,
) -> Result<Outcome<N>, LookError>
    requires path { IsPath state.old.path }
    requires alias { IsAliasAt N.tree reached.now.ending }
    ensures { (stop : ℕ → Option (List ℕ × Resource)) → (r : Result Decided LookError)
        → IsReached N.tree stop reached.now state.old.path r
        → IsOutcome N.tree stop result state.new (step state.old.icudata valid.now r) }
{
    match reached.ending {
        Ending::End(node) => Ok(Outcome::Found(FoundAt {
            node,
            at: reached.at,
        })),
        Ending::Link(node, cut) => {
            tell_alias(node, &reached.at, watch);
            if follow_alias(node, cut, valid, state, watch)? {
                Ok(Outcome::Next)
            } else {
                Ok(Outcome::TooLong)
            }
        }
        Ending::Gone => Err(LookError::Missing),
    }
}

/// Searches the trail of a state, in the bundles of its package.
fn level_at<'a, S: Shelf<'a>, I: Shelf<'a, N = S::N>, W: Watch>(
    own: S,
    icu: I,
    parents: &Parents,
    state: &SearchState,
    names: &mut u8,
    watch: &mut W,
) -> Result<LevelResult<S::N>, LookError>
    requires { IsPath state.now.path }
    ensures level { IsLevel S.N.tree result state.now.path
        (level (bundles_of (S.bundles own) (I.bundles icu) state.now.icudata)
        (parent_of parents.now) state.now.name (segments state.now.path))
        (first_stop (bundles_of (S.bundles own) (I.bundles icu) state.now.icudata)
        (parent_of parents.now) state.now.name) }
    ensures names { names.new
        ≡ trail_length (trail (bundles_of (S.bundles own) (I.bundles icu) state.now.icudata)
        (parent_of parents.now) state.now.name) }
{
    let path = state.path.as_slice();
    if state.icudata {
        level(icu, parents, &state.name, path, names, watch)
    } else {
        level(own, parents, &state.name, path, names, watch)
    }
}

/// Returns the error of a search whose next path is too long.
fn next_fault(level: u16) -> LookError
    ensures { result ≡ (if level + 1 == 256 then Faults.TooManyAliases else Faults.PathTooLong) }
{
    if level as u32 + 1 == LEVEL_LIMIT as u32 {
        LookError::TooManyAliases
    } else {
        LookError::PathTooLong
    }
}

/// Searches the level of a state. The trail of the valid name is the end of the trail whose stops
/// are given, so its stops are these, and it has `from_valid` names.
#[inline(always)]
fn level_given<'a, T: Stops<'a>, S: Shelf<'a, N = T::N>, I: Shelf<'a, N = T::N>, W: Watch>(
    given: Option<T>,
    from_valid: u8,
    own: S,
    icu: I,
    parents: &Parents,
    valid: &Name,
    state: &SearchState,
    names: &mut u8,
    watch: &mut W,
) -> Result<Reached<T::N>, LookError>
    requires { IsPath state.now.path }
    ensures level { IfSome given (λ t.
        AreStopsOf (T.stop t) (S.bundles own) (parent_of parents.now) valid.now)
        → IsReachedLevel T.N.tree (given_stop T.stop given) result state.now.path
        (level (bundles_of (S.bundles own) (I.bundles icu) state.now.icudata)
        (parent_of parents.now) state.now.name (segments state.now.path)) }
    ensures walk { IfOk result
        (λ d. IsSomeReached T.N.tree (given_stop T.stop given) d state.now.path) }
    ensures never { result ≢ Err Faults.BadPath }
    ensures names { IfSome given (λ _. from_valid
        ≡ trail_length (trail (S.bundles own) (parent_of parents.now) valid.now)) → names.new
        ≡ trail_length (trail (bundles_of (S.bundles own) (I.bundles icu) state.now.icudata)
        (parent_of parents.now) state.now.name) }
{
    let path = state.path.as_slice();
    if !state.icudata && state.name == *valid {
        if let Some(stops) = given {
            *names = from_valid;
            return first_ending(stops, path);
        }
    }
    let decided = level_at(own, icu, parents, state, names, watch)?;
    Ok(decided.reached())
}

/// Continues a search from where its first alias led, in at most `left` steps; `None` is no limit.
fn search_on<'a, T: Stops<'a>, S: Shelf<'a, N = T::N>, I: Shelf<'a, N = T::N>, W: Watch>(
    given: Option<T>,
    from_valid: u8,
    own: S,
    icu: I,
    parents: &Parents,
    valid: &Name,
    state: &mut SearchState,
    mut left: Option<u64>,
    watch: &mut W,
) -> Result<FoundAt<T::N>, BoundedError>
    requires { IsPath state.old.path }
    ensures answer { AreGiven T.stop given left from_valid (S.bundles own) (parent_of parents.now)
        valid.now → answer_at T.N.tree (given_stop T.stop given) result ≡ search_within left 255
        (setting_of (S.bundles own) (I.bundles icu)
        (parent_of parents.now) valid.now) state.old.icudata state.old.name
        (segments state.old.path) }
    ensures never { result ≢ Err (Bounded.Search Faults.BadPath) }
    ensures few { left ≡ None → result ≢ Err Bounded.TooManySteps }
{
    for level in 1..LEVEL_LIMIT {
        watch.level(level + 1, state.icudata, &state.name, state.path.as_slice());
        let mut names = 0;
        let reached = level_given(
            given, from_valid, own, icu, parents, valid, state, &mut names, watch,
        );
        let path = state.path.as_slice();
        left = left_after(left, names, path)?;
        let decided = reached?;
        let outcome = end_level(&decided, valid, state, watch)?;
        match outcome {
            Outcome::Found(found) => return Ok(found),
            Outcome::Next => {}
            Outcome::TooLong => return Err(BoundedError::Search(next_fault(level))),
        }
    }
    Err(BoundedError::Search(LookError::TooManyAliases))
}

/// Ends the first level of a search, and continues where an alias leads, in at most `left` steps;
/// `None` is no limit. Not inlined, so that a search without an alias has no room for a path on its
/// stack.
#[inline(never)]
pub(crate) fn search_after<
    'a,
    T: Stops<'a>,
    S: Shelf<'a, N = T::N>,
    I: Shelf<'a, N = T::N>,
    W: Watch,
>(
    given: Option<T>,
    from_valid: u8,
    own: S,
    icu: I,
    parents: &Parents,
    valid: &Name,
    reached: &Reached<T::N>,
    path: &[u8],
    left: Option<u64>,
    watch: &mut W,
) -> Result<FoundAt<T::N>, BoundedError>
    requires path { IsPath path.now }
    requires short { length path.now ≤ path_limit }
    requires walk { IsSomeReached T.N.tree (given_stop T.stop given) reached.now path.now }
    ensures answer { (r : Result Decided LookError)
        → IsReached T.N.tree (given_stop T.stop given) reached.now path.now r
        → AreGiven T.stop given left from_valid (S.bundles own) (parent_of parents.now) valid.now
        → answer_at T.N.tree (given_stop T.stop given) result ≡ after_step left
        (setting_of (S.bundles own) (I.bundles icu) (parent_of parents.now) valid.now)
        (step false valid.now r) }
    ensures never { result ≢ Err (Bounded.Search Faults.BadPath) }
    ensures few { left ≡ None → result ≢ Err Bounded.TooManySteps }
{
    let mut state = SearchState {
        icudata: false,
        name: *valid,
        path: PathBuffer::of(path),
    };
    let outcome = end_level(reached, valid, &mut state, watch)?;
    match outcome {
        Outcome::Found(found) => Ok(found),
        Outcome::Next => search_on(
            given, from_valid, own, icu, parents, valid, &mut state, left, watch,
        ),
        Outcome::TooLong => Err(BoundedError::Search(LookError::PathTooLong)),
    }
}

/// Looks a path up in at most `left` steps; `None` is no limit. The steps of a level are subtracted
/// after the level was searched.
fn search_from<'a, S: Shelf<'a>, I: Shelf<'a, N = S::N>, W: Watch>(
    own: S,
    icu: I,
    parents: &Parents,
    name: &Name,
    path: &[u8],
    left: Option<u64>,
    watch: &mut W,
) -> Result<Found<S::N>, BoundedError>
    ensures bad_path { (result ≡ Err (Bounded.Search Faults.BadPath)) ↔ (IsPath path.now → ⊥) }
    ensures answer { IsPath path.now → bounded_answer_of S.N.tree result ≡ search_within left 256
        (setting (S.bundles own) (I.bundles icu) (parent_of parents.now) name.now) false name.now
        (segments path.now) }
    ensures valid { IfOk result
        (λ f. first_stop (S.bundles own) (parent_of parents.now) name.now ≡ Some f.valid) }
{
    if !is_path(path) {
        return Err(BoundedError::Search(LookError::BadPath));
    }
    watch.level(1, false, name, path);
    if path.len() > PATH_LIMIT {
        return Err(BoundedError::Search(LookError::PathTooLong));
    }
    let mut names = 0;
    let reached = level(own, parents, name, path, &mut names, watch);
    let left = left_after(left, names, path)?;
    let decided = reached?;
    let valid = decided.first;
    // An item needs no copy of the path.
    if let Ending::End(node) = decided.ending {
        let actual = decided.actual;
        return Ok(Found {
            node,
            actual,
            valid,
        });
    }
    let none: Option<NoStops<S>> = None;
    let reached = decided.reached();
    let found = search_after(
        none, 0, own, icu, parents, &valid, &reached, path, left, watch,
    )?;
    Ok(found.named(none, valid))
}

/// Looks a path up from a name, in the bundles `own` and, where an alias leads there, in `icu`.
/// This is the lookup with fallback of ICU's `ures_*` calls. A path is segments of printable ASCII
/// with slashes between them; the empty path is the root.
///
/// The bundles of the name's trail are searched in order; the first in which the path leads
/// somewhere decides. If it leads to an alias, the search continues with the alias's locale and
/// path, and what it finds there is final.
///
/// The errors come in this order. `BadPath`: a byte that isn't printable ASCII, or an empty
/// segment. Then at each level: `TooManyAliases` at the 257th, `PathTooLong` for more than 1,024
/// bytes, `Chain` or `BadParent` as `trail` has them, `NoBundle` if the trail has no stop,
/// `Missing`, `AliasText` or `AliasPackage` as `read_alias` has them. Allocates nothing.
///
/// ```rust
/// let found = look(shelf, shelf, &parents, &de_at, b"menu/open")?;
/// // `found.actual` is the name of the bundle that has it, `found.valid` that of the first stop.
/// ```
pub fn look<'a, S: Shelf<'a>, I: Shelf<'a, N = S::N>>(
    own: S,
    icu: I,
    parents: &Parents,
    name: &Name,
    path: &[u8],
) -> Result<Found<S::N>, LookError>
    ensures bad_path { (result ≡ Err Faults.BadPath) ↔ (IsPath path.now → ⊥) }
    ensures answer { IsPath path.now → answer_of S.N.tree result
        ≡ look_up (S.bundles own) (I.bundles icu) (parent_of parents.now) name.now
        (segments path.now) }
    ensures valid { IfOk result
        (λ f. first_stop (S.bundles own) (parent_of parents.now) name.now ≡ Some f.valid) }
{
    look_watched(own, icu, parents, name, path, &mut ())
}

/// Looks a path up as `look` does, and reports each level, name and alias to an observer.
///
/// ```rust
/// let found = look_watched(shelf, shelf, &parents, &de_at, b"menu/open", &mut trace)?;
/// // What `look` finds, whatever `trace` does.
/// ```
pub fn look_watched<'a, S: Shelf<'a>, I: Shelf<'a, N = S::N>, W: Watch>(
    own: S,
    icu: I,
    parents: &Parents,
    name: &Name,
    path: &[u8],
    watch: &mut W,
) -> Result<Found<S::N>, LookError>
    ensures bad_path { (result ≡ Err Faults.BadPath) ↔ (IsPath path.now → ⊥) }
    ensures answer { IsPath path.now → answer_of S.N.tree result
        ≡ look_up (S.bundles own) (I.bundles icu) (parent_of parents.now) name.now
        (segments path.now) }
    ensures valid { IfOk result
        (λ f. first_stop (S.bundles own) (parent_of parents.now) name.now ≡ Some f.valid) }
{
    match search_from(own, icu, parents, name, path, None, watch) {
        Ok(found) => Ok(found),
        Err(BoundedError::Search(fault)) => Err(fault),
        Err(BoundedError::TooManySteps) => unreachable!(),
    }
}

/// Looks a path up as `look` does, in at most this many steps. At each level each name of the trail
/// takes one step for its bundle and one for each segment of the path; a level whose trail is
/// invalid takes none. A lookup takes at most 4,202,496 steps (`laws::a_lookup_takes_few_steps`).
///
/// The errors: `Search(BadPath)` as `look` has it, whatever the steps are. `TooManySteps`: the
/// whole lookup takes more steps. Otherwise `Search` with the error of `look`. The steps of a level
/// are counted after it was searched, so at most one level is searched in vain. Allocates nothing.
///
/// ```rust
/// let found = look_within(shelf, shelf, &parents, &de_at, b"menu/open", 10_000)?;
/// // What `look` finds, unless that takes more than 10,000 steps.
/// ```
pub fn look_within<'a, S: Shelf<'a>, I: Shelf<'a, N = S::N>>(
    own: S,
    icu: I,
    parents: &Parents,
    name: &Name,
    path: &[u8],
    steps: u64,
) -> Result<Found<S::N>, BoundedError>
    ensures bad_path { (result ≡ Err (Bounded.Search Faults.BadPath)) ↔ (IsPath path.now → ⊥) }
    ensures answer { IsPath path.now → bounded_answer_of S.N.tree result
        ≡ look_up_within steps (S.bundles own) (I.bundles icu) (parent_of parents.now) name.now
        (segments path.now) }
    ensures valid { IfOk result
        (λ f. first_stop (S.bundles own) (parent_of parents.now) name.now ≡ Some f.valid) }
{
    search_from(own, icu, parents, name, path, Some(steps), &mut ())
}
