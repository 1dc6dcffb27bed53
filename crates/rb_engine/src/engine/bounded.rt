//! Lookups from an open locale with a limit on their steps, or none.
ghost use Rattle.std.specs.Prelude.{◌≡◌, ℕ, List, IfNone, IfOk, IfSome, OnErr, OnOk, false, true};
ghost use Rattle.rb_views.specs.Seen.{tree_seen};
ghost use Rattle.rb_fallback.specs.FoundNode.{IsNodeOf};
ghost use Rattle.rb_engine.specs.Ask.{Looks};
ghost use Rattle.rb_engine.specs.Answer.{answer_over};
ghost use Rattle.rb_engine.specs.Kept.{state_of};
ghost use Rattle.rb_engine.specs.LookResponse.{look_response};
ghost use Rattle.rb_engine.specs.OpenLocale.{CountsNames, IsOpenLocale};
ghost use Rattle.rb_engine.specs.Place.{place_of};
ghost use Rattle.rb_engine.specs.Steps.{exceeds};
ghost use Rattle.rb_engine.specs.Version.{is_current};

use super::Engine;
use crate::open_locale::{OpenLocale, Stale, find_over, is_current};
use crate::request::{LookFault, TooManySteps};
use rb_views::Item;

/// The result of a lookup with or without a limit.
type Bounded<'a> = Result<Result<Item<'a>, LookFault>, TooManySteps>;

impl Engine {
    /// Looks a path up like `look_at`, in at most `left` steps, and returns the item alone, which
    /// takes less time. `None` is no limit. Returns `Stale` if the engine has changed since the
    /// locale was opened. Allocates nothing.
    pub fn find_at(
        &self,
        opened: &OpenLocale,
        path: &[u8],
        left: Option<u64>,
    ) -> Result<Bounded<'_>, Stale>
        ensures current { OnOk result (is_current opened.now.version self.now.version ≡ true) }
        ensures stale { OnErr result (is_current opened.now.version self.now.version ≡ false) }
        ensures few { IfNone left (IfOk result (λ bounded. OnErr bounded ⊥)) }
        ensures within { (app locale : List ℕ) → IsOpenLocale opened.now self.now app locale
            → IfSome left (λ _. CountsNames opened.now self.now app locale)
            → IfOk result (λ bounded. OnOk bounded (exceeds left (state_of self.now).start
            ((state_of self.now).lists app) (place_of app locale) path.now ≡ false)) }
        ensures found { (app locale : List ℕ) → IsOpenLocale opened.now self.now app locale
            → IfSome left (λ _. CountsNames opened.now self.now app locale)
            → IfOk result (λ bounded. IfOk bounded (λ item. IsNodeOf item (λ found.
            look_response tree_seen found
            ≡ answer_over (state_of self.now).start ((state_of self.now).lists app)
            (Looks app locale path.now)))) }
        ensures more { (app locale : List ℕ) → IsOpenLocale opened.now self.now app locale
            → IfSome left (λ _. CountsNames opened.now self.now app locale)
            → IfOk result (λ bounded. OnErr bounded (exceeds left (state_of self.now).start
            ((state_of self.now).lists app) (place_of app locale) path.now ≡ true)) }
    {
        if !is_current(opened.version, self.versions.latest) {
            return Err(Stale);
        }
        let own = self.packages.shelf_at(opened.app);
        let icu = self.packages.icu_shelf();
        Ok(find_over(own, icu, &self.parents, opened, path, left))
    }
}
