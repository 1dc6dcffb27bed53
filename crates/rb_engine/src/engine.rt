ghost use Rattle.std.specs.Prelude.{◌≡◌, ◌≢◌, ◌+◌, ◌-◌, ◌^◌, [], ℕ, List, length, Ok, true, false};
ghost use Rattle.std.specs.Prelude.{IfOk, IfErr, IfSome, OnOk, OnErr, map, min, option_map};
ghost use Rattle.std.specs.Coded.{codes};
ghost use Rattle.rb_parents.specs.Family.{family_pairs, parent_of, parent_in};
ghost use Rattle.rb_views.specs.Seen.{tree_seen};
ghost use Rattle.rb_packages.specs.Shelf.{bundle_at};
ghost use Rattle.rb_packages.specs.Lent.{files_in};
ghost use Rattle.rb_packages.specs.Packages.{icudata_files, icudata_of, list_of, files_of, file_at};
ghost use Rattle.rb_packages.specs.Packages.{OthersStay};
ghost use Rattle.rb_packages.specs.Release.{edited, sizes_of};
ghost use Rattle.rb_packages.specs.Usage.{bytes_of, apps_of, more_apps, AreThereOnce};
ghost use Rattle.rb_engine.specs.Ask.{Requests, Looks};
ghost use Rattle.rb_engine.specs.Answer.{Replies, answer_over, lookup_in};
ghost use Rattle.rb_engine.specs.History.{Step};
ghost use Rattle.rb_engine.specs.Kept.{Kept, state_of};
ghost use Rattle.rb_engine.specs.Source.{Reads, change_request};
ghost use Rattle.rb_engine.specs.Change.{files_after, Removes};
ghost use Rattle.rb_engine.specs.Place.{place_of as place_at};
ghost use Rattle.rb_engine.specs.Steps.{exceeds, takes_more, takes_more_from};
ghost use Rattle.rb_engine.specs.Version.{is_current, next_version};
ghost use Rattle.rb_engine.specs.OpenLocale.{CountsNames, IsOpenLocale, RefusesAll};
ghost use Rattle.rb_engine.specs.inner.LastChanges.{AreUpTo};
ghost use Rattle.rb_engine.specs.inner.KeptLocales.{AreKept};
ghost use Rattle.rb_engine.specs.inner.KeptItems.{AreItemsKept};
ghost use Rattle.rb_engine.specs.declared.request.Request.TheVariants.{Remove as Removal};
ghost use Rattle.rb_engine.specs.declared.request.Request.TheVariants.{List as Listing};
ghost use Rattle.rb_fallback.specs.FoundNode.{IsNodeOf};
ghost use Rattle.rb_engine.specs.LookResponse.{look_response};
ghost use Rattle.rb_engine.specs.Start.{Loads, IsRefused, IsIndexed};
ghost use Rattle.rb_engine.specs.declared.request.Payload.{Payload};

mod bounded;

use crate::app_shelves::AppShelves;
use crate::asked::Asked;
use crate::handle::{self, Change};
use crate::hints::{Hints, Upcoming};
use crate::incoming::IncomingBundle;
use crate::kept_items::KeptItems;
use crate::open_locale::{OpenLocale, Stale, is_current, look_opened, open_at};
use crate::open_locales::OpenLocales;
use crate::place::{Place, hash_of, place_of};
use crate::request::{LookFault, Payload, Reply, Request, TooManySteps};
use crate::same_name::same_name;
use crate::spot::is_short_text;
use crate::start::{StartFault, load_all};
use crate::versions::Versions;
use rb_fallback::{BoundedError, Found, LookError, Watch, look_watched};
use rb_locales::Name;
use rb_packages::{App, BundleHint, Draft, Packages, Usage};
use rb_parents::Parents;
use rb_validator::Bundle;
use rb_views::Item;
use std::alloc::{AllocError, Global};
use std::hash::{BuildHasher, Hasher, RandomState};
use std::marker::Model;

/// The bundles of many applications and of ICUDATA, with the explicit parents.
///
/// An application sees its own bundles and those of ICUDATA, never those of another. The engine
/// stores only the bytes of each bundle's file.
#[derive(Drop)]
pub struct Engine {
    packages: Packages,
    parents: Parents,
    versions: Versions,
    opened: OpenLocales,
    kept: KeptItems,
    hints: Hints,
}

impl Model for Engine {
    ghost Value = { Kept };

    ghost coded = { Prim.hlevel codes };

    ghost view = { λ e. record {
      packages = e.packages;
      parents = family_pairs e.parents;
      version = e.versions.latest;
    } };

    ghost invariant = { λ e.
        AreKept e.opened.slots.items e.packages (parent_of e.parents) e.versions.groups e.versions.latest
        × AreItemsKept e.kept.slots.items e.packages (parent_of e.parents) e.versions.groups
        e.versions.latest × AreUpTo e.versions.groups e.versions.latest };
}

impl Engine {
    /// Starts an engine with the bundles of ICUDATA and explicit parents; `state` seeds its hashes.
    /// Returns an error with the index of the first invalid entry: `BadText` or `BadFile` for its
    /// payload, else `Twice` for a name that an earlier entry has; or `Memory`. An error leaves
    /// nothing allocated.
    pub fn start(
        alloc: Global,
        state: RandomState,
        icudata: Vec<(Name, Payload)>,
        parents: Parents,
    ) -> Result<Engine, StartFault>
        ensures icudata { IfOk result
            (λ engine. Loads [] icudata.items (state_of engine).start.icudata) }
        ensures parents { IfOk result (λ engine. (name : List ℕ)
            → (state_of engine).start.parents name ≡ parent_of parents name) }
        ensures lists { IfOk result (λ engine. (app : List ℕ) → (state_of engine).lists app ≡ []) }
        ensures refused { IfErr result (IsRefused icudata.items) }
        ensures index { IfErr result (IsIndexed (length icudata.items)) }
    {
        let version = first_version(&state, 0);
        let mut packages = Packages::new(alloc, state);
        load_all(alloc, &mut packages, icudata)?;
        Ok(Engine {
            packages,
            parents,
            versions: Versions::first(version),
            opened: OpenLocales::none(alloc),
            kept: KeptItems::none(alloc),
            hints: Hints::none(alloc),
        })
    }

    /// Makes another engine with the same bundles and explicit parents, so that one of them can
    /// change. It takes time for each bundle, and copies no file. `state` seeds its first version, so
    /// a locale that one of them opened is stale for the other.
    pub fn snapshot(&self, alloc: Global, state: &RandomState) -> Result<Engine, AllocError>
        ensures packages { IfOk result (λ engine. engine.packages ≡ self.now.packages) }
        ensures parents { IfOk result (λ engine. engine.parents ≡ self.now.parents) }
    {
        Ok(Engine {
            packages: self.packages.clone()?,
            parents: self.parents.clone()?,
            versions: Versions::first(first_version(state, self.versions.latest)),
            opened: OpenLocales::none(alloc),
            kept: KeptItems::none(alloc),
            hints: Hints::none(alloc),
        })
    }

    /// Handles one request: parses a text and writes it as a file, or takes a file; then accepts
    /// the file as a bundle.
    ///
    /// Checks in this order: `BadApp`, `Reserved`, `BadLocale`, `BadText`, `BadFile`, `Exists`,
    /// `Absent`, `Full`. `Memory` may come once the names are checked, before any of the others,
    /// except for a removal. A rejected request changes nothing, and its payload is dropped.
    ///
    /// ```rust
    /// engine.handle(alloc, Request::Install { app, locale, payload }) // Reply::Done
    /// ```
    pub fn handle(&mut self, alloc: Global, request: Request) -> Reply
        ensures step { Step (state_of self.old) (Requests request) (Replies result)
            (state_of self.new) }
        ensures version { result ≡ Reply.Done → self.new.version ≡ next_version self.old.version }
        ensures unchanged { result ≢ Reply.Done → self.new ≡ self.old }
    {
        match request {
            Request::Install {
                app,
                locale,
                payload,
            } => self.read_and_put(
                alloc,
                Change::Install,
                app.as_slice(),
                locale.as_slice(),
                payload,
            ),
            Request::Replace {
                app,
                locale,
                payload,
            } => self.read_and_put(
                alloc,
                Change::Replace,
                app.as_slice(),
                locale.as_slice(),
                payload,
            ),
            Request::Remove { app, locale } => self.remove(app.as_slice(), locale.as_slice()),
            Request::List { app } => self.list(alloc, app.as_slice()),
        }
    }

    fn read_and_put(
        &mut self,
        alloc: Global,
        change: Change,
        app: &[u8],
        locale: &[u8],
        payload: Payload,
    ) -> Reply
        ensures step { Step (state_of self.old)
            (Requests (change_request change app.now locale.now payload)) (Replies result)
            (state_of self.new) }
        ensures version { result ≡ Reply.Done → self.new.version ≡ next_version self.old.version }
        ensures unchanged { result ≢ Reply.Done → self.new ≡ self.old }
    {
        match IncomingBundle::read_payload(alloc, app, locale, payload) {
            Ok(incoming) => self.put(change, incoming),
            Err(reply) => reply,
        }
    }

    /// Stores an incoming bundle: the part of `handle` after reading the payload. Any reply other
    /// than `Done` changes nothing and drops the bundle: `Exists`, `Full` and `Memory` for an
    /// install, `Absent` for a replacement, which allocates nothing.
    pub fn put(&mut self, change: Change, incoming: IncomingBundle) -> Reply
        ensures step { (app locale : List ℕ) → (payload : Payload)
            → Reads app locale payload (Ok incoming)
            → Step (state_of self.old) (Requests (change_request change app locale payload))
            (Replies result)
            (state_of self.new) }
        ensures files { result ≡ Reply.Done → files_of incoming.0.app self.new.packages
            ≡ files_after change incoming.0.name incoming.1
            (files_of incoming.0.app self.old.packages) }
        ensures apps { result ≡ Reply.Done → apps_of self.new.packages
            ≡ apps_of self.old.packages + more_apps (files_of incoming.0.app self.old.packages) }
        ensures others { OthersStay incoming.0.app self.old.packages self.new.packages }
        ensures parents { self.new.parents ≡ self.old.parents }
        ensures version { result ≡ Reply.Done → self.new.version ≡ next_version self.old.version }
        ensures unchanged { result ≢ Reply.Done → self.new ≡ self.old }
        ensures memory { change ≡ Change.Replace → result ≢ Reply.Memory }
    {
        let (place, bundle) = incoming.into_parts();
        match change {
            Change::Install => {
                let reply = handle::install(&mut self.packages, &mut self.versions, &place, bundle);
                self.hints.note_installed(&reply, &self.packages, &place);
                reply
            }
            Change::Replace => {
                handle::replace(&mut self.packages, &mut self.versions, &place, bundle)
            }
        }
    }

    /// Removes a bundle, like `handle`. Any reply other than `Done` changes nothing: `BadApp`,
    /// `Reserved`, `BadLocale` or `Absent`. Allocates nothing.
    pub fn remove(&mut self, app: &[u8], locale: &[u8]) -> Reply
        ensures step { Step (state_of self.old) (Requests (Removal app.now locale.now))
            (Replies result) (state_of self.new) }
        ensures removed { Removes
            (place_at app.now locale.now) result self.old.packages self.new.packages }
        ensures parents { self.new.parents ≡ self.old.parents }
        ensures version { result ≡ Reply.Done → self.new.version ≡ next_version self.old.version }
        ensures unchanged { result ≢ Reply.Done → self.new ≡ self.old }
        ensures memory { result ≢ Reply.Memory }
    {
        handle::remove(&mut self.packages, &mut self.versions, app, locale)
    }

    /// Lists the names of an application's bundles, like `handle`: `Names`, `BadApp`, `Reserved` or
    /// `Memory`.
    pub fn list(&self, alloc: Global, app: &[u8]) -> Reply
        ensures { Step (state_of self.now) (Requests (Listing app.now)) (Replies result)
            (state_of self.now) }
    {
        handle::list(&self.packages, alloc, app)
    }

    /// Returns how much an application stores.
    pub fn usage(&self, app: &App) -> Usage
        ensures bytes { result.bytes
            ≡ min (bytes_of (files_of app.now self.now.packages)) (2 ^ 64 - 1) }
        ensures bundles { result.bundles ≡ length (files_of app.now self.now.packages) }
    {
        self.packages.usage(app)
    }

    /// Returns the application's bundle with this name.
    pub fn bundle(&self, app: &App, name: &Name) -> Option<&Bundle>
        ensures { option_map (λ b. b.now) result ≡ file_at app.now name.now self.now.packages }
    {
        self.packages.bundle(app, name)
    }

    /// Returns the names of an application's bundles and the lengths of their files, in the order
    /// of installation.
    pub fn sizes(&self, alloc: Global, app: &App) -> Result<Vec<(Name, u64)>, AllocError>
        ensures { IfOk result (λ sizes. sizes.items
            ≡ map (λ e. (e.0, length e.1)) (files_of app.now self.now.packages)) }
    {
        self.packages.sizes(alloc, app)
    }

    /// Returns references to the bundles that an application's lookups read.
    pub fn shelves(&self, app: &App) -> AppShelves<'_>
        ensures own { files_in result.own ≡ files_of app.now self.now.packages }
        ensures icudata { files_in result.icudata ≡ icudata_files self.now.packages }
        ensures parents { family_pairs result.parents.now ≡ self.now.parents }
    {
        AppShelves {
            own: self.packages.shelf(app),
            icudata: self.packages.icu_shelf(),
            parents: &self.parents,
        }
    }

    /// Begins changes of an application's bundles that are made together by `release`.
    pub fn draft(&self, alloc: Global, app: &App) -> Result<Draft, AllocError>
        ensures app { IfOk result (λ draft. draft.app ≡ app.now) }
        ensures none { IfOk result (λ draft. draft.edits ≡ []) }
        ensures sizes { IfOk result
            (λ draft. draft.sizes ≡ sizes_of (files_of app.now self.now.packages)) }
    {
        self.packages.draft(alloc, app)
    }

    /// Makes the changes of a draft in their order: all of them, or none if memory runs out.
    pub fn release(&mut self, draft: Draft) -> Result<(), AllocError>
        ensures files { OnOk result (files_of draft.app self.new.packages
            ≡ edited draft.edits (files_of draft.app self.old.packages)) }
        ensures others { OthersStay draft.app self.old.packages self.new.packages }
        // The other applications with bundles stay as many.
        ensures apps { OnOk result
            (apps_of self.new.packages + more_apps (files_of draft.app self.new.packages)
            ≡ apps_of self.old.packages + more_apps (files_of draft.app self.old.packages)) }
        ensures parents { self.new.parents ≡ self.old.parents }
        ensures version { OnOk result (self.new.version ≡ next_version self.old.version) }
        ensures unchanged { OnErr result (self.new ≡ self.old) }
    {
        let app = *draft.app();
        match self.packages.release(draft) {
            Ok(()) => {
                self.versions.rise(app.as_bytes());
                Ok(())
            }
            Err(error) => Err(error),
        }
    }

    /// Returns the length of the file that is stored under the incoming bundle's name.
    pub fn file_len(&self, incoming: &IncomingBundle) -> Option<u64>
        ensures { result
            ≡ option_map length (file_at incoming.now.0.app incoming.now.0.name self.now.packages) }
    {
        let place = incoming.place();
        self.packages.file_len(&place.app, &place.name)
    }

    pub fn apps(&self) -> u64
        ensures count { result ≡ apps_of self.now.packages }
        // Each application counts once, and has bundles.
        ensures once { AreThereOnce self.now.packages }
    {
        self.packages.apps()
    }

    /// Looks up the item at a path along the trail of locale inheritance. Borrows it from its
    /// bundle's file, and allocates nothing.
    ///
    /// Checks `BadApp`, `Reserved`, `BadLocale` and `BadPath` in this order; then the search
    /// returns its first error.
    pub fn look(&self, app: &[u8], locale: &[u8], path: &[u8]) -> Result<Found<Item<'_>>, LookFault>
        ensures { look_response tree_seen result
            ≡ answer_over (state_of self.now).start ((state_of self.now).lists app.now)
            (Looks app.now locale.now path.now) }
    {
        let version = self.versions.of(app);
        let kept = self
            .kept
            .look(&self.packages, version, app, locale, path, u64::MAX);
        if let Some(found) = kept {
            return Ok(found);
        }
        match self.look_kept(app, locale, path) {
            Some(found) => found,
            None => self.look_named(app, locale, path),
        }
    }

    /// Looks up like `look` if the locale is kept open (`keep_open`) and these are its canonical
    /// names, else returns `None`. Allocates nothing.
    pub fn look_kept(
        &self,
        app: &[u8],
        locale: &[u8],
        path: &[u8],
    ) -> Option<Result<Found<Item<'_>>, LookFault>>
        ensures { IfSome result (λ found. look_response tree_seen found
            ≡ answer_over (state_of self.now).start ((state_of self.now).lists app.now)
            (Looks app.now locale.now path.now)) }
    {
        let opened = self.opened.look(
            &self.packages,
            &self.parents,
            self.versions.of(app),
            app,
            locale,
            path,
            None,
        );
        match opened {
            Some(Ok(found)) => Some(found),
            Some(Err(TooManySteps)) => unreachable!(),
            None => None,
        }
    }

    /// Looks up like `look_kept`, in at most `left` steps, and returns the item alone, which takes
    /// less time. `None` is no limit.
    pub fn find_kept(
        &self,
        app: &[u8],
        locale: &[u8],
        path: &[u8],
        left: Option<u64>,
    ) -> Option<Result<Result<Item<'_>, LookFault>, TooManySteps>>
        ensures within { IfSome result (λ item. OnOk item (exceeds left
            (state_of self.now).start ((state_of self.now).lists app.now)
            (place_at app.now locale.now) path.now ≡ false)) }
        ensures found { IfSome result (λ item. IfOk item (λ node. IsNodeOf node (λ found.
            look_response tree_seen found
            ≡ answer_over (state_of self.now).start ((state_of self.now).lists app.now)
            (Looks app.now locale.now path.now)))) }
        ensures more { IfSome result (λ item. OnErr item (exceeds left
            (state_of self.now).start ((state_of self.now).lists app.now)
            (place_at app.now locale.now) path.now ≡ true)) }
    {
        self.opened.find_item(
            &self.packages,
            &self.parents,
            self.versions.of(app),
            app,
            locale,
            path,
            left,
        )
    }

    /// Looks up by names that may be other ones of a locale that is kept open.
    fn look_named(
        &self,
        app: &[u8],
        locale: &[u8],
        path: &[u8],
    ) -> Result<Found<Item<'_>>, LookFault>
        ensures { look_response tree_seen result
            ≡ answer_over (state_of self.now).start ((state_of self.now).lists app.now)
            (Looks app.now locale.now path.now) }
    {
        let place = place_of(app, locale)?;
        let own_app = place.app.as_bytes();
        let own_locale = place.name.as_bytes();
        if own_app != app || own_locale != locale {
            if let Some(found) = self.look_kept(own_app, own_locale, path) {
                return found;
            }
        }
        look_in(
            &self.packages,
            &self.parents,
            &place,
            self.hints.next,
            path,
            &mut (),
        )
    }

    /// Looks up like `look`, or returns `TooManySteps` if the lookup takes more than this many
    /// steps. An invalid application, locale or path is reported first.
    ///
    /// Each level of the search counts the names of its trail times one more than the segments of
    /// its path. No lookup takes more than 4,202,496 steps.
    pub fn look_within(
        &self,
        app: &[u8],
        locale: &[u8],
        path: &[u8],
        steps: u64,
    ) -> Result<Result<Found<Item<'_>>, LookFault>, TooManySteps>
        ensures within { OnOk result (takes_more steps (state_of self.now).start
            ((state_of self.now).lists app.now) (place_at app.now locale.now) path.now ≡ false) }
        ensures found { IfOk result (λ found. look_response tree_seen found
            ≡ answer_over (state_of self.now).start ((state_of self.now).lists app.now)
            (Looks app.now locale.now path.now)) }
        ensures more { OnErr result (takes_more steps (state_of self.now).start
            ((state_of self.now).lists app.now) (place_at app.now locale.now) path.now ≡ true) }
    {
        let version = self.versions.of(app);
        let kept = self
            .kept
            .look(&self.packages, version, app, locale, path, steps);
        if let Some(found) = kept {
            return Ok(Ok(found));
        }
        let opened = self.opened.look(
            &self.packages,
            &self.parents,
            version,
            app,
            locale,
            path,
            Some(steps),
        );
        match opened {
            Some(found) => found,
            None => self.look_named_within(app, locale, path, steps),
        }
    }

    /// Looks up like `look_within` where no locale is kept open by these names.
    fn look_named_within(
        &self,
        app: &[u8],
        locale: &[u8],
        path: &[u8],
        steps: u64,
    ) -> Result<Result<Found<Item<'_>>, LookFault>, TooManySteps>
        ensures within { OnOk result (takes_more steps (state_of self.now).start
            ((state_of self.now).lists app.now) (place_at app.now locale.now) path.now ≡ false) }
        ensures found { IfOk result (λ found. look_response tree_seen found
            ≡ answer_over (state_of self.now).start ((state_of self.now).lists app.now)
            (Looks app.now locale.now path.now)) }
        ensures more { OnErr result (takes_more steps (state_of self.now).start
            ((state_of self.now).lists app.now) (place_at app.now locale.now) path.now ≡ true) }
    {
        match place_of(app, locale) {
            Ok(place) => look_in_within(
                &self.packages,
                &self.parents,
                &place,
                self.hints.next,
                path,
                steps,
            ),
            Err(fault) => Ok(Err(LookFault::from(fault))),
        }
    }
}

impl Engine {
    /// Opens a locale of an application for many lookups by `look_at`. Allocates nothing.
    ///
    /// Each change of the engine makes it stale, since a change of another application may move the
    /// bundles, too. The errors are those of `look` that come before the path is walked: `BadApp`,
    /// `Reserved`, `BadLocale`, `Chain`, `BadParent` and `NoBundle`.
    ///
    /// ```rust
    /// let opened = engine.open_locale(b"shop", b"de_AT")?;
    /// let found = engine.look_at(&opened, b"menu/open")??;
    /// ```
    pub fn open_locale(&self, app: &[u8], locale: &[u8]) -> Result<OpenLocale, LookFault>
        ensures opened { IfOk result
            (λ opened. IsOpenLocale opened self.now app.now locale.now) }
        ensures names { IfOk result (λ opened. CountsNames opened self.now app.now locale.now) }
        ensures version { IfOk result (λ opened. opened.version ≡ self.now.version) }
        ensures refused { IfErr result (RefusesAll self.now app.now locale.now) }
    {
        match place_of(app, locale) {
            Ok(place) => open_at(&self.packages, &self.parents, &place, self.versions.latest),
            Err(fault) => Err(LookFault::from(fault)),
        }
    }

    /// Makes room to keep this many locales open (`keep_open`), in about 500 bytes each. Closes those
    /// that are open.
    pub fn keep_locales(&mut self, alloc: Global, count: usize) -> Result<(), AllocError>
        ensures { self.new ≡ self.old }
    {
        self.opened = OpenLocales::with_slots(alloc, count)?;
        Ok(())
    }

    /// Opens a locale for later lookups by `look`, which then read neither its trail nor that of
    /// the aliases that lead back to it. Any change closes it. Allocates nothing.
    #[tactic(auto, using(crate::proofs::Places::own_app))]
    pub fn keep_open(&mut self, app: &[u8], locale: &[u8])
        ensures { self.new ≡ self.old }
    {
        let version = self.versions.of(app);
        if let Some(index) = self.opened.position(app, locale, version) {
            self.opened.recent = index;
            return;
        }
        if let Ok(place) = place_of(app, locale) {
            let version = self.versions.of(place.app.as_bytes());
            self.opened
                .keep(&self.packages, &self.parents, version, &place);
        }
    }

    /// Makes room to keep the places of this many items (`keep_item`), in about 400 bytes each.
    /// Forgets those that are kept.
    pub fn keep_items(&mut self, alloc: Global, count: usize) -> Result<(), AllocError>
        ensures { self.new ≡ self.old }
    {
        self.kept = KeptItems::with_slots(alloc, count)?;
        Ok(())
    }

    /// Keeps the place where a lookup ends, so that `look`, and `look_within` with at least as many
    /// steps, find the item there without a search. `steps` is `u64::MAX` if there is no limit.
    /// The first time it takes the hint where the bundle is (`keep_hints`), or opens the locale, like
    /// `keep_open`, if the locale was asked for before; once the place is kept it does nothing. A
    /// lookup is kept if it comes twice, by canonical names, and finds a String of at most 1,024
    /// units, and its path has at most 96 bytes before and after aliases. The lookups of one slot
    /// take turns, and any change forgets all of them. Allocates nothing.
    pub fn keep_item(&mut self, app: &[u8], locale: &[u8], path: &[u8], steps: u64)
        ensures { self.new ≡ self.old }
    {
        let version = self.versions.of(app);
        match self.kept.ask(app, locale, path, version) {
            Asked::Kept => {}
            Asked::First => self.keep_asked(app, locale),
            Asked::Again => self.keep_found(app, locale, path, steps),
        }
    }

    /// Opens a locale if it was asked for before. To open one takes as long as a lookup, so the
    /// first time it only takes the hint where the bundle is.
    fn keep_asked(&mut self, app: &[u8], locale: &[u8])
        ensures { self.new ≡ self.old }
    {
        let hash = hash_of(app, locale);
        let version = self.versions.of(app);
        match self.opened.ask(hash, app, locale, version) {
            Asked::Kept => {}
            Asked::Again => self.keep_open(app, locale),
            Asked::First => self.hints.prepare(&self.packages, hash, app, locale),
        }
    }

    /// Makes room for hints where this many bundles are, in 12 bytes each. An install notes one, and
    /// a lookup that follows its `keep_item` finds its bundle there without a search. A hint that is
    /// wrong is found anew. Forgets the hints that there are.
    pub fn keep_hints(&mut self, alloc: Global, count: usize) -> Result<(), AllocError>
        ensures { self.new ≡ self.old }
    {
        self.hints = Hints::with_rows(alloc, count)?;
        Ok(())
    }

    /// Returns true if `fetch` may save time: since it ended, at least 4 lookups were passed to
    /// `keep_item` of which neither the place nor the locale was kept.
    pub fn gains_by_fetch(&self) -> bool {
        self.hints.needed > 3
    }

    /// Reads what the next lookups need into the processor's cache: the entries of their bundles,
    /// and files of at most 1,024 bytes. The reads for all of them wait for memory together. Bundles
    /// without a hint are left out. Allocates nothing.
    pub fn fetch(&mut self, upcoming: &Upcoming)
        ensures { self.new ≡ self.old }
    {
        self.hints.fetch(&self.packages, upcoming);
    }

    /// Keeps the place where a lookup ends, and opens its locale.
    #[tactic(auto, using(crate::proofs::Places::own_app))]
    fn keep_found(&mut self, app: &[u8], locale: &[u8], path: &[u8], steps: u64)
        ensures { self.new ≡ self.old }
    {
        self.keep_open(app, locale);
        // Only what is worth it is searched for by names, which takes longer.
        if !self.finds_short_text(app, locale, path) {
            return;
        }
        if let Ok(place) = place_of(app, locale) {
            let version = self.versions.of(place.app.as_bytes());
            self.kept.keep(&self.packages, &self.parents, version, &place, path, steps);
        }
    }

    /// Returns true if the locale is open by these names, and the lookup finds a short String.
    fn finds_short_text(&self, app: &[u8], locale: &[u8], path: &[u8]) -> bool {
        match self.find_kept(app, locale, path, None) {
            Some(Ok(Ok(item))) => is_short_text(item),
            _ => false,
        }
    }

    /// Looks a path up like `look` from a locale that was opened before, or returns `Stale` if the
    /// engine has changed since. Allocates nothing.
    ///
    /// The search reads the bundles up to the one that decides; neither names nor the trail are
    /// read again.
    pub fn look_at(
        &self,
        opened: &OpenLocale,
        path: &[u8],
    ) -> Result<Result<Found<Item<'_>>, LookFault>, Stale>
        ensures current { OnOk result (is_current opened.now.version self.now.version ≡ true) }
        ensures stale { OnErr result (is_current opened.now.version self.now.version ≡ false) }
        ensures answer { (app locale : List ℕ) → IsOpenLocale opened.now self.now app locale
            → IfOk result (λ found. look_response tree_seen found
            ≡ answer_over (state_of self.now).start ((state_of self.now).lists app)
            (Looks app locale path.now)) }
    {
        if !is_current(opened.version, self.versions.latest) {
            return Err(Stale);
        }
        Ok(look_opened(&self.packages, &self.parents, opened, path))
    }
}

/// Returns the version of an engine that is new, or a snapshot of one with a version. It is a hash,
/// which differs between engines with different seeds and from that of the snapshot's engine, so
/// that a locale that one engine opened is stale for the others.
fn first_version(state: &RandomState, before: u64) -> u64 {
    let mut hasher = state.build_hasher();
    hasher.write_u64(before);
    hasher.finish() >> 1
}

impl From<LookError> for LookFault {
    ghost use Rattle.rb_engine.specs.LookFaults.{look_fault_of};

    ghost from_gives = { λ e f. f ≡ look_fault_of e };

    fn from(error: LookError) -> Self {
        same_name!(error: LookError => LookFault {
            BadPath, PathTooLong, Chain, BadParent, NoBundle, Missing, AliasText, AliasPackage,
            TooManyAliases,
        })
    }
}

pub(crate) fn look_in<'a, W: Watch>(
    packages: &'a Packages,
    parents: &Parents,
    place: &Place,
    hint: BundleHint,
    path: &[u8],
    watch: &mut W,
) -> Result<Found<Item<'a>>, LookFault>
    ensures { look_response tree_seen result ≡ lookup_in
        (bundle_at (list_of place.now.app packages.now)) (bundle_at (icudata_of packages.now))
        (parent_of parents.now) place.now.name path.now }
{
    let own = packages.shelf_near(&place.app, hint);
    match look_watched(own, packages.icu_shelf(), parents, &place.name, path, watch) {
        Ok(found) => Ok(found.with_node(found.node.item())),
        Err(error) => Err(LookFault::from(error)),
    }
}

pub(crate) fn look_in_within<'a>(
    packages: &'a Packages,
    parents: &Parents,
    place: &Place,
    hint: BundleHint,
    path: &[u8],
    steps: u64,
) -> Result<Result<Found<Item<'a>>, LookFault>, TooManySteps>
    ensures within { OnOk result (takes_more_from steps
        (bundle_at (list_of place.now.app packages.now)) (bundle_at (icudata_of packages.now))
        (parent_of parents.now) place.now.name path.now ≡ false) }
    ensures found { IfOk result (λ found. look_response tree_seen found
        ≡ lookup_in (bundle_at (list_of place.now.app packages.now))
        (bundle_at (icudata_of packages.now)) (parent_of parents.now) place.now.name path.now) }
    ensures more { OnErr result (takes_more_from steps
        (bundle_at (list_of place.now.app packages.now)) (bundle_at (icudata_of packages.now))
        (parent_of parents.now) place.now.name path.now ≡ true) }
{
    let own = packages.shelf_near(&place.app, hint);
    match rb_fallback::look_within(own, packages.icu_shelf(), parents, &place.name, path, steps) {
        Ok(found) => Ok(Ok(found.with_node(found.node.item()))),
        Err(BoundedError::Search(error)) => Ok(Err(LookFault::from(error))),
        Err(BoundedError::TooManySteps) => Err(TooManySteps),
    }
}
