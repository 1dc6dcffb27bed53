//! Hints where bundles are, so that a lookup by names finds its bundle without a search.
use crate::place::{Place, hash_of, place_of};
use crate::request::Reply;
use rb_packages::{BundleHint, Packages};
use std::alloc::{AllocError, Global};

/// A hint, and a part of the hash of the names that it is for.
#[derive(Clone, Copy)]
struct Row {
    /// The part of the hash, or 0 in an empty row.
    tag: u32,
    app: u32,
    bundle: u32,
}

impl Row {
    const NONE: Row = Row {
        tag: 0,
        app: 0,
        bundle: 0,
    };

    fn new(tag: u32, hint: BundleHint) -> Row {
        Row {
            tag,
            app: u32::try_from(hint.app).unwrap_or(u32::MAX),
            bundle: u32::try_from(hint.bundle).unwrap_or(u32::MAX),
        }
    }

    fn hint(self) -> BundleHint {
        BundleHint {
            app: self.app as usize,
            bundle: self.bundle as usize,
        }
    }
}

/// The number of rows in which a hint may be.
const WINDOW: usize = 4;

/// Returns the part of a hash that is stored. It isn't 0.
fn tag_of(hash: u64) -> u32 {
    (hash & 0xffff_ffff) as u32 | 1
}

/// A table of hints. A bundle has one of a few rows that its names choose, so the table never grows.
#[derive(Drop)]
pub(crate) struct Hints {
    rows: Vec<Row>,
    /// The hint for the lookup that comes next.
    pub(crate) next: BundleHint,
    /// The number of lookups without a kept place or locale since `fetch` ended.
    pub(crate) needed: u64,
    /// The last byte that `fetch` computed. It is stored so that the compiler keeps the reads.
    read: u8,
}

impl Hints {
    pub(crate) fn none(alloc: Global) -> Hints {
        Hints {
            rows: Vec::new(alloc),
            next: BundleHint::NONE,
            needed: 0,
            read: 0,
        }
    }

    /// Makes a table with this many empty rows.
    pub(crate) fn with_rows(alloc: Global, count: usize) -> Result<Hints, AllocError> {
        Ok(Hints {
            rows: vec![in alloc; Row::NONE; count]?,
            next: BundleHint::NONE,
            needed: 0,
            read: 0,
        })
    }

    /// Returns the index of the first row in which the hint for a hash may be.
    fn first_row(&self, hash: u64) -> usize {
        let count = self.rows.len().saturating_sub(WINDOW - 1);
        ((hash as u128 * count as u128) >> 64) as usize
    }

    /// Returns the index of the row that has the hint for a hash.
    fn position(&self, hash: u64) -> Option<usize> {
        let tag = tag_of(hash);
        let first = self.first_row(hash);
        for i in first..first.saturating_add(WINDOW) {
            if self.rows.get(i)?.tag == tag {
                return Some(i);
            }
        }
        None
    }

    fn find(&self, hash: u64) -> Option<BundleHint> {
        Some(self.rows.get(self.position(hash)?)?.hint())
    }

    /// Returns the index of the first row for a hash that is empty, or of the first row.
    fn row_for(&self, hash: u64) -> usize {
        let first = self.first_row(hash);
        for i in first..first.saturating_add(WINDOW) {
            match self.rows.get(i) {
                Some(row) if row.tag == 0 => return i,
                _ => {}
            }
        }
        first
    }

    /// Stores the hint for a hash.
    fn put(&mut self, hash: u64, hint: BundleHint) {
        let index = match self.position(hash) {
            Some(index) => index,
            None => self.row_for(hash),
        };
        if let Some(row) = self.rows.get_mut(index) {
            *row = Row::new(tag_of(hash), hint);
        }
    }

    /// Empties the row with the hint for a hash.
    fn forget(&mut self, hash: u64) {
        let Some(index) = self.position(hash) else {
            return;
        };
        if let Some(row) = self.rows.get_mut(index) {
            *row = Row::NONE;
        }
    }

    /// Notes where the bundle of a place is, for the next lookup and for later ones. Without a
    /// bundle there is no hint.
    pub(crate) fn note(&mut self, packages: &Packages, place: &Place) {
        if self.rows.is_empty() {
            return;
        }
        let hash = hash_of(place.app.as_bytes(), place.name.as_bytes());
        let app = packages.app_index(&place.app);
        let bundle = packages.shelf(&place.app).index_of(&place.name);
        match (app, bundle) {
            (Some(app), Some(bundle)) => {
                let hint = BundleHint { app, bundle };
                self.next = hint;
                self.put(hash, hint);
            }
            _ => self.forget(hash),
        }
    }

    /// Notes where a bundle is if the reply to its install says that it is there.
    pub(crate) fn note_installed(&mut self, reply: &Reply, packages: &Packages, place: &Place) {
        if let Reply::Done = reply {
            self.note(packages, place);
        }
    }

    /// Takes the hint for the names of the lookup that comes next, by their hash. Finds it anew if
    /// it is wrong.
    pub(crate) fn prepare(&mut self, packages: &Packages, hash: u64, app: &[u8], locale: &[u8]) {
        self.needed = self.needed.saturating_add(1);
        self.next = BundleHint::NONE;
        let Some(hint) = self.find(hash) else {
            return;
        };
        if packages.is_at(hint, app, locale) {
            self.next = hint;
            return;
        }
        if let Ok(place) = place_of(app, locale) {
            self.note(packages, &place);
        }
    }

    /// Reads the entries of the bundles that are hinted at for these lookups, then their files. The
    /// reads of one loop wait for memory together.
    pub(crate) fn fetch(&mut self, packages: &Packages, upcoming: &Upcoming) {
        let mut hints = [BundleHint::NONE; Upcoming::MOST];
        for (hint, hash) in hints.iter_mut().zip(upcoming.hashes()) {
            *hint = self.find(*hash).unwrap_or(BundleHint::NONE);
        }
        let mut read = 0;
        for hint in hints {
            read ^= packages.read_entry(hint);
        }
        for hint in hints {
            read ^= packages.read_file(hint);
        }
        self.read = read;
        self.needed = 0;
    }
}

/// The names of the lookups that come next, as their hashes.
#[derive(Clone, Copy)]
pub struct Upcoming {
    hashes: [u64; Upcoming::MOST],
    len: usize,
}

impl Upcoming {
    /// The most lookups. More are left out.
    pub const MOST: usize = 32;

    /// Returns no names.
    pub fn new() -> Upcoming {
        Upcoming {
            hashes: [0; Upcoming::MOST],
            len: 0,
        }
    }

    /// Adds a lookup by its names as they will be passed. They are used to save time, so names that
    /// nobody looks up are allowed.
    pub fn add(&mut self, app: &[u8], locale: &[u8]) {
        if let Some(hash) = self.hashes.get_mut(self.len) {
            *hash = hash_of(app, locale);
            self.len += 1;
        }
    }

    fn hashes(&self) -> &[u64] {
        &self.hashes[..self.len.min(Upcoming::MOST)]
    }
}
