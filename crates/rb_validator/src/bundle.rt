ghost use Rattle.std.specs.Prelude.{◌≡◌, ◌⊎◌, ◌*◌, ◌≤◌, Some, IfOk, IfErr, OnOk, drop, length};
ghost use Rattle.rb_format.specs.Place.{half_at, layout_of};
ghost use Rattle.rb_validator.specs.TextBlocks.{AreSegmentBlocks};
ghost use Rattle.rb_validator.specs.Visits.{HasVisits};
ghost use Rattle.rb_format.specs.File.{Denotes, source_tree_of};
ghost use Rattle.rb_format.specs.Checks.{first_fault};

use crate::file::{Found, check_file};
use crate::notes::{Notes, noted};
use crate::text_blocks::{BLOCK, segment_blocks};
use rb_format::{Attributes, FileFault, MINOR_VERSION_AT, body};
use std::alloc::{AllocError, Global};
use std::marker::Model;
use std::sync::Arc;

/// A file that was accepted, and what is known of it since.
#[derive(Drop)]
struct Accepted {
    bytes: Vec<u8>,
    visits: u32,
    notes: Option<Box<Notes>>,
}

impl Model for Accepted {
    ghost use Rattle.std.specs.Prelude.{List, ℕ};
    ghost use Rattle.rb_validator.specs.inner.Accepted.{IsAccepted};
    ghost use Rattle.rb_validator.specs.inner.Noted.{blocks_noted};

    ghost Value = { List ℕ };

    ghost view = { λ b. b.bytes.items };

    ghost invariant = { λ b. IsAccepted b.bytes.items b.visits (blocks_noted b.notes) };
}

/// A counted reference to a file that was accepted as a bundle.
#[derive(Drop)]
pub struct Bundle {
    file: Arc<Accepted>,
}

impl Model for Bundle {
    ghost use Rattle.std.specs.Prelude.{List, ℕ};

    ghost Value = { List ℕ };

    ghost view = { λ b. b.file.value };
}

/// Accepts a file that denotes a bundle, or returns its first fault and the unchanged bytes. The
/// checks come in this order: the length, the header, the indexes, the attributes, the root item,
/// and all items depth first.
///
/// Returns `Memory` if it can't allocate the marks of the tables and arrays (three bytes for each
/// word of the file), what it needs for overlapping tables and for keys that are expensive to
/// compare, or the count of references.
///
/// ```rust
/// let bundle = accept(alloc, file)?; // `bundle.visits()` is 1 for `root{a{"b"}}`
/// accept(alloc, bytes) // Err((FileFault::Header, bytes)), if they are no file
/// ```
pub fn accept(alloc: Global, bytes: Vec<u8>) -> Result<Bundle, (FileFault, Vec<u8>)>
    ensures bytes { IfOk result (λ b. b ≡ bytes.items) }
    ensures tree { IfOk result (λ b. Denotes bytes.items (source_tree_of b)) }
    ensures fault { IfErr result
        (λ e. (e.0 ≡ FileFault.Memory) ⊎ (first_fault bytes.items ≡ Some e.0)) }
    ensures back { IfErr result (λ e. e.1.items ≡ bytes.items) }
{
    match Arc::new(alloc, accept_file(alloc, bytes)?) {
        Ok(file) => Ok(Bundle { file }),
        Err(failed) => Err((FileFault::Memory, failed.value.bytes)),
    }
}

fn accept_file(alloc: Global, bytes: Vec<u8>) -> Result<Accepted, (FileFault, Vec<u8>)>
    ensures bytes { IfOk result (λ b. b ≡ bytes.items) }
    ensures tree { IfOk result (λ b. Denotes bytes.items (source_tree_of b)) }
    ensures fault { IfErr result
        (λ e. (e.0 ≡ FileFault.Memory) ⊎ (first_fault bytes.items ≡ Some e.0)) }
    ensures back { IfErr result (λ e. e.1.items ≡ bytes.items) }
{
    match check_file(alloc, &bytes) {
        Ok(Found { visits, notes }) => Ok(Accepted {
            bytes,
            visits,
            notes,
        }),
        Err(fault) => Err((fault, bytes)),
    }
}

/// Checks whether a file denotes a bundle, like `accept`, without taking its bytes.
///
/// ```rust
/// check(alloc, bytes)?; // the first fault of a file that `accept` would reject
/// ```
pub fn check(alloc: Global, bytes: &[u8]) -> Result<(), FileFault>
    ensures tree { OnOk result (Denotes bytes.now (source_tree_of bytes.now)) }
    ensures fault { IfErr result
        (λ e. (e ≡ FileFault.Memory) ⊎ (first_fault bytes.now ≡ Some e)) }
{
    match check_file(alloc, bytes) {
        Ok(found) => {
            drop(found);
            Ok(())
        }
        Err(fault) => Err(fault),
    }
}

impl Accepted {
    fn written(
        alloc: Global,
        bytes: Vec<u8>,
        visits: u32,
        longest_alias: usize,
    ) -> Result<Accepted, AllocError>
        requires denotes { Denotes bytes.items (source_tree_of bytes.items) }
        requires visits { HasVisits bytes.items visits }
        ensures { IfOk result (λ b. b ≡ bytes.items) }
    {
        let blocks = segment_blocks(alloc, body(&bytes), longest_alias >= BLOCK)?;
        let notes = noted(alloc, blocks)?;
        Ok(Accepted {
            bytes,
            visits,
            notes,
        })
    }

    fn bytes(&self) -> &[u8]
        ensures bytes { result.now ≡ self.now }
        ensures denoted { Denotes self.now (source_tree_of self.now) }
    {
        &self.bytes
    }

    fn visits(&self) -> u64
        ensures counted { HasVisits self.now result }
        ensures few { let body = drop (half_at self.now 0) self.now in result
            ≤ 3 * (layout_of body).top }
    {
        self.visits as u64
    }

    fn blocks(&self) -> &[bool]
        ensures { AreSegmentBlocks (drop (half_at self.now 0) self.now) result.now }
    {
        match &self.notes {
            Some(notes) => &notes.blocks,
            None => &[],
        }
    }
}

/// A clone is one more reference, and takes no memory.
impl Clone for Bundle {
    ghost is_clone = { λ b c. c ≡ b };

    fn clone(&self) -> Result<Bundle, AllocError> {
        Ok(Bundle {
            file: Arc::try_clone(&self.file)?,
        })
    }
}

impl Bundle {
    /// Makes the bundle of a file that was just written, which isn't checked again. The writer knows
    /// how many tables and arrays have data, and how many units the longest Alias has.
    ///
    /// ```rust
    /// let bundle = Bundle::written(alloc, written.file, written.containers, written.longest_alias)?;
    /// ```
    pub fn written(
        alloc: Global,
        bytes: Vec<u8>,
        visits: u32,
        longest_alias: usize,
    ) -> Result<Bundle, AllocError>
        requires denotes { Denotes bytes.items (source_tree_of bytes.items) }
        requires visits { HasVisits bytes.items visits }
        ensures { IfOk result (λ b. b ≡ bytes.items) }
    {
        match Arc::new(
            alloc,
            Accepted::written(alloc, bytes, visits, longest_alias)?,
        ) {
            Ok(file) => Ok(Bundle { file }),
            Err(_) => Err(AllocError),
        }
    }

    pub fn bytes(&self) -> &[u8]
        ensures bytes { result.now ≡ self.now }
        ensures denoted { Denotes self.now (source_tree_of self.now) }
    {
        self.file.bytes()
    }

    /// Returns true if a lookup stops at the bundle (`URES_ATT_NO_FALLBACK` of `uresdata.h`).
    pub fn no_fallback(&self) -> bool
        ensures { result ≡ (source_tree_of self.now).no_fallback }
    {
        let bytes = self.bytes();
        Attributes::of(bytes[MINOR_VERSION_AT], body(bytes)).no_fallback()
    }

    /// Returns the number of tables and arrays that have data, each offset and kind counted once.
    /// It is at most three for each word of the bundle.
    pub fn visits(&self) -> u64
        ensures counted { HasVisits self.now result }
        ensures few { let body = drop (half_at self.now 0) self.now in result
            ≤ 3 * (layout_of body).top }
    {
        self.file.visits()
    }

    /// Returns a mark for each whole block of 1,024 half words of the data. A marked block consists
    /// of units of path segments: printable ASCII without slashes. A file without an Alias as long
    /// as a block has no marks, so that it doesn't pay for them.
    pub fn blocks(&self) -> &[bool]
        ensures { AreSegmentBlocks (drop (half_at self.now 0) self.now) result.now }
    {
        self.file.blocks()
    }
}
