//! Checks the keys of tables in three stages, so that the bytes compared stay proportional to the
//! file even if tables overlap. Keys are compared byte by byte up to 4 bytes for each byte of the
//! file. Then all lengths are computed, and only common bytes are read, up to 24 for each byte of the
//! file. Then keys are compared by rank, and the results are cached.
ghost use Rattle.std.specs.Prelude.{◌≡◌, ◌⊎◌, ◌*◌, ◌≤◌, [], length, Some, Err, IfOk, IfErr};
ghost use Rattle.rb_format.specs.inner.FirstFault.{fault_of, keys};
ghost use Rattle.rb_validator.specs.inner.KnownKeys.{IsSound, AreGood};
ghost use Rattle.rb_format.specs.Geometry.{keys_end, key_offset as offset_in};
ghost use Rattle.rb_format.specs.Limits.{file_limit};

use crate::body::{Body, Checked, key_bytes};
use crate::keys::known::KnownKeys;
use crate::keys::lengths::measure_keys;
use crate::keys::plain::next_key;
use rb_format::{FileFault, KeyPlaces};
use std::alloc::{AllocError, Global};

/// In bytes of keys for each byte of the data.
const PLAIN_SHARE: u64 = 4;

/// The state of the key checks, passed from table to table.
#[derive(Drop)]
pub struct KeyChecker {
    alloc: Global,
    is_measured: bool,
    is_prepared: bool,
    pub known: KnownKeys,
}

impl KeyChecker {
    pub fn new(alloc: Global, body: Body<'_>) -> KeyChecker
        requires { length body.bytes.now ≤ file_limit }
        ensures { IsSound body.entry.layout.now body.entry.bytes.now result.known }
    {
        KeyChecker {
            alloc,
            is_measured: false,
            is_prepared: false,
            known: KnownKeys::new(alloc, body),
        }
    }

    /// Checks that a table's keys are valid and ascend. Returns the first fault, or `Memory`.
    pub fn check_keys(&mut self, body: Body<'_>, places: KeyPlaces, count: usize) -> Checked<()>
        requires keys { 4 * body.layout.now.keys_top ≤ length body.bytes.now }
        requires places { keys_end places count ≤ length body.bytes.now }
        requires sound { IsSound body.layout.now body.bytes.now self.old.known }
        ensures fault { (result ≡ Err FileFault.Memory)
            ⊎ (fault_of result ≡ fault_of (keys body.entry.layout.now body.entry.bytes.now
            (offset_in body.entry.bytes.now places) [] 0 count)) }
        ensures sound { IsSound body.entry.layout.now body.entry.bytes.now self.new.known }
    {
        let reached = self.check_plainly(body, places, count)?;
        if reached == count {
            return Ok(());
        }
        if self.measure(body).is_err() {
            return Err(FileFault::Memory);
        }
        let reached = self.known.check_closely(body, places, count)?;
        if reached == count {
            return Ok(());
        }
        if self.prepare(body).is_err() {
            return Err(FileFault::Memory);
        }
        self.known.check_rest(body, places, reached, count)
    }

    /// Checks keys byte by byte within the stage's limit, and returns how many are valid.
    fn check_plainly(&mut self, body: Body<'_>, places: KeyPlaces, count: usize) -> Checked<usize>
        requires keys { 4 * body.layout.now.keys_top ≤ length body.bytes.now }
        requires places { keys_end places count ≤ length body.bytes.now }
        requires sound { IsSound body.layout.now body.bytes.now self.old.known }
        ensures good { IfOk result (λ n. AreGood body.entry.layout.now body.entry.bytes.now
            (offset_in body.entry.bytes.now places) n) }
        ensures low { IfOk result (λ n. n ≤ count) }
        ensures fault { IfErr result
            (λ e. fault_of (keys body.entry.layout.now body.entry.bytes.now
            (offset_in body.entry.bytes.now places) [] 0 count) ≡ Some e) }
        ensures sound { IsSound body.entry.layout.now body.entry.bytes.now self.new.known }
    {
        let limit = PLAIN_SHARE * body.bytes.len() as u64;
        let mut last: &[u8] = &[];
        for i in 0..count {
            if limit <= self.known.compared {
                return Ok(i);
            }
            let offset = places.offset(body.bytes, i);
            last = next_key(body, last, offset, &mut self.known.compared)?;
        }
        Ok(count)
    }

    fn measure(&mut self, body: Body<'_>) -> Result<(), AllocError>
        requires keys { 4 * body.layout.now.keys_top ≤ length body.bytes.now }
        requires sound { IsSound body.layout.now body.bytes.now self.old.known }
        ensures { IsSound body.entry.layout.now body.entry.bytes.now self.new.known }
    {
        if !self.is_measured {
            let compared = self.known.compared;
            let lengths = measure_keys(self.alloc, key_bytes(body))?;
            self.known = KnownKeys::measured(self.alloc, body, lengths, compared);
            self.is_measured = true;
        }
        Ok(())
    }

    /// Ranks the keys on the first call.
    fn prepare(&mut self, body: Body<'_>) -> Result<(), AllocError>
        requires keys { 4 * body.layout.now.keys_top ≤ length body.bytes.now }
        requires sound { IsSound body.layout.now body.bytes.now self.old.known }
        ensures { IsSound body.entry.layout.now body.entry.bytes.now self.new.known }
    {
        if !self.is_prepared {
            self.known.rank(self.alloc, body)?;
            self.is_prepared = true;
        }
        Ok(())
    }
}
