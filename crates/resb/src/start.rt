//! The start of an engine with ICUDATA and explicit parents.
ghost use Rattle.std.specs.Prelude.{◌≡◌, ◌≢◌, IfOk, IfErr};
ghost use Rattle.rb_parents.specs.Family.{parent_of};
ghost use Rattle.resb.specs.Start.{AreEntries, HasParents, IsStarted, IsStartError, IsParentsError};
ghost use Rattle.resb.specs.Start.{IsEntryError, error_at};

use crate::changes::payload_of;
use crate::entry::Entry;
use crate::numbers::{MEMORY, text_number};
use crate::open::{seeded, shareable};
use rb_engine::{Engine, Payload, StartFault};
use rb_lexer::SourceFault;
use rb_locales::Name;
use rb_parents::{Parents, ParentsFault};
use rb_parser::parse;
use std::alloc::Global;
use std::sync::Arc;

/// The reason why an engine doesn't start.
#[derive(Clone, Copy)]
pub(crate) enum StartError {
    /// The locale of the entry at this index isn't a name.
    Locale(usize),
    Entries(StartFault),
    /// The text of the explicit parents is invalid.
    Text(SourceFault),
    Parents(ParentsFault),
    Memory,
}

/// Reads the names of ICUDATA's bundles, and copies their payloads.
fn entries_of(alloc: Global, given: &[Entry<'_>]) -> Result<Vec<(Name, Payload)>, StartError>
    ensures entries { IfOk result (λ v. AreEntries given.now v.items) }
    ensures refused { IfErr result (IsEntryError given.now) }
{
    let mut entries = Vec::new(alloc);
    for i in 0..given.len() {
        let entry = &given[i];
        let Ok(name) = Name::read(entry.locale) else {
            return Err(StartError::Locale(i));
        };
        let Ok(payload) = payload_of(alloc, entry.bytes, entry.is_text) else {
            return Err(StartError::Memory);
        };
        if entries.push((name, payload)).is_err() {
            return Err(StartError::Memory);
        }
    }
    Ok(entries)
}

/// Reads explicit parents from a bundle text. An empty text gives none.
fn parents_of(alloc: Global, text: &[u8]) -> Result<Parents, StartError>
    ensures parents { IfOk result (λ p. HasParents text.now (parent_of p)) }
    ensures refused { IfErr result (IsParentsError text.now) }
{
    if text.is_empty() {
        return Ok(Parents::none(alloc));
    }
    let source = match parse(alloc, text) {
        Ok(source) => source,
        Err(fault) => return Err(StartError::Text(fault)),
    };
    match Parents::read(alloc, &source.tree) {
        Ok(parents) => Ok(parents),
        Err(fault) => Err(StartError::Parents(fault)),
    }
}

/// Starts an engine. Reads the entries, then the parents, then the entries' payloads.
pub(crate) fn start(
    alloc: Global,
    seed: &[u8],
    icudata: &[Entry<'_>],
    parents: &[u8],
) -> Result<Box<Arc<Engine>>, StartError>
    ensures started { IfOk result (λ b. IsStarted icudata.now parents.now b.value.value) }
    ensures refused { IfErr result (IsStartError icudata.now parents.now) }
{
    let entries = entries_of(alloc, icudata)?;
    let parents = parents_of(alloc, parents)?;
    let state = seeded(seed).ok_or(StartError::Memory)?;
    let engine = Engine::start(alloc, state, entries, parents).map_err(StartError::Entries)?;
    shareable(alloc, engine).ok_or(StartError::Memory)
}

impl StartError {
    /// Returns the error's number.
    pub(crate) fn number(&self) -> u32
        ensures number { result ≡ (error_at self.now).0 }
        ensures error { result ≢ 0 }
    {
        match self {
            StartError::Locale(_) => 13,
            StartError::Entries(StartFault::BadText(_)) => 14,
            StartError::Entries(StartFault::BadFile(_)) => 15,
            StartError::Entries(StartFault::Twice(_)) => 19,
            StartError::Text(fault) => text_number(fault.kind),
            StartError::Parents(ParentsFault::Shape) => 71,
            StartError::Parents(ParentsFault::BadLocale) => 72,
            StartError::Parents(ParentsFault::TwoParents) => 73,
            StartError::Entries(StartFault::Memory)
            | StartError::Parents(ParentsFault::Memory)
            | StartError::Memory => MEMORY,
        }
    }

    /// Returns the index of the entry with the error, or the line in the text of the parents.
    pub(crate) fn place(&self) -> u64
        ensures { result ≡ (error_at self.now).1 }
    {
        match self {
            StartError::Locale(index)
            | StartError::Entries(StartFault::BadText(index))
            | StartError::Entries(StartFault::BadFile(index))
            | StartError::Entries(StartFault::Twice(index)) => *index as u64,
            StartError::Text(fault) => fault.line,
            _ => 0,
        }
    }
}
