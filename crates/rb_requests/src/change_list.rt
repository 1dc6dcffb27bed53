//! Reads the changes of a release. Their texts are borrowed from the line, or from a scratch.
ghost use Rattle.std.specs.Prelude.{◌≡◌, ◌<◌, [], ◌∷◌, ◌++◌, List, length, is_some, option_map, Some};
ghost use Rattle.std.specs.Prelude.{None, IfOk, IfErr, OnOk, ℕ};
ghost use Rattle.std.specs.List.{list_all};
ghost use Rattle.std.specs.Char.{is_ascii_hexdigit};
ghost use Rattle.json.specs.Json.{items as items_of, value as value_of};
ghost use Rattle.serde_json.specs.Data.{Data, Items, Members, no_items, no_members, put, item};
ghost use Rattle.serde_json.specs.Read.{converted, of_json, of_items};
ghost use Rattle.hex.specs.Hex.{decode_of};
ghost use Rattle.rb_requests.specs.Asked.{decoded};
ghost use Rattle.rb_requests.specs.ExtendedAsked.{PutsAt, all_changes};
ghost use Rattle.rb_requests.specs.inner.ChangesRead.{AreChanges, AreOf, AreSoFar, HoldsChange};
ghost use Rattle.rb_requests.specs.inner.ChangesRead.{IsChange, change_by, change_seen};
ghost use Rattle.rb_requests.specs.inner.ChangesRead.{flag_by, kept as first, payload_seen};
ghost use Rattle.rb_requests.specs.inner.ChangesRead.{texts_seen};
ghost use Rattle.rb_requests.specs.inner.Line.{payload_by};
ghost use Rattle.rb_requests.specs.inner.Texts.{IsMember};
ghost use Rattle.rb_requests.specs.declared.change_list.LineChange.{LineChange};

use crate::member::{Member, read_after, read_value};
use crate::member_store::{MemberStore, MembersFault, read_members};
use crate::texts::after;
use json::{Reader, Token};
use rb_engine::BUNDLE_LIMIT;
use std::alloc::{AllocError, Global};

/// The payload of one change of a release.
#[derive(Clone, Copy, PartialEq, Eq)]
pub(crate) enum ChangePayload<'a> {
    Text(&'a str),
    /// The hexadecimal digits of a file, in pairs.
    File(&'a str),
    Removal,
}

/// A change of a release.
#[derive(Clone, Copy, PartialEq, Eq)]
pub(crate) struct LineChange<'a> {
    pub locale: &'a str,
    pub payload: ChangePayload<'a>,
}

/// The changes of a release, or any other value.
#[derive(Drop)]
pub(crate) enum Changes<'a> {
    /// The first changes, one more than a release may have.
    All(Vec<LineChange<'a>>),
    Other,
}

/// The most changes that are stored: with one more than a draft takes, it is refused as full.
const KEPT: usize = BUNDLE_LIMIT + 1;

/// A change's members at the names that count.
#[derive(Clone, Copy)]
struct ChangeTexts<'a> {
    locale: Option<Member<'a>>,
    text: Option<Member<'a>>,
    file: Option<Member<'a>>,
    remove: Option<Member<'a>>,
}

fn are_digits(text: &[u8]) -> bool
    ensures { result ≡ list_all is_ascii_hexdigit text.now }
{
    text.iter().all(|digit| digit.is_ascii_hexdigit())
}

fn are_pairs(digits: &str) -> bool
    ensures { result ≡ is_some (decoded (decode_of digits.now)) }
{
    digits.len() % 2 == 0 && are_digits(digits.as_bytes())
}

/// Returns a member that is true or false, and false if it is missing.
pub(crate) fn flag_of(member: Option<Member<'_>>) -> Option<bool>
    ensures { result ≡ flag_by member.entry }
{
    match member {
        None => Some(false),
        Some(Member::Flag(flag)) => Some(flag),
        _ => None,
    }
}

/// Returns the payload of a change that isn't a removal.
fn incoming<'a>(text: Option<Member<'a>>, file: Option<Member<'a>>) -> Option<ChangePayload<'a>>
    ensures { (locale : List ℕ) → option_map (payload_seen locale) result
        ≡ option_map (λ p. Some (PutsAt locale p)) (payload_by text.entry file.entry) }
{
    match (text, file) {
        (Some(Member::Text(text)), None) => Some(ChangePayload::Text(text)),
        (None, Some(Member::Text(digits))) => file_of(digits),
        _ => None,
    }
}

impl<'a> ChangeTexts<'a> {
    fn none() -> Self
        ensures { HoldsChange result no_members }
    {
        ChangeTexts {
            locale: None,
            text: None,
            file: None,
            remove: None,
        }
    }

    fn with(self, key: &str, member: Member<'a>) -> Self
        ensures { (found : Members) (d : Data) → IsMember member.entry d
            → HoldsChange self.entry found → HoldsChange result (put key.now d found) }
    {
        ChangeTexts {
            locale: after(key, "locale", member, self.locale),
            text: after(key, "text", member, self.text),
            file: after(key, "file", member, self.file),
            remove: after(key, "remove", member, self.remove),
        }
    }

    fn payload(&self, is_removal: bool) -> Option<ChangePayload<'a>>
        ensures { (locale : List ℕ) → option_map (payload_seen locale) result
            ≡ option_map Some (change_by locale self.now.text self.now.file is_removal) }
    {
        if !is_removal {
            return incoming(self.text, self.file);
        }
        match (self.text, self.file) {
            (None, None) => Some(ChangePayload::Removal),
            _ => None,
        }
    }

    /// Returns the change, or `None` if the members are none.
    fn change(&self) -> Option<LineChange<'a>>
        ensures { option_map change_seen result ≡ option_map Some (texts_seen self.now) }
    {
        let Some(Member::Text(locale)) = self.locale else {
            return None;
        };
        let is_removal = flag_of(self.remove)?;
        let payload = self.payload(is_removal)?;
        Some(LineChange { locale, payload })
    }
}

fn file_of(digits: &str) -> Option<ChangePayload<'_>>
    ensures { (locale : List ℕ) → option_map (payload_seen locale) result
        ≡ option_map (λ p. Some (PutsAt locale p)) (decoded (decode_of digits.now)) }
{
    if are_pairs(digits) {
        Some(ChangePayload::File(digits))
    } else {
        None
    }
}

impl<'a> MemberStore<'a> for ChangeTexts<'a> {
    ghost holds = { HoldsChange };

    fn read_member(
        &mut self,
        _alloc: Global,
        reader: &mut Reader<'a>,
        key: &str,
        depth: usize,
    ) -> Result<(), MembersFault> {
        let Ok(member) = read_value(reader, depth) else {
            return Err(MembersFault::Invalid);
        };
        *self = self.with(key, member);
        Ok(())
    }
}

/// Reads an item of the changes, or returns `None` if it is no change.
fn read_change<'a>(
    alloc: Global,
    reader: &mut Reader<'a>,
    depth: usize,
) -> Result<Option<LineChange<'a>>, MembersFault>
    ensures ok { IfOk result (λ change. (d : Data) × IsChange change d
        × (converted of_json (value_of depth reader.old) ≡ Some (d, reader.new))) }
    ensures err { IfErr result (λ e. e ≡ MembersFault.Invalid
        → converted of_json (value_of depth reader.old) ≡ None) }
    ensures shorter { OnOk result (length reader.new < length reader.old) }
{
    let Some(token) = reader.next() else {
        return Err(MembersFault::Invalid);
    };
    match token {
        Token::BeginObject => {
            if depth == 0 {
                return Err(MembersFault::Invalid);
            }
            let mut texts = ChangeTexts::none();
            match read_members(alloc, reader, depth - 1, &mut texts) {
                Ok(()) => Ok(texts.change()),
                Err(fault) => Err(fault),
            }
        }
        other => match read_after(reader, other, depth) {
            Ok(_) => Ok(None),
            Err(_) => Err(MembersFault::Invalid),
        },
    }
}

/// The changes that were read so far, and whether all items are changes.
#[derive(Drop)]
struct ChangesSoFar<'a> {
    changes: Vec<LineChange<'a>>,
    are_changes: bool,
}

impl<'a> ChangesSoFar<'a> {
    fn none(alloc: Global) -> Self
        ensures { AreSoFar result (λ ds. ds) }
    {
        ChangesSoFar {
            changes: Vec::new(alloc),
            are_changes: true,
        }
    }

    /// Stores a change, unless there are enough.
    fn keep(&mut self, change: LineChange<'a>) -> Result<(), AllocError>
        ensures kept { (all : List LineChange) → self.old.changes.items ≡ first all
            → OnOk result (self.new.changes.items ≡ first (all ++ change.entry ∷ [])) }
        ensures same { self.new.are_changes ≡ self.old.are_changes }
    {
        if self.changes.len() < KEPT {
            self.changes.push(change)?;
        }
        Ok(())
    }

    /// Adds an item, which may be no change.
    fn add(&mut self, change: Option<LineChange<'a>>) -> Result<(), AllocError>
        ensures { (before : Items → Items) (d : Data) → IsChange change.entry d
            → AreSoFar self.old before
            → OnOk result (AreSoFar self.new (λ ds. before (item d ds))) }
    {
        match change {
            Some(change) => self.keep(change),
            None => {
                self.are_changes = false;
                Ok(())
            }
        }
    }

    fn into_changes(self) -> Changes<'a>
        ensures { (before : Items → Items) → AreSoFar self.entry before
            → AreOf result (all_changes (before no_items)) }
    {
        if self.are_changes {
            Changes::All(self.changes)
        } else {
            Changes::Other
        }
    }
}

/// Reads the items after the opening bracket of changes.
fn read_items<'a>(
    alloc: Global,
    reader: &mut Reader<'a>,
    depth: usize,
) -> Result<Changes<'a>, MembersFault>
    ensures ok { IfOk result (λ changes. (ds : Items) × AreOf changes (all_changes ds)
        × (converted of_items (items_of (value_of depth) (length reader.old) reader.old)
        ≡ Some (ds, reader.new))) }
    ensures err { IfErr result (λ e. e ≡ MembersFault.Invalid → converted of_items
        (items_of (value_of depth) (length reader.old) reader.old) ≡ None) }
    ensures shorter { OnOk result (length reader.new < length reader.old) }
{
    let mut so_far = ChangesSoFar::none(alloc);
    'items: while !reader.take_end_array() {
        let change = match read_change(alloc, reader, depth) {
            Ok(change) => change,
            Err(fault) => return Err(fault),
        };
        let Ok(()) = so_far.add(change) else {
            return Err(MembersFault::Memory);
        };
    }
    Ok(so_far.into_changes())
}

/// Reads the value at `changes`, whose arrays and objects nest at most `depth` deep.
pub(crate) fn read_changes<'a>(
    alloc: Global,
    reader: &mut Reader<'a>,
    depth: usize,
) -> Result<Changes<'a>, MembersFault>
    ensures ok { IfOk result (λ changes. (d : Data) × AreChanges changes d
        × (converted of_json (value_of depth reader.old) ≡ Some (d, reader.new))) }
    ensures err { IfErr result (λ e. e ≡ MembersFault.Invalid
        → converted of_json (value_of depth reader.old) ≡ None) }
    ensures shorter { OnOk result (length reader.new < length reader.old) }
{
    let Some(token) = reader.next() else {
        return Err(MembersFault::Invalid);
    };
    match token {
        Token::BeginArray => {
            if depth == 0 {
                return Err(MembersFault::Invalid);
            }
            read_items(alloc, reader, depth - 1)
        }
        other => match read_after(reader, other, depth) {
            Ok(_) => Ok(Changes::Other),
            Err(_) => Err(MembersFault::Invalid),
        },
    }
}
