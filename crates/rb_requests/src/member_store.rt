//! Reads the members of an object, of which a store keeps those that count.
ghost use Rattle.std.specs.Prelude.{◌≡◌, ◌<◌, length, IfErr, IfOk, IsTrue, OnOk, Some, None};
ghost use Rattle.json.specs.Json.{members as members_of, value as value_of};
ghost use Rattle.serde_json.specs.Data.{Data, Members, no_members, object, put};
ghost use Rattle.serde_json.specs.Read.{converted, of_json, of_members};
ghost use Rattle.rb_requests.specs.Asked.{data_of};

use crate::texts::opens_object;
use bstr::ByteSlice;
use json::{Reader, Scratch};
use std::alloc::{AllocError, Global};

/// The reason why members aren't read.
#[derive(Clone, Copy, Debug, PartialEq, Eq)]
pub(crate) enum MembersFault {
    Invalid,
    Memory,
}

/// A store of an object's members at the names that count. Of two members with one name the last
/// counts.
pub(crate) trait MemberStore<'a> {
    /// The store is that of these members.
    ghost holds: { Self → Members → Type 0 };

    /// Reads the member at a key, whose arrays and objects nest at most `depth` deep, and stores it
    /// if the key counts.
    fn read_member(
        &mut self,
        alloc: Global,
        reader: &mut Reader<'a>,
        key: &str,
        depth: usize,
    ) -> Result<(), MembersFault>
        ensures ok { OnOk result ((d : Data)
            × (converted of_json (value_of depth reader.old) ≡ Some (d, reader.new))
            × ((found : Members) → holds self.old found → holds self.new (put key.now d found))) }
        ensures err { IfErr result (λ e. e ≡ MembersFault.Invalid
            → converted of_json (value_of depth reader.old) ≡ None) }
        ensures shorter { OnOk result (length reader.new < length reader.old) };
}

/// Reads the members after an opening brace.
pub(crate) fn read_members<'a, S: MemberStore<'a>>(
    alloc: Global,
    reader: &mut Reader<'a>,
    depth: usize,
    store: &mut S,
) -> Result<(), MembersFault>
    requires { S.holds store.old no_members }
    ensures ok { OnOk result ((found : Members) × S.holds store.new found
        × (converted (λ ms. of_members ms no_members)
        (members_of (value_of depth) (length reader.old) reader.old) ≡ Some (found, reader.new))) }
    ensures err { IfErr result (λ e. e ≡ MembersFault.Invalid
        → converted (λ ms. of_members ms no_members)
        (members_of (value_of depth) (length reader.old) reader.old) ≡ None) }
    ensures shorter { OnOk result (length reader.new < length reader.old) }
{
    'members: loop {
        match reader.next_key() {
            Ok(Some(key)) => match store.read_member(alloc, reader, key, depth) {
                Ok(()) => {}
                Err(fault) => return Err(fault),
            },
            Ok(None) => return Ok(()),
            Err(_) => return Err(MembersFault::Invalid),
        }
    }
}

/// Checks whether a line is a JSON object, as `serde_json` reads it. If it is, `store` has its
/// members at the names that count; otherwise the contents of `store` mean nothing. Texts without
/// escapes are borrowed from the line, the others from the scratch, which grows to the line's
/// length. Returns an error if there is no memory for the scratch or for what is stored.
pub(crate) fn read_object<'a, S: MemberStore<'a>>(
    alloc: Global,
    line: &'a [u8],
    scratch: &'a mut Scratch,
    store: &mut S,
) -> Result<bool, AllocError>
    requires { S.holds store.old no_members }
    ensures read { IfOk result (λ all. IsTrue all
        → (found : Members) × S.holds store.new found × (data_of line.now ≡ Some (object found))) }
    ensures all { IfOk result
        (λ all. (found : Members) → data_of line.now ≡ Some (object found) → IsTrue all) }
{
    let Ok(text) = line.to_str() else {
        return Ok(false);
    };
    let mut reader = Reader::new(text, scratch)?;
    if !opens_object(&mut reader) {
        return Ok(false);
    }
    match read_members(alloc, &mut reader, 126, store) {
        Ok(()) => Ok(reader.next().is_none()),
        Err(MembersFault::Invalid) => Ok(false),
        Err(MembersFault::Memory) => Err(AllocError),
    }
}
