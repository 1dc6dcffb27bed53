ghost use Rattle.std.specs.Prelude.{◌≡◌, ◌∷◌};
ghost use Rattle.std.specs.Bool.{MatchBool};
ghost use Rattle.json.specs.Token as Tokens;
ghost use Rattle.serde_json.specs.Data.{Data, Members, no_members, put};
ghost use Rattle.serde_json.specs.Find.{get_member};
ghost use Rattle.rb_requests.specs.inner.Texts.{Holds, IsAt, IsMember, BeginsWithNoBrace};

use crate::member::{Member, read_value};
use crate::member_store::{MemberStore, MembersFault};
use json::{Reader, Token};
use std::alloc::Global;

/// An object's members at the names that count for a request. Of two members with one name the last
/// counts.
#[derive(Clone, Copy, PartialEq, Eq)]
pub struct Texts<'a> {
    pub op: Option<Member<'a>>,
    pub app: Option<Member<'a>>,
    pub locale: Option<Member<'a>>,
    pub path: Option<Member<'a>>,
    pub text: Option<Member<'a>>,
    pub file: Option<Member<'a>>,
}

impl<'a> Texts<'a> {
    /// Returns the texts of an object without members.
    pub fn none() -> Self
        ensures { Holds result no_members }
    {
        Texts {
            op: None,
            app: None,
            locale: None,
            path: None,
            text: None,
            file: None,
        }
    }

    /// Stores a member that was read, if its name counts.
    pub(crate) fn put(&mut self, key: &str, member: Member<'a>)
        ensures { (found : Members) (d : Data) → IsMember member.entry d → Holds self.old found
            → Holds self.new (put key.now d found) }
    {
        if key == "op" {
            self.op = Some(member);
        } else if key == "app" {
            self.app = Some(member);
        } else if key == "locale" {
            self.locale = Some(member);
        } else if key == "path" {
            self.path = Some(member);
        } else if key == "text" {
            self.text = Some(member);
        } else if key == "file" {
            self.file = Some(member);
        }
    }
}

impl<'a> MemberStore<'a> for Texts<'a> {
    ghost holds = { Holds };

    fn read_member(
        &mut self,
        _alloc: Global,
        reader: &mut Reader<'a>,
        key: &str,
        depth: usize,
    ) -> Result<(), MembersFault> {
        let Ok(member) = read_value(reader, depth) else {
            return Err(MembersFault::Invalid);
        };
        self.put(key, member);
        Ok(())
    }
}

/// Returns the member at a name after another member was read.
pub(crate) fn after<'a>(
    key: &str,
    name: &str,
    member: Member<'a>,
    held: Option<Member<'a>>,
) -> Option<Member<'a>>
    ensures { (found : Members) (d : Data) → IsMember member.entry d
        → IsAt held.entry (get_member name.now found)
        → IsAt result (get_member name.now (put key.now d found)) }
{
    if key == name { Some(member) } else { held }
}

pub(crate) fn opens_object(reader: &mut Reader<'_>) -> bool
    ensures { MatchBool result (reader.old ≡ Tokens.begin_object ∷ reader.new)
        (BeginsWithNoBrace reader.old) }
{
    matches!(reader.next(), Some(Token::BeginObject))
}
