//! Reads a line's members that count for extended requests.
ghost use Rattle.std.specs.Prelude.{◌≢◌, codes};
ghost use Rattle.serde_json.specs.Data.{Data, Members, no_members, put};
ghost use Rattle.rb_requests.specs.inner.ChangesRead.{AreChanges};
ghost use Rattle.rb_requests.specs.inner.ExtendedRead.{HoldsAll};
ghost use Rattle.rb_requests.specs.inner.Texts.{IsMember};

use crate::change_list::{Changes, read_changes};
use crate::member::{Member, read_value};
use crate::member_store::{MemberStore, MembersFault};
use crate::texts::{Texts, after};
use json::Reader;
use std::alloc::Global;

/// An object's members at the names that count. Of two members with one name the last counts.
#[derive(Drop)]
pub(crate) struct ExtendedTexts<'a> {
    pub texts: Texts<'a>,
    /// The member `as`.
    pub form: Option<Member<'a>>,
    pub sizes: Option<Member<'a>>,
    pub changes: Option<Changes<'a>>,
}

impl<'a> ExtendedTexts<'a> {
    /// Returns the texts of an object without members.
    pub(crate) fn none() -> Self
        ensures { HoldsAll result no_members }
    {
        ExtendedTexts {
            texts: Texts::none(),
            form: None,
            sizes: None,
            changes: None,
        }
    }

    /// Stores a member, unless its name doesn't count. The member `changes` is stored apart.
    fn store(&mut self, key: &str, member: Member<'a>)
        requires { key.now ≢ codes "changes" }
        ensures { (found : Members) (d : Data) → IsMember member.entry d
            → HoldsAll self.old found → HoldsAll self.new (put key.now d found) }
    {
        self.texts.put(key, member);
        self.form = after(key, "as", member, self.form);
        self.sizes = after(key, "sizes", member, self.sizes);
    }

    fn store_changes(&mut self, changes: Changes<'a>)
        ensures { (found : Members) (d : Data) → AreChanges changes.entry d
            → HoldsAll self.old found → HoldsAll self.new (put (codes "changes") d found) }
    {
        self.changes = Some(changes);
    }
}

impl<'a> MemberStore<'a> for ExtendedTexts<'a> {
    ghost holds = { HoldsAll };

    fn read_member(
        &mut self,
        alloc: Global,
        reader: &mut Reader<'a>,
        key: &str,
        depth: usize,
    ) -> Result<(), MembersFault> {
        if key == "changes" {
            return match read_changes(alloc, reader, depth) {
                Ok(changes) => {
                    self.store_changes(changes);
                    Ok(())
                }
                Err(fault) => Err(fault),
            };
        }
        let Ok(member) = read_value(reader, depth) else {
            return Err(MembersFault::Invalid);
        };
        self.store(key, member);
        Ok(())
    }
}
