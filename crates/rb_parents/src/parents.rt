ghost use Rattle.std.specs.Prelude.{◌≡◌, ◌⊎◌, List, ℕ, Ok, Err, None, IfOk, IfErr, IfSome, IfNone};
ghost use Rattle.std.specs.Prelude.{OnOk, Some, map, if◌then◌else◌};
ghost use Rattle.rb_tree.specs.Parts.{children_of, kind_of, pairs_of, units_of};
ghost use Rattle.rb_tree.specs.View.{view_of};
ghost use Rattle.rb_tree.specs.declared.kind.Kind.TheVariants as Kinds;
ghost use Rattle.rb_locales.specs.Locale.{name};
ghost use Rattle.rb_parents.specs.inner.Entries.{no_parents, put_child, put_entries, put_entry};
ghost use Rattle.rb_parents.specs.inner.Entries.{put_value, read_tree};
ghost use Rattle.rb_parents.specs.Explicit.{GivesParents, RefusesParents};
ghost use Rattle.rb_parents.specs.ParentMap.{texts_in};
ghost use Rattle.rb_parents.specs.declared.fault.ParentsFault.TheVariants as Faults;

use crate::child::child_of_kind;
use crate::fault::ParentsFault;
use rb_locales::Name;
use rb_tree::{Kind, Node, Tree};
use std::alloc::{AllocError, Global};
use std::collections::BTreeMap;

/// The explicit parents of names, which a trail prefers to shorter names.
#[derive(Drop)]
pub struct Parents {
    by_child: BTreeMap<Name, Name>,
}

impl Clone for Parents {
    ghost use Rattle.rb_parents.specs.Family.{family_pairs};

    ghost is_clone = { λ p q. family_pairs q ≡ family_pairs p };

    fn clone(&self) -> Result<Parents, AllocError> {
        Ok(Parents {
            by_child: self.by_child.clone()?,
        })
    }
}

impl Parents {
    ghost use Rattle.rb_parents.specs.Family.{parent_of};

    pub fn none(alloc: Global) -> Parents
        ensures { (n : List ℕ) → parent_of result n ≡ None }
    {
        Parents {
            by_child: BTreeMap::new(alloc),
        }
    }

    /// Reads the explicit parents at a tree's `parentLocales`: each key is a parent, and each value
    /// a String or an Array of Strings, its children. Returns the first error in the order of keys
    /// and items; of one entry, the key is read first, then the shape of its value, then its
    /// children.
    #[tactic(auto, using(crate::proofs::FirstErrors::table_refuses))]
    pub fn read(alloc: Global, tree: &Tree) -> Result<Parents, ParentsFault>
        ensures parents { IfOk result (λ p. GivesParents (view_of tree.now) (parent_of p)) }
        ensures fault { IfErr result
            (λ e. (e ≡ Faults.Memory) ⊎ RefusesParents (view_of tree.now) e) }
    {
        let table = match locales_table(tree) {
            Some(table) => table,
            None => return Err(ParentsFault::Shape),
        };
        let mut parents = Parents::none(alloc);
        for i in 0..table.len() {
            parents.put_entry(table.key_at(i), table.at(i))?;
        }
        Ok(parents)
    }

    pub fn parent(&self, name: &Name) -> Option<Name>
        ensures { result ≡ parent_of self.now name.now }
    {
        self.by_child.get(name).copied()
    }
}

fn locales_table(tree: &Tree) -> Option<&Tree>
    ensures kind { IfSome result (λ t. kind_of (view_of t.now) ≡ Kinds.Table) }
    ensures entries { IfSome result
        (λ t. read_tree (view_of tree.now) ≡ put_entries (pairs_of (view_of t.now)) no_parents) }
    ensures none { IfNone result (read_tree (view_of tree.now) ≡ Err Faults.Shape) }
{
    child_of_kind(tree, b"parentLocales", Kind::Table)
}

fn are_strings(value: &Tree) -> bool
    requires { kind_of (view_of value.now) ≡ Kinds.Array }
    ensures { texts_in (view_of value.now)
        ≡ (if result then Some (map units_of (children_of (view_of value.now))) else None) }
{
    for i in 0..value.len() {
        if value.at(i).kind() != Kind::String {
            return false;
        }
    }
    true
}

impl Parents {
    ghost use Rattle.rb_parents.specs.Family.{parent_of};

    fn put_child(&mut self, parent: Name, text: &Tree) -> Result<(), ParentsFault>
        requires { kind_of (view_of text.now) ≡ Kinds.String }
        ensures ok { OnOk result (put_child parent (name (units_of (view_of text.now)))
            (parent_of self.old) ≡ Ok (parent_of self.new)) }
        ensures fault { IfErr result (λ e. (e ≡ Faults.Memory) ⊎
            (put_child parent (name (units_of (view_of text.now))) (parent_of self.old) ≡ Err e)) }
    {
        let child = match Name::read_units(text) {
            Ok(child) => child,
            Err(_) => return Err(ParentsFault::BadLocale),
        };
        if self.by_child.contains_key(&child) {
            return Err(ParentsFault::TwoParents);
        }
        match self.by_child.insert(child, parent) {
            Ok(_) => Ok(()),
            Err(_) => Err(ParentsFault::Memory),
        }
    }

    fn put_value(&mut self, parent: Name, value: &Tree) -> Result<(), ParentsFault>
        ensures ok { OnOk result (put_value parent (texts_in (view_of value.now))
            (parent_of self.old) ≡ Ok (parent_of self.new)) }
        ensures fault { IfErr result (λ e. (e ≡ Faults.Memory)
            ⊎ (put_value parent (texts_in (view_of value.now)) (parent_of self.old) ≡ Err e)) }
    {
        if value.kind() == Kind::String {
            return self.put_child(parent, value);
        }
        if value.kind() != Kind::Array || !are_strings(value) {
            return Err(ParentsFault::Shape);
        }
        for i in 0..value.len() {
            self.put_child(parent, value.at(i))?;
        }
        Ok(())
    }

    fn put_entry(&mut self, key: &[u8], value: &Tree) -> Result<(), ParentsFault>
        ensures ok { OnOk result (put_entry (name key.now) (view_of value.now) (parent_of self.old)
            ≡ Ok (parent_of self.new)) }
        ensures fault { IfErr result (λ e. (e ≡ Faults.Memory)
            ⊎ (put_entry (name key.now) (view_of value.now) (parent_of self.old) ≡ Err e)) }
    {
        match Name::read(key) {
            Ok(parent) => self.put_value(parent, value),
            Err(_) => Err(ParentsFault::BadLocale),
        }
    }
}
