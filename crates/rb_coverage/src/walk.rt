//! Walks through the keys of several bundles at once.
use crate::data::{Link, ProjectData};
use rb_compare::{Member, Walk, is_icu_key};
use rb_locales::Name;
use rb_tree::Tree;
use std::alloc::{AllocError, Global};

/// The bundles whose aliases lead to ICUDATA.
#[derive(Clone, Copy)]
struct Links<'a> {
    module: &'a [(Name, Tree, bool)],
    data: &'a ProjectData,
}

impl<'a> Links<'a> {
    /// Returns what an alias of a locale leads to in ICUDATA, or the item itself. The root's aliases
    /// aren't followed: what they lead to depends on the locale that inherits them. Of a table in
    /// ICUDATA, which may have many others, only the keys of other tables count.
    fn item(self, alloc: Global, member: Member<&'a Tree>) -> Result<Member<&'a Tree>, AllocError> {
        let (Tree::Alias(_), Some(bundle)) = (member.node, self.module.get(member.tree)) else {
            return Ok(member);
        };
        if bundle.0 == Name::root() {
            return Ok(member);
        }
        match self
            .data
            .follow(alloc, member.node, &bundle.0, member.is_guest)?
        {
            Link::There(node) => Ok(Member {
                tree: member.tree,
                node,
                is_guest: true,
            }),
            Link::Unknown | Link::Nowhere => Ok(member),
        }
    }
}

/// Walks through the keys of a module's bundles, each before those below it, by ascending bytes.
/// Keys of ICU's own are passed over.
#[derive(Drop)]
pub(crate) struct KeyWalk<'a> {
    alloc: Global,
    links: Links<'a>,
    walk: Walk<&'a Tree>,
}

impl<'a> KeyWalk<'a> {
    pub(crate) fn new(
        alloc: Global,
        module: &'a [(Name, Tree, bool)],
        data: &'a ProjectData,
    ) -> Result<KeyWalk<'a>, AllocError> {
        let mut trees = Vec::with_capacity(alloc, module.len())?;
        for (tree, entry) in module.iter().enumerate() {
            trees.push(Member::of(tree, &entry.1))?;
        }
        let mut walk = Walk::new(alloc);
        walk.enter(&trees)?;
        Ok(KeyWalk {
            alloc,
            links: Links { module, data },
            walk,
        })
    }

    /// Enters the tables among items.
    fn enter(&mut self, items: &[Member<&'a Tree>]) -> Result<(), AllocError> {
        let mut tables = Vec::new(self.alloc);
        for item in items {
            if let Tree::Table(_) = item.node {
                tables.push(*item)?;
            }
        }
        self.walk.enter(&tables)
    }

    /// Moves to the next key, and returns its items in the order of bundles; none at the end. An
    /// alias to ICUDATA counts as what it leads to.
    pub(crate) fn next_key(&mut self) -> Result<Vec<Member<&'a Tree>>, AllocError> {
        let mut items = Vec::new(self.alloc);
        for _ in 0..u64::MAX {
            if !self.walk.advance()? {
                return Ok(items);
            }
            if !is_icu_key(self.walk.key()) {
                break;
            }
        }
        for member in self.walk.members() {
            items.push(self.links.item(self.alloc, *member)?)?;
        }
        self.enter(&items)?;
        Ok(items)
    }

    /// Returns the path of the key that the walk is at, shortened if it is long.
    pub(crate) fn path(&self) -> Result<Vec<u8>, AllocError> {
        self.walk.shown_path()
    }
}
