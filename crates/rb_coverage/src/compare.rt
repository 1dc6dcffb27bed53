//! Compares the items of one key.
use crate::arguments::{are_other, arguments_of};
use crate::chain::Chain;
use crate::finding::{Finding, Found};
use rb_compare::{Member, are_equal, has_text};
use rb_messages::Named;
use rb_tree::{HEIGHT_LIMIT, Kind, Node, Tree};
use std::alloc::{AllocError, Global};

/// The items of a key, in the order of bundles.
#[derive(Drop)]
pub(crate) struct Items<'a> {
    alloc: Global,
    members: Vec<Member<&'a Tree>>,
    /// The arguments of each, if it is a message.
    arguments: Vec<Option<Vec<Named<'a>>>>,
    /// The index of the root's among the members.
    root: Option<usize>,
}

/// Returns the index of a bundle's item.
fn place_of(members: &[Member<&Tree>], bundle: usize) -> Option<usize> {
    match members.binary_search_by(|member| member.tree.cmp(&bundle)) {
        Ok(i) => Some(i),
        Err(_) => None,
    }
}

/// Returns the index of the nearest item that a locale inherits.
fn inherited(members: &[Member<&Tree>], chain: &Chain) -> Option<usize> {
    for parent in &chain.parents {
        if let Some(i) = place_of(members, *parent) {
            return Some(i);
        }
    }
    None
}

impl<'a> Items<'a> {
    pub(crate) fn new(
        alloc: Global,
        members: Vec<Member<&'a Tree>>,
        root: usize,
    ) -> Result<Items<'a>, AllocError> {
        let mut arguments = Vec::with_capacity(alloc, members.len())?;
        for member in &members {
            arguments.push(arguments_of(alloc, member.node)?)?;
        }
        let root = place_of(&members, root);
        Ok(Items {
            alloc,
            members,
            arguments,
            root,
        })
    }

    fn tree(&self, place: Option<usize>) -> Option<&'a Tree> {
        match self.members.get(place?) {
            Some(member) => Some(member.node),
            None => None,
        }
    }

    /// Checks whether the root has text to translate at this key.
    pub(crate) fn has_text(&self) -> bool {
        match self.tree(self.root) {
            Some(tree) => has_text(tree.kind()),
            None => false,
        }
    }

    /// Checks whether two items are messages with other arguments.
    fn have_other_arguments(&self, own: usize, parent: usize) -> bool {
        match (self.arguments.get(own), self.arguments.get(parent)) {
            (Some(Some(own)), Some(Some(parent))) => are_other(own, parent),
            _ => false,
        }
    }

    /// Compares a locale's item with the one that it inherits.
    fn beside(&self, own: usize, parent: usize) -> Result<Option<Finding>, AllocError> {
        let (Some(here), Some(above)) = (self.tree(Some(own)), self.tree(Some(parent))) else {
            return Ok(None);
        };
        match (here.kind(), above.kind()) {
            (Kind::Table, Kind::Table) => Ok(None),
            (a, b) if a == b => {
                if are_equal(here, above, HEIGHT_LIMIT) {
                    return Ok(Some(Finding::Same));
                }
                if self.have_other_arguments(own, parent) {
                    return Ok(Some(Finding::OtherArguments));
                }
                Ok(None)
            }
            (Kind::Alias, _) | (_, Kind::Alias) => Ok(None),
            _ => Ok(Some(Finding::OtherType)),
        }
    }

    /// Checks whether a locale that has nothing at this key inherits the root's text, or lacks it.
    fn is_missing(&self, parent: Option<usize>) -> bool {
        self.has_text() && (parent.is_none() || parent == self.root)
    }

    /// Checks whether an item that isn't a table is in no root.
    fn is_unused(&self, own: usize) -> bool {
        match self.tree(Some(own)) {
            Some(Tree::Table(_)) | None => false,
            Some(_) => self.root.is_none(),
        }
    }

    /// Adds what a locale has or lacks at this key.
    pub(crate) fn compare(&self, chain: &Chain, found: &mut Vec<Found>) -> Result<(), AllocError> {
        let locale = chain.locale;
        let parent = inherited(&self.members, chain);
        let Some(own) = place_of(&self.members, locale) else {
            if self.is_missing(parent) {
                found.push(Found {
                    finding: Finding::Missing,
                    locale,
                })?;
            }
            return Ok(());
        };
        if self.is_unused(own) {
            found.push(Found {
                finding: Finding::Unused,
                locale,
            })?;
        }
        let Some(parent) = parent else {
            return Ok(());
        };
        if let Some(finding) = self.beside(own, parent)? {
            found.push(Found { finding, locale })?;
        }
        Ok(())
    }
}
