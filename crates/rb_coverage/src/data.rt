//! Follows aliases of a project to ICUDATA.
use rb_compare::{Member, Walk};
use rb_fallback::{Target, read_alias};
use rb_locales::Name;
use rb_parents::{ListShelf, Next, Parents, TRAIL_LIMIT, visit};
use rb_tree::{Ending, Kind, Node, Tree, path_ok, walk};
use std::alloc::{AllocError, Global};

/// The most aliases in ICUDATA that are followed one after another.
const HOP_LIMIT: usize = 8;

/// The explicit parents, and the bundles of ICUDATA with their flags *no fallback*.
#[derive(Drop)]
pub struct ProjectData {
    parents: Parents,
    /// By ascending names.
    bundles: Vec<(Name, Tree, bool)>,
}

/// The end of an alias.
#[derive(Clone, Copy)]
pub(crate) enum Link<'a> {
    /// It doesn't lead to ICUDATA, or not to one known item.
    Unknown,
    /// ICUDATA has no such item.
    Nowhere,
    There(&'a Tree),
}

/// Returns the bytes of an alias's path, which begins at a unit.
fn path_of(alloc: Global, units: &[u16], at: usize) -> Result<Vec<u8>, AllocError> {
    let mut path = Vec::new(alloc);
    for unit in units.get(at..).unwrap_or(&[]) {
        path.push(u8::try_from(*unit).unwrap_or(b'?'))?;
    }
    Ok(path)
}

/// Walks a path in a bundle, if it is there.
fn end_in<'a>(bundle: Option<&'a Tree>, path: &[u8]) -> Ending<&'a Tree> {
    match bundle {
        Some(root) if path_ok(path) => walk(root, path),
        _ => Ending::Gone,
    }
}

impl ProjectData {
    /// Makes the data of explicit parents and bundles by ascending names. Of bundles with one name
    /// one counts.
    pub fn new(parents: Parents, bundles: Vec<(Name, Tree, bool)>) -> ProjectData {
        ProjectData { parents, bundles }
    }

    pub fn parents(&self) -> &Parents {
        &self.parents
    }

    /// Checks whether ICUDATA has bundles.
    pub fn has_bundles(&self) -> bool {
        !self.bundles.is_empty()
    }

    /// Returns the bundle with a name, or none, as a list.
    fn bundle(&self, name: &Name) -> &[(Name, Tree, bool)] {
        match self.bundles.binary_search_by(|bundle| bundle.0.cmp(name)) {
            Ok(i) => self.bundles.get(i..=i).unwrap_or(&[]),
            Err(_) => &[],
        }
    }

    /// Walks a path in the bundles of a locale's trail, up to the first that has it.
    fn search(&self, name: &Name, path: &[u8]) -> Ending<&Tree> {
        let mut here = *name;
        for _ in 0..TRAIL_LIMIT {
            let entries = self.bundle(&here);
            let (next, stop) = visit(ListShelf { entries }, &self.parents, &here);
            match end_in(stop, path) {
                Ending::Gone => {}
                end => return end,
            }
            match next {
                Next::Name(name) => here = name,
                Next::End | Next::Bad => break,
            }
        }
        Ending::Gone
    }

    /// Returns what the path of an alias leads to.
    fn linked(&self, alloc: Global, alias: &Tree, target: Target) -> Result<Link<'_>, AllocError> {
        let (Tree::Alias(units), Some(at)) = (alias, target.path_at) else {
            return Ok(Link::Unknown);
        };
        let path = path_of(alloc, units.as_slice(), at)?;
        Ok(match self.search(&target.name, &path) {
            Ending::End(tree) => Link::There(tree),
            Ending::Link(tree, past) if past >= path.len() => Link::There(tree),
            Ending::Link(_, _) => Link::Unknown,
            Ending::Gone => Link::Nowhere,
        })
    }

    /// Takes one step by an alias of the project or, with `is_inside`, of ICUDATA.
    fn step(
        &self,
        alloc: Global,
        alias: &Tree,
        valid: &Name,
        is_inside: bool,
    ) -> Result<Link<'_>, AllocError> {
        if alias.kind() != Kind::Alias {
            return Ok(Link::Unknown);
        }
        match read_alias(alias, valid) {
            Ok(target) if target.icudata || is_inside => self.linked(alloc, alias, target),
            _ => Ok(Link::Unknown),
        }
    }

    /// Follows an alias of the project or, with `is_inside`, of ICUDATA. `valid` is the locale of
    /// its bundle.
    pub(crate) fn follow(
        &self,
        alloc: Global,
        alias: &Tree,
        valid: &Name,
        is_inside: bool,
    ) -> Result<Link<'_>, AllocError> {
        let mut link = self.step(alloc, alias, valid, is_inside)?;
        for _ in 0..HOP_LIMIT {
            match link {
                Link::There(tree) if tree.kind() == Kind::Alias => {
                    link = self.step(alloc, tree, valid, true)?;
                }
                end => return Ok(end),
            }
        }
        Ok(Link::Unknown)
    }

    /// Adds the text of an alias that leads to nothing in ICUDATA.
    fn add_dead(
        &self,
        alloc: Global,
        dead: &mut Vec<Vec<u16>>,
        tree: &Tree,
        name: &Name,
    ) -> Result<(), AllocError> {
        let Tree::Alias(units) = tree else {
            return Ok(());
        };
        if let Link::Nowhere = self.follow(alloc, tree, name, false)? {
            dead.push(units.as_slice().to_vec(alloc)?)?;
        }
        Ok(())
    }

    /// Returns the texts of a bundle's aliases that lead to nothing in ICUDATA, ascending.
    pub fn dead_aliases(
        &self,
        alloc: Global,
        bundle: &Tree,
        name: &Name,
    ) -> Result<Vec<Vec<u16>>, AllocError> {
        let mut dead = Vec::new(alloc);
        let mut walk = Walk::new(alloc);
        walk.add(&[Member::of(0, bundle)])?;
        for _ in 0..u64::MAX {
            if !walk.advance()? {
                break;
            }
            if let Some(tree) = walk.node(0) {
                self.add_dead(alloc, &mut dead, tree, name)?;
                walk.enter(&[Member::of(0, tree)])?;
            }
        }
        dead.sort_by(|a: &Vec<u16>, b: &Vec<u16>| a.as_slice().cmp(b.as_slice()))?;
        Ok(dead)
    }
}
