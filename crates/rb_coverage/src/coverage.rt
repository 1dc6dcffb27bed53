use crate::chain::{Chain, chains_of, index_of};
use crate::compare::Items;
use crate::data::ProjectData;
use crate::fault::CoverageFault;
use crate::finding::Found;
use crate::walk::KeyWalk;
use rb_locales::Name;
use rb_tree::Tree;
use std::alloc::{AllocError, Global};

/// Compares the bundles of a module key by key.
#[derive(Drop)]
pub struct Coverage<'a> {
    alloc: Global,
    chains: Vec<Chain>,
    /// The index of the root's bundle.
    root: usize,
    walk: KeyWalk<'a>,
    /// The number of the root's keys with text to translate, up to here.
    keys: u64,
}

impl<'a> Coverage<'a> {
    /// Begins to compare bundles, each with its locale and its flag *no fallback*. Of bundles with
    /// one locale the first counts. An alias of a locale to ICUDATA counts as what it leads to.
    pub fn new(
        alloc: Global,
        module: &'a [(Name, Tree, bool)],
        data: &'a ProjectData,
    ) -> Result<Coverage<'a>, CoverageFault> {
        let Some(root) = index_of(module, &Name::root()) else {
            return Err(CoverageFault::NoRoot);
        };
        let chains = chains_of(alloc, module, data.parents())?;
        let Ok(walk) = KeyWalk::new(alloc, module, data) else {
            return Err(CoverageFault::Memory);
        };
        Ok(Coverage {
            alloc,
            chains,
            root,
            walk,
            keys: 0,
        })
    }

    /// Returns the indexes of the bundles whose locales are compared: all but the root's, and those
    /// that only name another one.
    pub fn locales(&self) -> Result<Vec<usize>, AllocError> {
        let mut locales = Vec::with_capacity(self.alloc, self.chains.len())?;
        for chain in &self.chains {
            locales.push(chain.locale)?;
        }
        Ok(locales)
    }

    /// Returns the number of the root's keys with text to translate among those that were compared.
    pub fn keys(&self) -> u64 {
        self.keys
    }

    /// Returns the path of the key that was compared last.
    pub fn path(&self) -> Result<Vec<u8>, AllocError> {
        self.walk.path()
    }

    /// Compares what the locales have at the next key, and returns what is found, by findings and
    /// then by locales, or None at the end. The keys are those of all bundles, each before those
    /// below it.
    pub fn next_key(&mut self) -> Result<Option<Vec<Found>>, AllocError> {
        let members = self.walk.next_key()?;
        if members.is_empty() {
            return Ok(None);
        }
        let items = Items::new(self.alloc, members, self.root)?;
        self.keys = self.keys.saturating_add(u64::from(items.has_text()));
        let mut found = Vec::new(self.alloc);
        for chain in &self.chains {
            items.compare(chain, &mut found)?;
        }
        found.sort_by_key(|found| (found.finding, found.locale))?;
        Ok(Some(found))
    }
}
