ghost use Rattle.std.specs.Prelude.{◌≡◌, ◌+◌, ◌-◌, ◌^◌, OnOk, IfOk, IsTrue, [], length, max, min};
ghost use Rattle.rb_tree.specs.Resource.{weight};
ghost use Rattle.rb_tree.specs.View.{view_of};
ghost use Rattle.rb_writer.specs.Containers.{containers};
ghost use Rattle.rb_writer.specs.Longest.{longest};
ghost use Rattle.rb_writer.specs.inner.Collected.{Has, Gains, Gathers, GathersKeys};

use rb_tree::Tree;
use std::alloc::{AllocError, Global};

/// The number of slots in the cache of keys.
const SLOTS: u32 = 1024;

/// The keys of a tree, gathered in the order in which entries are written: a table's own keys after
/// its values.
///
/// Each key's index is cached in a slot that is chosen by a hash. A key whose slot was taken by
/// another key is added again; sorting finds such duplicates. The cache only saves time, since a
/// cached key is always compared.
#[derive(Drop)]
pub struct Gathered<'a> {
    /// The keys in the order in which they were first found, perhaps with duplicates.
    pub keys: Vec<&'a [u8]>,
    /// For each entry, in the order of writing, the index of its key in `keys`.
    pub order: Vec<u32>,
    /// The number of entries in the longest table, or 0.
    pub longest: usize,
    /// The number of units in the longest alias, or 0.
    pub longest_alias: usize,
    /// The number of arrays and tables that have items, saturating.
    pub containers: u64,
    /// The weight of the visited nodes, saturating. It is computed in the walk that gathers the
    /// keys because a large tree doesn't fit in a processor's cache.
    pub weight: u64,
    slots: Vec<u32>,
}

fn slot_of(key: &[u8]) -> usize {
    let mut hash = 0_u32;
    for byte in key {
        hash = hash.wrapping_mul(31).wrapping_add(*byte as u32);
    }
    (hash % SLOTS) as usize
}

impl<'a> Gathered<'a> {
    pub fn new(alloc: Global) -> Result<Gathered<'a>, AllocError>
        ensures keys { IfOk result (λ g. g.keys.items ≡ []) }
        ensures longest { IfOk result (λ g. g.longest ≡ 0) }
        ensures containers { IfOk result (λ g. g.containers ≡ 0) }
        ensures weight { IfOk result (λ g. g.weight ≡ 0) }
    {
        Ok(Gathered {
            keys: Vec::new(alloc),
            order: Vec::new(alloc),
            longest: 0,
            longest_alias: 0,
            containers: 0,
            weight: 0,
            slots: vec![in alloc; 0_u32; SLOTS as usize]?,
        })
    }

    #[tactic(auto, using(crate::proofs::Gathered::has_at))]
    fn is_at(&self, id: u32, key: &[u8]) -> bool
        ensures { IsTrue result → Has self.now.keys.items key.now }
    {
        let i = id as usize;
        i < self.keys.len() && self.keys[i] == key
    }

    #[tactic(auto, using(crate::proofs::Gathered::gains_new))]
    fn insert(&mut self, key: &'a [u8]) -> Result<u32, AllocError>
        ensures keys { OnOk result (Gains key.now self.old.keys.items self.new.keys.items) }
        ensures longest { self.new.longest ≡ self.old.longest }
        ensures containers { self.new.containers ≡ self.old.containers }
        ensures weight { self.new.weight ≡ self.old.weight }
    {
        let id = u32::try_from(self.keys.len()).unwrap_or(u32::MAX);
        self.keys.push(key)?;
        Ok(id)
    }

    /// Returns the index of a key, adding it if it isn't in its slot.
    #[tactic(auto, using(crate::proofs::Gathered::gains_none))]
    fn place_of(&mut self, key: &'a [u8]) -> Result<u32, AllocError>
        ensures keys { OnOk result (Gains key.now self.old.keys.items self.new.keys.items) }
        ensures longest { self.new.longest ≡ self.old.longest }
        ensures containers { self.new.containers ≡ self.old.containers }
        ensures weight { self.new.weight ≡ self.old.weight }
    {
        let slot = slot_of(key);
        if slot >= self.slots.len() {
            return self.insert(key);
        }
        let known = self.slots[slot];
        if self.is_at(known, key) {
            return Ok(known);
        }
        let id = self.insert(key)?;
        if slot < self.slots.len() {
            self.slots[slot] = id;
        }
        Ok(id)
    }

    #[inline(always)]
    fn weigh(&mut self, more: u64)
        ensures keys { self.new.keys.items ≡ self.old.keys.items }
        ensures longest { self.new.longest ≡ self.old.longest }
        ensures containers { self.new.containers ≡ self.old.containers }
        ensures weight { self.new.weight ≡ min (self.old.weight + more) (2 ^ 64 - 1) }
    {
        self.weight = self.weight.saturating_add(more);
    }

    /// Counts an array or a table of this many items.
    fn count(&mut self, len: usize)
        ensures keys { self.new.keys.items ≡ self.old.keys.items }
        ensures longest { self.new.longest ≡ self.old.longest }
        ensures containers { self.new.containers
            ≡ min (self.old.containers + min 1 len) (2 ^ 64 - 1) }
        ensures weight { self.new.weight ≡ self.old.weight }
    {
        self.containers = self.containers.saturating_add(len.min(1) as u64);
    }

    /// Adds the weight of an entry without its value.
    fn weigh_key(&mut self, key: &[u8])
        ensures keys { self.new.keys.items ≡ self.old.keys.items }
        ensures longest { self.new.longest ≡ self.old.longest }
        ensures containers { self.new.containers ≡ self.old.containers }
        ensures weight { self.new.weight ≡ min (self.old.weight + (9 + length key.now)) (2 ^ 64 - 1) }
    {
        self.weigh((key.len() as u64).saturating_add(9));
    }

    fn add(&mut self, key: &'a [u8]) -> Result<(), AllocError>
        ensures keys { OnOk result (Gains key.now self.old.keys.items self.new.keys.items) }
        ensures longest { self.new.longest ≡ self.old.longest }
        ensures containers { self.new.containers ≡ self.old.containers }
        ensures weight { self.new.weight ≡ self.old.weight }
    {
        let id = self.place_of(key)?;
        self.order.push(id)?;
        Ok(())
    }
}

/// Gathers the keys of a tree, the length of its longest table, and its weight.
#[tactic(auto, using(crate::proofs::Gathered::gathered))]
pub fn gather(alloc: Global, tree: &Tree) -> Result<Gathered<'_>, AllocError>
    ensures keys { IfOk result (λ g. GathersKeys (view_of tree.now) g.keys.items) }
    ensures longest { IfOk result (λ g. g.longest ≡ longest (view_of tree.now)) }
    ensures containers { IfOk result
        (λ g. g.containers ≡ min (containers (view_of tree.now)) (2 ^ 64 - 1)) }
    ensures weight { IfOk result (λ g. g.weight ≡ min (weight (view_of tree.now)) (2 ^ 64 - 1)) }
{
    let mut gathered = Gathered::new(alloc)?;
    collect_keys(tree, &mut gathered)?;
    Ok(gathered)
}

#[tactic(auto, using(rb_tree::specs::inner::Lower::item_low, rb_tree::specs::inner::Lower::value_low))]
fn collect_keys<'a>(tree: &'a Tree, gathered: &mut Gathered<'a>) -> Result<(), AllocError>
    ensures keys { OnOk result
        (Gathers (view_of tree.now) gathered.old.keys.items gathered.new.keys.items) }
    ensures longest { OnOk result
        (gathered.new.longest ≡ max gathered.old.longest (longest (view_of tree.now))) }
    ensures containers { OnOk result (gathered.new.containers
        ≡ min (gathered.old.containers + containers (view_of tree.now)) (2 ^ 64 - 1)) }
    ensures weight { OnOk result (gathered.new.weight
        ≡ min (gathered.old.weight + weight (view_of tree.now)) (2 ^ 64 - 1)) }
{
    match tree {
        Tree::Array(trees) => {
            gathered.count(trees.len());
            gathered.weigh(4);
            for i in 0..trees.len() {
                gathered.weigh(4);
                collect_keys(trees.at(i), gathered)?;
            }
        }
        Tree::Table(entries) => {
            gathered.longest = gathered.longest.max(entries.len());
            gathered.count(entries.len());
            gathered.weigh(8);
            for i in 0..entries.len() {
                gathered.weigh_key(entries.key_at(i));
                collect_keys(entries.at(i), gathered)?;
            }
            for j in 0..entries.len() {
                gathered.add(entries.key_at(j))?;
            }
        }
        Tree::Alias(units) => {
            gathered.longest_alias = gathered.longest_alias.max(units.as_slice().len());
            gathered.weigh(tree.weight());
        }
        _ => gathered.weigh(tree.weight()),
    }
    Ok(())
}
