ghost use Rattle.std.specs.Prelude.{◌≡◌, ◌⊎◌, ℕ, List};
ghost use Rattle.rb_tree.specs.Resource.{Resource};
ghost use Rattle.rb_parents.specs.Explicit.{GivesParents, RefusesParents, parent_entries};
ghost use Rattle.rb_parents.specs.ParentMap.{IsParentMap, mentions_in};
ghost use Rattle.rb_parents.specs.Trail.{ParentsOf};
ghost use Rattle.rb_parents.specs.declared.fault.ParentsFault.{ParentsFault};

/// Proves that a child has a parent if and only if an entry at `parentLocales` names it, and none
/// is named twice.
#[tactic(auto, using(crate::proofs::ParentMaps::gives_map))]
pub fn a_child_has_the_parent_that_names_it()
    ensures { (t : Resource) (m : ParentsOf) → GivesParents t m
        → IsParentMap (mentions_in (parent_entries t)) m }
{}

#[tactic(auto, using(crate::proofs::OneReading::map_or_error))]
pub fn a_tree_gives_one_map_or_has_one_error()
    ensures answered { (t : Resource)
        → ((m : ParentsOf) × GivesParents t m) ⊎ ((e : ParentsFault) × RefusesParents t e) }
    ensures map { (t : Resource) (m k : ParentsOf) → GivesParents t m → GivesParents t k
        → (name : List ℕ) → m name ≡ k name }
    ensures error { (t : Resource) (e f : ParentsFault) → RefusesParents t e → RefusesParents t f
        → e ≡ f }
    ensures apart { (t : Resource) (m : ParentsOf) (e : ParentsFault) → GivesParents t m
        → RefusesParents t e → ⊥ }
{}
