ghost use Rattle.std.specs.Prelude.{◌≡◌, ◌≤◌, ℕ, List, Some, None, MatchOption, is_none, nat_le};
ghost use Rattle.std.specs.Prelude.{if◌then◌else◌};
ghost use Rattle.rb_format.specs.declared.layout.Layout.{Layout};
ghost use Rattle.rb_tree.specs.Resource.{Resource, height};
ghost use Rattle.rb_tree.specs.SourceTree.{SourceTree};
ghost use Rattle.rb_format.specs.Denotation.{tree_at};
ghost use Rattle.rb_format.specs.File.{Denotes, DenotesWithin, has_header};
ghost use Rattle.rb_format.specs.declared.fault.FileFault.TheVariants.{TooDeep};
ghost use Rattle.rb_format.specs.Checks.{first_failed, first_fault, header_checks, item_checks};

pub fn a_tree_or_a_fault()
    ensures { (bytes : List ℕ) → MatchOption (first_fault bytes)
        ((s : SourceTree) × Denotes bytes s) (λ e. (s : SourceTree) → ¬ (Denotes bytes s)) }
{}

pub fn a_header_or_a_fault()
    ensures { (bytes : List ℕ) → is_none (first_failed (header_checks bytes)) ≡ has_header bytes }
{}

pub fn at_most_one_tree()
    ensures { (bytes : List ℕ) (s r : SourceTree) → Denotes bytes s → Denotes bytes r → s ≡ r }
{}

/// Proves that an item denotes one tree at all levels from its height up; at lower levels it is too
/// deep.
pub fn same_at_every_level()
    ensures tree { (y : Layout) (body : List ℕ) (d e item : ℕ) (t : Resource)
        → tree_at y body d item ≡ Some t
        → tree_at y body e item ≡ (if nat_le (height t) e then Some t else None) }
    ensures fault { (y : Layout) (body : List ℕ) (d e item : ℕ) (t : Resource)
        → tree_at y body d item ≡ Some t
        → first_failed (item_checks y body e item)
        ≡ (if nat_le (height t) e then None else Some TooDeep) }
{}

/// Proves that a file accepted under one limit of heights denotes the same bundle under every
/// greater limit. So files accepted under the earlier limit of 32 levels keep their meaning.
pub fn old_files_keep_their_meaning()
    ensures all { (h k : ℕ) (bytes : List ℕ) (s : SourceTree) → h ≤ k → DenotesWithin h bytes s
        → DenotesWithin k bytes s }
    ensures old { (bytes : List ℕ) (s : SourceTree) → DenotesWithin 32 bytes s → Denotes bytes s }
{}
