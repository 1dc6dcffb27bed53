ghost use Rattle.std.specs.Prelude.{◌≡◌, ℕ, List};
ghost use Rattle.rb_tree.specs.Resource.{Resource};
ghost use Rattle.rb_tree.specs.Table.{IsTableOf};

/// Proves that the same pairs make at most one table.
pub fn one_table()
    ensures { (ps : List (List ℕ × Resource)) (t u : Resource) → IsTableOf ps t → IsTableOf ps u
        → t ≡ u }
{}
