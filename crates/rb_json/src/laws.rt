ghost use Rattle.std.specs.Prelude.{◌≡◌};
ghost use Rattle.rb_tree.specs.Resource.{Resource};
ghost use Rattle.rb_json.specs.Value.{value_of};
ghost use Rattle.rb_json.specs.Sound.{IsSound};

/// Proves that two trees with one value are equal, if their numbers are those of their types.
pub fn one_tree()
    ensures { (t u : Resource) → IsSound t → IsSound u → value_of t ≡ value_of u → t ≡ u }
{}
