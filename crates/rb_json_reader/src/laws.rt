ghost use Rattle.std.specs.Prelude.{◌≡◌};
ghost use Rattle.rb_tree.specs.Resource.{Resource};
ghost use Rattle.rb_json_reader.specs.Arranged.{Arranges};

/// Proves that trees that differ from one only in the order of their tables' entries, which ascend,
/// are equal. So a value has one tree, whatever the order of its members.
pub fn one_arrangement()
    ensures { (u t v : Resource) → Arranges u t → Arranges u v → t ≡ v }
{}
