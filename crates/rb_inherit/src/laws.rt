ghost use Rattle.rb_inherit.specs.Agreement.{IsAllFound, IsAllShown, IsOneTree};

/// Proves that what a tree has at a path is what a lookup of the path answers: the JSON of the leaf
/// that it finds, an object for a table, an array for an array, or its error. The path has at most
/// 63 segments below the tree's, and no stop has an alias on it, except one at its end whose text
/// can't be read.
pub fn a_tree_has_what_lookups_find()
    ensures { IsAllFound }
{}

/// Proves that a tree has each leaf that a lookup finds below its path, unless a stop hides it on
/// the way: an earlier stop with something other than a table, or the leaf's own stop with an array
/// where an earlier stop has a table. The path has at most 63 segments below the tree's, and no
/// stop has an alias on it.
pub fn a_tree_has_each_leaf()
    ensures { IsAllShown }
{}

/// Proves that bundles without aliases have one tree at a path, so that its definition leaves nothing
/// open there.
pub fn there_is_one_tree()
    ensures { IsOneTree }
{}
