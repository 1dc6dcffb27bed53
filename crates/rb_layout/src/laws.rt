ghost use Rattle.std.specs.Prelude.{ℕ, List};
ghost use Rattle.rb_tree.specs.SourceTree.{SourceTree};
ghost use Rattle.rb_parser.specs.Source.{IsGoodSource};
ghost use Rattle.rb_layout.specs.Formatted.{SpellSame};

/// Proves that texts with the same tokens are texts of the same bundles: of one name, tree and
/// flag, or of none.
pub fn same_bundle()
    ensures formatted { (old new name : List ℕ) (source : SourceTree) → SpellSame old new
        → IsGoodSource old name source → IsGoodSource new name source }
    ensures original { (old new name : List ℕ) (source : SourceTree) → SpellSame old new
        → IsGoodSource new name source → IsGoodSource old name source }
{}
