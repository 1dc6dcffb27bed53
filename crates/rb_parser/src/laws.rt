ghost use Rattle.std.specs.Prelude.{◌≡◌, ◌⊎◌, ℕ, List};
ghost use Rattle.rb_lexer.specs.declared.fault.SourceKind.{SourceKind};
ghost use Rattle.rb_tree.specs.SourceTree.{SourceTree};
ghost use Rattle.rb_parser.specs.Source.{IsGoodSourceWithin, IsGoodSource, IsFault};

/// Proves that a source spells at most one name and bundle.
pub fn one_source()
    ensures { (bytes : List ℕ) (name other : List ℕ) (source another : SourceTree)
        → IsGoodSource bytes name source
        → IsGoodSource bytes other another → (name ≡ other) × (source ≡ another) }
{}

/// Proves that a source within the former limit of 32 levels is still good, with the same name,
/// tree and flag.
pub fn old_sources()
    ensures { (bytes name : List ℕ) (source : SourceTree) → IsGoodSourceWithin 32 bytes name source
        → IsGoodSourceWithin 64 bytes name source }
{}

/// Proves that a source is either good or has an error.
pub fn good_or_faulty()
    ensures apart { (bytes : List ℕ) (name : List ℕ) (source : SourceTree) (kind : SourceKind)
        (line : ℕ) → IsGoodSource bytes name source
        → IsFault bytes kind line → ⊥ }
    ensures either { (bytes : List ℕ)
        → ((name : List ℕ) × (source : SourceTree) × IsGoodSource bytes name source)
        ⊎ ((kind : SourceKind) × (line : ℕ) × IsFault bytes kind line) }
{}
