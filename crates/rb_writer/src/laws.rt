ghost use Rattle.std.specs.Prelude.{◌≡◌, ◌+◌, ◌%◌, ◌<◌, Bool, ℕ, List};
ghost use Rattle.rb_tree.specs.Resource.{Resource};
ghost use Rattle.rb_writer.specs.Values.{skipped};
ghost use Rattle.rb_writer.specs.Written.{IsWriterFile};

/// Proves that a tree with its flag has at most one file that `write` may return.
pub fn one_file()
    ensures { (t : Resource) (no_fallback : Bool) (file other : List ℕ)
        → IsWriterFile t no_fallback file → IsWriterFile t no_fallback other → file ≡ other }
{}

/// Proves that the bytes of a Binary begin at a multiple of 16, with the least padding.
pub fn binaries_are_aligned()
    ensures { (n : ℕ) → n % 4 ≡ 0 → ((n + skipped n + 4) % 16 ≡ 0) × (skipped n < 16) }
{}
