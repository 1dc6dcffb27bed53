ghost use Rattle.std.specs.Prelude.{◌≡◌, ◌≤◌, ℕ, Bool, List, length, encode_utf8_all};
ghost use Rattle.rb_tree.specs.Resource.{Members, table, height};
ghost use Rattle.rb_printer.specs.Sign.{signs_chars};
ghost use Rattle.rb_printer.specs.Page.{page};
ghost use Rattle.rb_printer.specs.Sound.{AreUnits, IsSound};
ghost use Rattle.rb_printer.specs.Whole.{IsBundleText};
ghost use Rattle.rb_lexer.specs.Limits.{source_limit};

/// Proves that the characters of a page, in UTF-8, are a text of its bundle.
pub fn pages_spell()
    ensures { (bytes name : List ℕ) (no_fallback : Bool) (es : Members) → AreUnits name
        → IsSound (table es) → height (table es) ≤ 64
        → bytes ≡ encode_utf8_all (signs_chars (page name no_fallback es))
        → length bytes ≤ source_limit
        → IsBundleText bytes name (record { tree = table es; no_fallback = no_fallback }) }
{}
