ghost use Rattle.std.specs.Prelude.{◌≡◌, ℕ, List};
ghost use Rattle.rb_compiler.specs.Compiled.{IsCompiled};
ghost use Rattle.rb_engine.specs.History.{AsksOne, AnswersOwn, IsIsolated};
ghost use Rattle.rb_engine.specs.Kept.{KeepsTexts, KeepsCommonTexts, KeepsTrees};
ghost use Rattle.rb_engine.specs.OpenLocale.{StaysCounted, StaysOpen};

/// Proves that applications are isolated: each is answered from its own bundles, those of ICUDATA
/// and the explicit parents, whatever the others ask.
pub fn isolated()
    // A call asks one thing, since a payload has at most one tree.
    ensures one { AsksOne }
    // Each answer except out of memory depends on what the caller asked before.
    ensures own { AnswersOwn }
    // Answers depend only on the caller's calls, and on which of them ran out of memory.
    ensures alone { IsIsolated }
{
    rb_parser::laws::one_source();
}

/// Proves that a text that is parsed, written and accepted keeps its tree: the root of the file is
/// that tree, and a lookup over the file is the search over the text's bundle.
pub fn a_text_is_kept_as_its_bundle()
    ensures tree { KeepsTrees }
    ensures lookups { KeepsTexts }
    ensures icudata { KeepsCommonTexts }
{}

/// Proves, by its contract, that a text compiles to at most one file.
pub fn one_compiled()
    ensures { (text file other : List ℕ) → IsCompiled text file → IsCompiled text other
        → file ≡ other }
{}

/// Proves that an open locale stays one as long as its version is current: if each call in between
/// changes nothing or raises the version, nothing has changed.
#[tactic(auto, using(crate::proofs::StayingOpen::stays_open))]
pub fn a_locale_stays_open_until_a_change()
    ensures stops { StaysOpen }
    ensures names { StaysCounted }
{}
