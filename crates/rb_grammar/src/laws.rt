ghost use Rattle.std.specs.Prelude.{◌≡◌, ◌≤◌, ◌⊎◌, ℕ, Bool, true, false, List, codes};
ghost use Rattle.rb_lexer.specs.declared.fault.SourceKind.{SourceKind};
ghost use Rattle.rb_lexer.specs.declared.token.Mark.{Mark};
ghost use Rattle.rb_lexer.specs.declared.token.Token.{Token};
ghost use Rattle.rb_tree.specs.Resource.{height};
ghost use Rattle.rb_tree.specs.SourceTree.{SourceTree};
ghost use Rattle.rb_grammar.specs.Form.{marks, table, Entries, Head, has_no_fallback};
ghost use Rattle.rb_grammar.specs.Form.{string_word, alias_word, binary_word, int_word, ints_word};
ghost use Rattle.rb_grammar.specs.Form.{table_word, no_fallback_table_word, array_word};
ghost use Rattle.rb_grammar.specs.Good.{Spells, IsSpelled, IsGood};
ghost use Rattle.rb_grammar.specs.Faults.{line_at, IsFault};
ghost use Rattle.rb_grammar.specs.Reading.{Stop, bundle};
ghost use Rattle.rb_grammar.specs.Tests.{the_tests};

pub fn type_words()
    ensures texts { (string_word ≡ codes "string") × (alias_word ≡ codes "alias") }
    ensures bytes { (binary_word true ≡ codes "binary") × (binary_word false ≡ codes "bin") }
    ensures numbers { (int_word true ≡ codes "integer") × (int_word false ≡ codes "int")
        × (ints_word ≡ codes "intvector") }
    ensures containers { (table_word ≡ codes "table") × (array_word ≡ codes "array") }
    ensures no_fallback { no_fallback_table_word ≡ codes "table(nofallback)" }
{}

pub fn spells_one_bundle()
    ensures { (ms : List Mark) (name other : List ℕ) (source another : SourceTree)
        → IsSpelled ms name source → IsSpelled ms other another
        → (name ≡ other) × (source ≡ another) }
{}

pub fn read_is_spelled()
    ensures { (tokens : List Token) (name : List ℕ) (head : Head) (form : Entries)
        → bundle the_tests tokens ≡ Ok (name, head, form)
        → (source : SourceTree) × IsSpelled (marks tokens) name source
        × Spells (table form) source.tree
        × (source.no_fallback ≡ has_no_fallback head) × (height source.tree ≤ 64) }
{}

pub fn spelled_is_read()
    ensures { (tokens : List Token) (name : List ℕ) (source : SourceTree)
        → IsSpelled (marks tokens) name source → height source.tree ≤ 64
        → (head : Head) × (form : Entries) × (bundle the_tests tokens ≡ Ok (name, head, form))
        × Spells (table form) source.tree
        × (source.no_fallback ≡ has_no_fallback head) }
{}

/// Proves that reading, if it stops, does so at an error of the tokens, in its line.
pub fn stop_is_fault()
    ensures { (tokens : List Token) (end : ℕ) (stop : Stop) → bundle the_tests tokens ≡ Err stop
        → IsFault tokens end stop.kind (line_at end stop.rest) }
{}

pub fn good_has_no_fault()
    ensures { (tokens : List Token) (name : List ℕ) (source : SourceTree) (end : ℕ)
        (kind : SourceKind) (line : ℕ) → IsGood (marks tokens) name source
        → IsFault tokens end kind line → ⊥ }
{}

pub fn good_or_faulty()
    ensures { (tokens : List Token) (end : ℕ)
        → ((name : List ℕ) × (source : SourceTree) × IsGood (marks tokens) name source)
        ⊎ ((kind : SourceKind) × (line : ℕ) × IsFault tokens end kind line) }
{}
