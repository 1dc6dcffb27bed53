//! Words that have an explanation, and one that has none.
use rb_explain::Of;

const WORDS: [(Of, &str, Option<&str>); 7] = [
    (Of::Text, "badint", Some("BadInt")),
    (Of::File, "FormatVersion", Some("FormatVersion")),
    (Of::Text, "FormatVersion", None),
    (Of::Printing, "TooLarge", Some("TooLarge")),
    (Of::Value, "missing", Some("Missing")),
    (Of::Printing, "Missing", None),
    (Of::Memory, "Memory", Some("Memory")),
];

fn are_found() -> bool {
    for (of, word, wanted) in WORDS {
        if of.explanation(word).map(|explanation| explanation.word) != wanted {
            return false;
        }
    }
    true
}

#[test]
fn finds_words(rt: HostRuntime) {
    assert!(rt; are_found());
}
