use rb_tree::Kind;

/// Names a kind of items as warnings and traces do.
pub fn kind_word(kind: Kind) -> &'static str {
    match kind {
        Kind::String => "a string",
        Kind::Int => "an int",
        Kind::Ints => "an intvector",
        Kind::Binary => "a bin",
        Kind::Alias => "an alias",
        Kind::Array => "an array",
        Kind::Table => "a table",
    }
}
