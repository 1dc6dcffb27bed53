use rb_tree::UnitList;

#[derive(Drop)]
pub enum Mark {
    Text(UnitList),
    LeftBrace,
    RightBrace,
    Colon,
    Comma,
}

/// A text or a punctuation mark, its byte range, and the line in which it begins.
#[derive(Drop)]
pub struct Token {
    pub what: Mark,
    pub first: usize,
    pub past: usize,
    pub line: u64,
}
