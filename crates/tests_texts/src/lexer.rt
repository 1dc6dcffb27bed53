//! Tests sources: the tokens that they give, and their faults.
use rb_lexer::{
    Mark, PieceKind, SourceFault, SourceKind, TextPart, Token, first_part, first_piece, lex,
};
use std::alloc::Global;
use std::test::Fail;

/// Checks whether a token is this text.
fn is_text(token: &Token, units: &[u16]) -> bool {
    match &token.what {
        Mark::Text(text) => text.as_slice() == units,
        _ => false,
    }
}

/// Checks whether a source is refused with this fault at this line.
fn is_refused(alloc: Global, source: &[u8], kind: SourceKind, line: u64) -> bool {
    match lex(alloc, source) {
        Ok(_) => false,
        Err(fault) => fault.kind == kind && fault.line == line,
    }
}

/// Checks whether tokens are `a`, a brace, `b c` and a brace.
fn are_marks(tokens: &[Token]) -> bool {
    tokens.len() == 4
        && is_text(&tokens[0], &[97])
        && matches!(tokens[1].what, Mark::LeftBrace)
        && is_text(&tokens[2], &[98, 32, 99])
        && matches!(tokens[3].what, Mark::RightBrace)
}

/// Checks whether tokens have these spans, all in line 1.
fn are_at(tokens: &[Token], spans: &[(usize, usize)]) -> bool {
    if tokens.len() != spans.len() {
        return false;
    }
    for i in 0..tokens.len() {
        let (first, past) = spans[i];
        if tokens[i].first != first || tokens[i].past != past || tokens[i].line != 1 {
            return false;
        }
    }
    true
}

#[test]
fn tells_spans(rt: HostRuntime) -> Result<(), Fail> {
    let tokens = lex(rt.alloc(), b"a{\"b\" /* x */ c}")?;
    assert!(rt; are_marks(&tokens));
    assert!(rt; are_at(&tokens, &[(0, 1), (1, 2), (2, 15), (15, 16)]));
    Ok(())
}

/// Checks whether tokens begin in these lines.
fn are_in(tokens: &[Token], lines: &[u64]) -> bool {
    if tokens.len() != lines.len() {
        return false;
    }
    for i in 0..tokens.len() {
        if tokens[i].line != lines[i] {
            return false;
        }
    }
    true
}

#[test]
fn tells_lines(rt: HostRuntime) -> Result<(), Fail> {
    let tokens = lex(rt.alloc(), b"a:\r\n/*\n*/ ,\"\r\n\" {")?;
    assert!(rt; are_in(&tokens, &[1, 1, 3, 3, 4]));
    Ok(())
}

#[test]
fn tokens_are_small(rt: HostRuntime) {
    assert!(rt; std::mem::size_of::<Token>() <= 64);
}

/// Counts the tokens of a source.
fn count(alloc: Global, source: &[u8]) -> Result<usize, SourceFault> {
    Ok(lex(alloc, source)?.len())
}

/// Checks the number of tokens of a source.
fn has_tokens(alloc: Global, source: &str, wanted: usize) -> bool {
    count(alloc, source.as_bytes()) == Ok(wanted)
}

fn are_counted(alloc: Global) -> bool {
    has_tokens(alloc, "root{a{\"b\"}}", 7)
        && has_tokens(alloc, "root{a{\"b\"},}", 8)
        && has_tokens(alloc, "", 0)
        && has_tokens(alloc, " /* x */ // y", 0)
        && has_tokens(alloc, "\u{FEFF}a\u{FEFF}{\u{2029}}", 3)
        && has_tokens(alloc, "//\u{2029}a//\r{", 2)
}

#[test]
fn counts_tokens(rt: HostRuntime) {
    assert!(rt; are_counted(rt.alloc()));
}

/// Checks whether a source is one text with these units.
fn is_one_text(alloc: Global, source: &[u8], units: &[u16]) -> Result<bool, SourceFault> {
    let tokens = lex(alloc, source)?;
    Ok(tokens.len() == 1 && is_text(&tokens[0], units))
}

/// Sources of one text, each after its units.
const TEXTS: &str = r#"97 32 98 32 99 100 101|"a" b "c""d" /* x */ "e"
98|"" b
97 32|a ""
97 98 99 100|ab/*x*/cd
97 47 98|a/b
233 55357 56832 55296 65 123|"\u00e9\U0001F600\uD800\101\{"
123 120|\{x
511 1 56 56 57 88|\777\18\8\9\X
4 103 65 102|\x4g\x41f
7 8 27 12 10 13 9 11|\a\b\e\f\n\r\t\v
47 42 34 32 92|\/*\"\ \\"#;

/// Reads units from a list of numbers.
fn units_of(alloc: Global, numbers: &str) -> Option<Vec<u16>> {
    let mut units = Vec::new(alloc);
    for number in numbers.split(' ') {
        units.push(number.parse().ok()?).ok()?;
    }
    Some(units)
}

/// Checks a row of `TEXTS`. Returns None if the row can't be read.
fn has_text(alloc: Global, row: &str) -> Option<bool> {
    let (numbers, source) = row.split_once('|')?;
    let units = units_of(alloc, numbers)?;
    is_one_text(alloc, source.as_bytes(), units.as_slice()).ok()
}

#[test]
fn reads_one_text(rt: HostRuntime) {
    for row in TEXTS.lines() {
        assert!(rt; has_text(rt.alloc(), row) == Some(true), "{row}");
    }
}

/// Checks whether a source is one text with these units.
fn gives(alloc: Global, source: &str, units: &[u16]) -> bool {
    is_one_text(alloc, source.as_bytes(), units) == Ok(true)
}

fn reads_line_feeds_and_marks(alloc: Global) -> bool {
    gives(alloc, "ab//x\ncd", &[97, 98, 99, 100])
        && gives(alloc, "ab//x\r\ncd", &[97, 98, 32, 99, 100])
        && gives(alloc, "\u{85}\u{A0}\u{B}", &[133, 160, 11])
        && gives(alloc, "\u{FEFF}\u{E9}\u{1F600}", &[233, 55357, 56832])
}

#[test]
fn reads_one_text_with_line_feeds_or_marks(rt: HostRuntime) {
    assert!(rt; reads_line_feeds_and_marks(rt.alloc()));
}

/// Sources that are refused, each after its error code and the line. `~` stands for a line feed.
const REFUSED: &str = r#"BadEscape|1|"\U00110000"
BadEscape|1|"\cA"
BadEscape|1|"\x{41}"
BadEscape|1|"\x"
BadEscape|1|"\u12"
BadEscape|1|a\
BadEscape|1|root{a{"\x
OpenQuote|3|x{~"a~
OpenQuote|1|root{a{"x}
OpenComment|1|root{/*
OpenComment|1|/*/"#;

/// Checks the fault of a row of `REFUSED`. Returns None if the row can't be read.
fn has_fault(alloc: Global, row: &str) -> Option<bool> {
    let mut fields = row.split('|');
    let (word, line) = (fields.next()?, fields.next()?.parse::<u64>().ok()?);
    let source = fields.next()?.replace(alloc, '~', "\n").ok()?;
    match lex(alloc, source.as_bytes()) {
        Ok(_) => Some(false),
        Err(fault) => Some(fault.kind.word() == word && fault.line == line),
    }
}

#[test]
fn refuses(rt: HostRuntime) {
    for row in REFUSED.lines() {
        assert!(rt; has_fault(rt.alloc(), row) == Some(true), "{row}");
    }
    assert!(rt; is_refused(rt.alloc(), b"\xFF", SourceKind::NotUtf8, 1));
    assert!(rt; is_refused(rt.alloc(), b"\\c\n\n\xE2\x80", SourceKind::NotUtf8, 3));
    assert!(rt; SourceKind::NotUtf8.word() == "NotUtf8");
}

/// Checks whether a token is a text of this many units.
fn has_units(token: &Token, count: usize) -> bool {
    match &token.what {
        Mark::Text(text) => text.as_slice().len() == count,
        _ => false,
    }
}

#[test]
fn reads_long_sources(rt: HostRuntime) -> Result<(), Fail> {
    let mut source = vec![in rt.alloc(); b'a'; 50_000]?;
    for _ in 0..10_000 {
        source.extend_from_slice(b" \"b\",")?;
    }
    let tokens = lex(rt.alloc(), &source)?;
    assert!(rt; tokens.len() == 20_000 && has_units(&tokens[0], 50_002));
    Ok(())
}

#[test]
fn reads_texts_up_to_the_limit(rt: HostRuntime) -> Result<(), Fail> {
    let mut spaces = vec![in rt.alloc(); b' '; 8_388_608]?;
    assert!(rt; count(rt.alloc(), &spaces)? == 0);
    spaces.push(b' ')?;
    assert!(rt; is_refused(rt.alloc(), &spaces, SourceKind::TooLong, 1));
    Ok(())
}

/// Checks whether a text begins with a piece of this kind, and this rest follows.
fn begins_with(text: &str, kind: PieceKind, rest: &str) -> bool {
    match first_piece(text) {
        Some((first, after)) => first == kind && after == rest,
        None => false,
    }
}

#[test]
fn splits_texts_with_errors(rt: HostRuntime) {
    assert!(rt; begins_with("a\\c/b// c", PieceKind::Run, "// c"));
    assert!(rt; begins_with("// c\u{2029}\n", PieceKind::LineComment, "\n"));
    assert!(rt; begins_with("\"\\c\" \"", PieceKind::Quoted, " \""));
    assert!(rt; begins_with("\"\\\" {", PieceKind::OpenQuote, ""));
    assert!(rt; begins_with("/*/ a", PieceKind::OpenComment, ""));
    assert!(rt;
        matches!(
            first_part("\\101a"),
            Some((TextPart::Escape(Some(65)), "a"))
        )
    );
    assert!(rt; matches!(first_part("\\cA"), Some((TextPart::Escape(None), "A"))));
    assert!(rt; first_piece("").is_none());
}
