//! Tests bundle texts: the trees that they give, and their faults.
use rb_lexer::{SourceFault, SourceKind};
use rb_parser::{Source, parse};
use rb_tree::{Ending, Kind, Node, Tree, path_ok, walk};
use std::alloc::{AllocError, Global};
use std::test::Fail;

/// Returns the tree at a path.
fn at<'a>(source: &'a Source, path: &[u8]) -> Option<&'a Tree> {
    if !path_ok(path) {
        return None;
    }
    match walk(&source.tree, path) {
        Ending::End(tree) | Ending::Link(tree, _) => Some(tree),
        Ending::Gone => None,
    }
}

/// Returns the kind and the length of the tree at a path of a bundle text.
fn shape(alloc: Global, text: &str, path: &str) -> Result<Option<(Kind, usize)>, SourceFault> {
    let source = parse(alloc, text.as_bytes())?;
    Ok(match at(&source, path.as_bytes()) {
        Some(tree) => Some((tree.kind(), tree.len())),
        None => None,
    })
}

/// Returns the front, then `n` times the middle, then `closing` times a closing brace.
fn text_of(
    alloc: Global,
    front: &[u8],
    middle: &[u8],
    n: usize,
    closing: usize,
) -> Result<Vec<u8>, AllocError> {
    let mut text = front.to_vec(alloc)?;
    for _ in 0..n {
        text.extend_from_slice(middle)?;
    }
    for _ in 0..closing {
        text.push(b'}')?;
    }
    Ok(text)
}

fn fault_of(alloc: Global, text: &[u8]) -> Option<(SourceKind, u64)> {
    match parse(alloc, text) {
        Ok(_) => None,
        Err(fault) => Some((fault.kind, fault.line)),
    }
}

/// Bundle texts, each after a path, and the kind and the length of the tree there, or `none`.
const SHAPES: &str = r#"a|Array 2|root{a{:int{1},"x"}}
a/1|String 1|root{a{:int{1},"x"}}
a/01|none|root{a{:int{1},"x"}}
a/2|none|root{a{:int{1},"x"}}
a|Table 1|root{a{b:int{1}}}
a|Array 0|root{a{}}
a|Table 0|root{a:table{}}
|Table 0|root:table{}
a|Int 0|root{a:"int"{1}}
a|Binary 0|root{a:bin{}}
a|Binary 0|root{a:binary{" "}}
a|String 0|root{a:string{}}
a|Array 1|root{a{a,}}
a/0|String 1|root{a{a,}}
a|Ints 0|root{a:intvector{}}
m|Alias 4|root{m:alias{"fr/x"}}"#;

/// Reads a kind from its name.
fn kind_of(name: &str) -> Option<Kind> {
    match name {
        "String" => Some(Kind::String),
        "Int" => Some(Kind::Int),
        "Ints" => Some(Kind::Ints),
        "Binary" => Some(Kind::Binary),
        "Alias" => Some(Kind::Alias),
        "Array" => Some(Kind::Array),
        "Table" => Some(Kind::Table),
        _ => None,
    }
}

/// Reads the kind and the length of a row of `SHAPES`.
fn shape_of(words: &str) -> Option<(Kind, usize)> {
    let (kind, len) = words.split_once(' ')?;
    Some((kind_of(kind)?, len.parse().ok()?))
}

/// Checks the tree of a row of `SHAPES`. Returns None if the row can't be read.
fn has_shape(alloc: Global, row: &str) -> Option<bool> {
    let mut fields = row.split('|');
    let (path, words, text) = (fields.next()?, fields.next()?, fields.next()?);
    let wanted = if words == "none" {
        None
    } else {
        Some(shape_of(words)?)
    };
    Some(shape(alloc, text, path).ok()? == wanted)
}

#[test]
fn guesses_and_reads_types(rt: HostRuntime) {
    for row in SHAPES.lines() {
        assert!(rt; has_shape(rt.alloc(), row) == Some(true), "{row}");
    }
}

/// Checks whether an integer is at a path.
fn is_int(source: &Source, path: &[u8], n: u32) -> bool {
    match at(source, path) {
        Some(Tree::Int(number)) => number.get() == n,
        _ => false,
    }
}

/// Checks whether these numbers are at a path.
fn is_ints(source: &Source, path: &[u8], numbers: &[i32]) -> bool {
    match at(source, path) {
        Some(Tree::Ints(found)) => found.as_slice() == numbers,
        _ => false,
    }
}

const NUMBERS: &[u8] =
    b"root{a:int{268435455} b:int{-134217728} c:int{010} d:int{0x10} v:intvector{1,-1,4294967295,0x80000000}}";

fn has_numbers(source: &Source) -> bool {
    is_int(source, b"a", 268435455)
        && is_int(source, b"b", 134217728)
        && is_int(source, b"c", 8)
        && is_int(source, b"d", 16)
        && is_ints(source, b"v", &[1, -1, -1, -2147483648])
}

#[test]
fn reads_numbers(rt: HostRuntime) -> Result<(), Fail> {
    let source = parse(rt.alloc(), NUMBERS)?;
    assert!(rt; has_numbers(&source));
    Ok(())
}

/// Bundle texts that are refused, each after its error code and the line. `~` stands for a line feed.
const REFUSED: &str = r#"OpenQuote|1|root{a{"x}
OpenComment|1|root{/*
BadEscape|1|root{a{"\x"}}
UnknownType|1|root{a:process(x){"b"}}
DuplicateKey|1|root{a{"1"} a{"2"}}
BadKey|1|root{""{"x"}}
BadInt|1|root{a:int{x}}
BadHex|1|root{a:bin{0}}
TrailingText|1|root{a{"b"}} x
Unexpected|1|root{a
Unexpected|1|
Unexpected|1|root:array{}
BadInt|2|root{~a:int{x}}
Unexpected|3|root{a~~
BadInt|1|root{a:int{268435456}}
BadInt|1|root{a:int{-134217729}}
BadInt|1|root{a:int{09}}
UnknownType|1|root:foo{}
Unexpected|1|root:int{}
UnknownType|1|root{a:in t{1}}
Unexpected|1|root{a:int{}}
BadInt|1|root{a:int{""}}
Unexpected|1|root{a:string{a,}}
Unexpected|1|root{a{,}}
Unexpected|1|root{a:table(nofallback){}}
Unexpected|2|root{a{:~"table(nofallback)"{}}}
UnknownType|1|root:table(fallback){}"#;

/// Checks the fault of a row of `REFUSED`. Returns None if the row can't be read.
fn is_refused(alloc: Global, row: &str) -> Option<bool> {
    let mut fields = row.split('|');
    let (word, line) = (fields.next()?, fields.next()?.parse::<u64>().ok()?);
    let text = fields.next()?.replace(alloc, '~', "\n").ok()?;
    let (kind, found) = fault_of(alloc, text.as_bytes())?;
    Some(kind.word() == word && found == line)
}

#[test]
fn refuses_with_the_line(rt: HostRuntime) -> Result<(), Fail> {
    for row in REFUSED.lines() {
        assert!(rt; is_refused(rt.alloc(), row) == Some(true), "{row}");
    }
    assert!(rt; fault_of(rt.alloc(), b"\xFF") == Some((SourceKind::NotUtf8, 1)));
    let nines = text_of(rt.alloc(), b"root{a:int{", b"9", 1_000_000, 2)?;
    assert!(rt; fault_of(rt.alloc(), nines.as_slice()) == Some((SourceKind::BadInt, 1)));
    Ok(())
}

/// Returns the flag of a bundle text.
fn flag(alloc: Global, text: &[u8]) -> Result<bool, SourceFault> {
    Ok(parse(alloc, text)?.no_fallback)
}

#[test]
fn reads_the_flag(rt: HostRuntime) -> Result<(), Fail> {
    assert!(rt; flag(rt.alloc(), b"de:table(nofallback){a{\"b\"}}")?);
    assert!(rt; flag(rt.alloc(), b"de:\"table(nofallback)\"{}")?);
    assert!(rt; !flag(rt.alloc(), b"de:table{a{\"b\"}}")?);
    assert!(rt; !flag(rt.alloc(), b"de{a{\"b\"}}")?);
    Ok(())
}

/// Returns the faults of two texts with nested arrays, the second with a string in the innermost.
fn faults_at(alloc: Global, n: usize) -> Result<[Option<(SourceKind, u64)>; 2], AllocError> {
    let braces = n.saturating_add(1);
    let arrays = text_of(alloc, b"root{", b"a{", n, braces)?;
    let mut texts = text_of(alloc, b"root{", b"a{", n, 0)?;
    let end = text_of(alloc, b"\"x\"", b"", 0, braces)?;
    texts.extend_from_slice(end.as_slice())?;
    Ok([
        fault_of(alloc, arrays.as_slice()),
        fault_of(alloc, texts.as_slice()),
    ])
}

#[test]
fn bounds_the_height(rt: HostRuntime) -> Result<(), Fail> {
    assert!(rt; faults_at(rt.alloc(), 63)? == [None, None]);
    let too_deep = Some((SourceKind::TooDeep, 1));
    assert!(rt; faults_at(rt.alloc(), 64)? == [too_deep, too_deep]);
    let endless = text_of(rt.alloc(), b"root{", b"a{", 4_000_000, 0)?;
    assert!(rt; fault_of(rt.alloc(), endless.as_slice()) == too_deep);
    Ok(())
}

/// Returns the weight of a bundle text's tree.
fn weight(alloc: Global, text: &[u8]) -> Result<u64, SourceFault> {
    Ok(parse(alloc, text)?.tree.weight())
}

/// Checks the weight of the largest array of strings of one unit, and the fault of a larger one.
fn is_weight_bounded(alloc: Global) -> Result<bool, Fail> {
    let most = text_of(alloc, b"root{a{", b"a,", 2_396_743, 2)?;
    let more = text_of(alloc, b"root{a{", b"a,", 2_396_744, 2)?;
    let is_full = weight(alloc, most.as_slice())? == 33_554_424;
    Ok(is_full && fault_of(alloc, more.as_slice()) == Some((SourceKind::TooLarge, 1)))
}

#[test]
fn bounds_the_weight(rt: HostRuntime) -> Result<(), Fail> {
    assert!(rt; is_weight_bounded(rt.alloc())?);
    Ok(())
}
