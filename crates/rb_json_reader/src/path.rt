use json::{Reader, Scratch, Token};
use std::alloc::{AllocError, Global};

/// An open array or object: the number of items that began, or the key whose value comes.
#[derive(Clone, Copy, Drop)]
enum Level<'a> {
    Array(u64),
    Object(Option<&'a str>),
}

/// Notes that a value begins in the innermost level.
fn begin_value(levels: &mut Vec<Level<'_>>) {
    if let Some(Level::Array(begun)) = levels.last_mut() {
        *begun = begun.saturating_add(1);
    }
}

/// Notes that a value ended in the innermost level.
fn end_value(levels: &mut Vec<Level<'_>>) {
    if let Some(Level::Object(key)) = levels.last_mut() {
        *key = None;
    }
}

/// Passes a token.
fn pass<'a>(levels: &mut Vec<Level<'a>>, token: Token<'a>) -> Result<(), AllocError> {
    match token {
        Token::BeginArray => {
            begin_value(levels);
            levels.push(Level::Array(0))?;
        }
        Token::BeginObject => {
            begin_value(levels);
            levels.push(Level::Object(None))?;
        }
        Token::EndArray | Token::EndObject => {
            levels.pop();
            end_value(levels);
        }
        Token::Key(key) => {
            if let Some(Level::Object(next)) = levels.last_mut() {
                *next = Some(key);
            }
        }
        Token::String(_) | Token::Number(_) | Token::Bool(_) | Token::Null | Token::Bad => {
            begin_value(levels);
            end_value(levels);
        }
    }
    Ok(())
}

/// Appends a key as a segment of a JSON pointer.
fn push_key(path: &mut String, key: &str) -> Result<(), AllocError> {
    for character in key.chars() {
        match character {
            '~' => path.push_str("~0")?,
            '/' => path.push_str("~1")?,
            _ => path.push(character)?,
        }
    }
    Ok(())
}

/// Appends the segments of the levels: in all but the innermost a value is open.
fn push_levels(alloc: Global, path: &mut String, levels: &[Level<'_>]) -> Result<(), AllocError> {
    for (i, level) in levels.iter().enumerate() {
        match *level {
            Level::Object(None) => {}
            Level::Object(Some(key)) => {
                path.push('/')?;
                push_key(path, key)?;
            }
            Level::Array(begun) => {
                let open = i + 1 < levels.len();
                let index = if open { begun.saturating_sub(1) } else { begun };
                path.push('/')?;
                path.push_str(&index.to_string(alloc)?)?;
            }
        }
    }
    Ok(())
}

/// Returns the JSON pointer of the value that begins at a byte, or of the object whose key begins
/// there.
pub(crate) fn path_at(alloc: Global, text: &str, at: usize) -> Result<String, AllocError> {
    let mut scratch = Scratch::new(alloc);
    let mut reader = Reader::new(text, &mut scratch)?;
    let mut levels = Vec::new(alloc);
    while reader.offset() < at {
        match reader.next() {
            Some(token) => pass(&mut levels, token)?,
            None => break,
        }
    }
    let mut path = String::new(alloc);
    push_levels(alloc, &mut path, &levels)?;
    Ok(path)
}
