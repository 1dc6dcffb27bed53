ghost use Rattle.std.specs.Prelude.{◌≡◌, ◌<◌, [], ◌∷◌, ◌++◌, length, OnOk};
ghost use Rattle.rb_grammar.specs.Reading as reading;
ghost use Rattle.rb_grammar.specs.Reading.{body, typed_at, untyped_at, guess, table_at, array_at};
ghost use Rattle.rb_grammar.specs.Reading.{entries, elements};
ghost use Rattle.rb_grammar.specs.Tests.{the_tests};
ghost use Rattle.rb_parser.specs.inner.Reads.{Reads, inner_at, IsBodyTree, IsTableTree};
ghost use Rattle.rb_parser.specs.inner.Reads.{IsArrayTree};
ghost use Rattle.rb_parser.specs.inner.Rows.{AreRead, IsKnown};
ghost use Rattle.rb_parser.specs.inner.Views.{word_of};

use crate::cursor::{Cursor, Guess, Lookahead, Punctuation};
use crate::key::read_key;
use crate::leaf::read_leaf;
use crate::table::Rows;
use crate::word::Word;
use rb_lexer::{SourceFault, SourceKind};
use rb_tree::{Tree, TreeList};
use std::alloc::{AllocError, Global};

/// Reads a value of at most `depth` levels.
#[cycle(body)]
pub fn read_body(alloc: Global, cursor: &mut Cursor, depth: u64) -> Result<Tree, SourceFault>
    ensures same_end { cursor.new.end ≡ cursor.old.end }
    ensures exact { Reads IsBodyTree cursor.old.end result cursor.new.rest
        (body the_tests depth cursor.old.rest) }
    ensures shorter { OnOk result (length cursor.new.rest < length cursor.old.rest) }
{
    if depth == 0 {
        return Err(cursor.depth_error());
    }
    match cursor.next() {
        Lookahead::Colon => {
            cursor.skip()?;
            let word = cursor.word()?;
            cursor.expect(Punctuation::Left)?;
            read_typed(alloc, cursor, word, depth - 1)
        }
        Lookahead::Left => {
            cursor.skip()?;
            read_untyped(alloc, cursor, depth - 1)
        }
        Lookahead::Text | Lookahead::Other => Err(cursor.fault(SourceKind::Unexpected)),
    }
}

/// Reads the rest of a body with a type. Its content has at most `depth` levels.
#[cycle(body)]
fn read_typed(
    alloc: Global,
    cursor: &mut Cursor,
    word: Word,
    depth: u64,
) -> Result<Tree, SourceFault>
    ensures same_end { cursor.new.end ≡ cursor.old.end }
    ensures exact { (w : reading.Word) → word_of w ≡ word
        → Reads IsBodyTree cursor.old.end result cursor.new.rest
        (typed_at the_tests (inner_at depth) w cursor.old.rest) }
    ensures shorter { OnOk result (length cursor.new.rest < length cursor.old.rest) }
{
    match word {
        Word::Leaf(leaf) => {
            let tree = read_leaf(alloc, cursor, leaf)?;
            cursor.expect(Punctuation::Right)?;
            Ok(tree)
        }
        Word::Table => read_table(alloc, cursor, depth),
        Word::Array => read_array(alloc, cursor, depth),
    }
}

/// Reads the rest of a body without a type. Its content has at most `depth` levels.
#[cycle(body)]
fn read_untyped(alloc: Global, cursor: &mut Cursor, depth: u64) -> Result<Tree, SourceFault>
    ensures same_end { cursor.new.end ≡ cursor.old.end }
    ensures exact { Reads IsBodyTree cursor.old.end result cursor.new.rest
        (untyped_at the_tests (inner_at depth) (guess cursor.old.rest) cursor.old.rest) }
    ensures shorter { OnOk result (length cursor.new.rest < length cursor.old.rest) }
{
    match cursor.guess()? {
        Guess::Text => {
            let text = cursor.text()?;
            cursor.expect(Punctuation::Right)?;
            Ok(Tree::String(text))
        }
        Guess::Table => read_table(alloc, cursor, depth),
        Guess::Array => read_array(alloc, cursor, depth),
    }
}

/// Reads the entries of a table and its closing brace. Each has at most `depth` levels.
#[cycle(body)]
pub fn read_table(alloc: Global, cursor: &mut Cursor, depth: u64) -> Result<Tree, SourceFault>
    ensures same_end { cursor.new.end ≡ cursor.old.end }
    ensures exact { Reads IsTableTree cursor.old.end result cursor.new.rest
        (table_at the_tests (inner_at depth) cursor.old.rest) }
    ensures shorter { OnOk result (length cursor.new.rest < length cursor.old.rest) }
{
    let mut rows = Rows::new(alloc);
    match read_rows(alloc, cursor, depth, &mut rows) {
        Ok(()) => rows.table(alloc),
        Err(fault) => Err(rows.first_fault(alloc, fault)),
    }
}

/// Reads the entries of a table as rows, in the order of the text. Keys may repeat.
#[cycle(body)]
fn read_rows(
    alloc: Global,
    cursor: &mut Cursor,
    depth: u64,
    rows: &mut Rows,
) -> Result<(), SourceFault>
    requires pairs { rows.old.pairs.items ≡ [] }
    requires lines { rows.old.lines.items ≡ [] }
    ensures same_end { cursor.new.end ≡ cursor.old.end }
    ensures rows { IsKnown result → AreRead depth cursor.old.end cursor.old.rest rows.new result
        cursor.new.rest }
    ensures shorter { OnOk result (length cursor.new.rest < length cursor.old.rest) }
{
    'entries: loop {
        let bad = cursor.fault(SourceKind::BadKey);
        let Some(text) = cursor.take_text()? else {
            break;
        };
        let Some(key) = read_key(alloc, text.as_slice())? else {
            return Err(bad);
        };
        let tree = match read_body(alloc, cursor, depth) {
            Ok(tree) => tree,
            Err(fault) => return Err(rows.fault_at(bad.line, key.as_slice(), fault)),
        };
        rows.add(bad.line, key, tree)?;
        cursor.take(Punctuation::Comma)?;
    }
    cursor.expect(Punctuation::Right)?;
    Ok(())
}

/// Appends an element. The first reserves one place: arrays of one element are those that nest
/// deep.
#[inline(always)]
fn add_tree(trees: &mut Vec<Tree>, tree: Tree) -> Result<(), AllocError>
    ensures { OnOk result (trees.new.items ≡ trees.old.items ++ tree ∷ []) }
{
    if trees.capacity() == 0 {
        trees.reserve_exact(1)?;
    }
    trees.push(tree)?;
    Ok(())
}

/// Reads the elements of an array and its closing brace. Each has at most `depth` levels.
#[cycle(body)]
fn read_array(alloc: Global, cursor: &mut Cursor, depth: u64) -> Result<Tree, SourceFault>
    ensures same_end { cursor.new.end ≡ cursor.old.end }
    ensures exact { Reads IsArrayTree cursor.old.end result cursor.new.rest
        (array_at (inner_at depth) cursor.old.rest) }
    ensures shorter { OnOk result (length cursor.new.rest < length cursor.old.rest) }
{
    let mut trees = Vec::new(alloc);
    'elements: loop {
        match cursor.next() {
            Lookahead::Text => {
                if depth == 0 {
                    return Err(cursor.fault(SourceKind::TooDeep));
                }
                let text = cursor.text()?;
                add_tree(&mut trees, Tree::String(text))?;
            }
            Lookahead::Left | Lookahead::Colon => add_tree(
                &mut trees,
                read_body(alloc, cursor, depth)?,
            )?,
            Lookahead::Other => break,
        }
        cursor.take(Punctuation::Comma)?;
    }
    cursor.expect(Punctuation::Right)?;
    Ok(Tree::Array(TreeList::from_vec(trees)))
}
