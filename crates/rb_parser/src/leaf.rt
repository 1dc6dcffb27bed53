ghost use Rattle.std.specs.Prelude.{◌≡◌, ℕ, List, ◌<◌, ◌≤◌, length, Ok, OnOk, IfOk};
ghost use Rattle.rb_lexer.specs.declared.fault.SourceKind.TheVariants.{BadInt, BadHex};
ghost use Rattle.rb_grammar.specs.Good.{text_or_none};
ghost use Rattle.rb_grammar.specs.Numeral.{IsHexText, IsIntText};
ghost use Rattle.rb_grammar.specs.Reading as reading;
ghost use Rattle.rb_grammar.specs.Reading.{anything, maybe_at, checked_at, numbers};
ghost use Rattle.rb_grammar.specs.Tests.{the_tests};
ghost use Rattle.rb_parser.specs.inner.Reads.{Reads, leaf_at, IsLeafTree, AreNumbers};
ghost use Rattle.rb_parser.specs.inner.Views.{word_of};
ghost use Rattle.rb_parser.specs.declared.word.Word.TheVariants as word;

use crate::cursor::{Cursor, Punctuation};
use crate::word::Leaf;
use rb_grammar::{read_bytes, read_element, read_int};
use rb_lexer::{SourceFault, SourceKind};
use rb_tree::{ByteList, Int28, NumberList, Tree, UnitList};
use std::alloc::{AllocError, Global};

fn read_text(alloc: Global, cursor: &mut Cursor) -> Result<UnitList, AllocError>
    ensures same_end { cursor.new.end ≡ cursor.old.end }
    ensures exact { IfOk result (λ found. Reads (λ units t. units ≡ text_or_none t) cursor.old.end
        (Ok found) cursor.new.rest
        (maybe_at BadHex anything cursor.old.rest)) }
    ensures no_longer { OnOk result (length cursor.new.rest ≤ length cursor.old.rest) }
{
    match cursor.take_text()? {
        Some(text) => Ok(text),
        None => Ok(UnitList::new(alloc)),
    }
}

fn read_binary(alloc: Global, cursor: &mut Cursor) -> Result<ByteList, SourceFault>
    ensures same_end { cursor.new.end ≡ cursor.old.end }
    ensures exact { Reads
        (λ bytes t. IsHexText (text_or_none t) bytes) cursor.old.end result cursor.new.rest
        (maybe_at BadHex the_tests.is_hex cursor.old.rest) }
    ensures no_longer { OnOk result (length cursor.new.rest ≤ length cursor.old.rest) }
{
    let bad = cursor.fault(SourceKind::BadHex);
    let Some(text) = cursor.take_text()? else {
        return Ok(ByteList::from_vec(Vec::new(alloc)));
    };
    match read_bytes(alloc, text.as_slice())? {
        Some(bytes) => Ok(ByteList::from_vec(bytes)),
        None => Err(bad),
    }
}

fn read_number(cursor: &mut Cursor) -> Result<Int28, SourceFault>
    ensures same_end { cursor.new.end ≡ cursor.old.end }
    ensures exact { Reads (λ n s. IsIntText s n) cursor.old.end result cursor.new.rest
        (checked_at BadInt the_tests.is_int cursor.old.rest) }
    ensures no_longer { OnOk result (length cursor.new.rest ≤ length cursor.old.rest) }
{
    let bad = cursor.fault(SourceKind::BadInt);
    let text = cursor.text()?;
    let Some(number) = read_int(text.as_slice()) else {
        return Err(bad);
    };
    match Int28::new(number) {
        Some(number) => Ok(number),
        None => unreachable!(),
    }
}

fn read_numbers(alloc: Global, cursor: &mut Cursor) -> Result<Vec<i32>, SourceFault>
    ensures same_end { cursor.new.end ≡ cursor.old.end }
    ensures exact { (n : ℕ) → length cursor.old.rest < n
        → Reads (λ v ns. AreNumbers v.items ns) cursor.old.end result cursor.new.rest
        (numbers the_tests.is_element n cursor.old.rest) }
    ensures no_longer { OnOk result (length cursor.new.rest ≤ length cursor.old.rest) }
{
    let mut found = Vec::new(alloc);
    'numbers: loop {
        let bad = cursor.fault(SourceKind::BadInt);
        let Some(text) = cursor.take_text()? else {
            break;
        };
        let Some(number) = read_element(text.as_slice()) else {
            return Err(bad);
        };
        found.push(number)?;
        cursor.take(Punctuation::Comma)?;
    }
    Ok(found)
}

/// Reads the content of a body of a type without children, up to its closing brace.
pub fn read_leaf(alloc: Global, cursor: &mut Cursor, leaf: Leaf) -> Result<Tree, SourceFault>
    ensures same_end { cursor.new.end ≡ cursor.old.end }
    ensures exact { (w : reading.Word) → word_of w ≡ word.Leaf leaf
        → Reads IsLeafTree cursor.old.end result cursor.new.rest
        (leaf_at w cursor.old.rest) }
    ensures no_longer { OnOk result (length cursor.new.rest ≤ length cursor.old.rest) }
{
    match leaf {
        Leaf::String => Ok(Tree::String(read_text(alloc, cursor)?)),
        Leaf::Alias => Ok(Tree::Alias(read_text(alloc, cursor)?)),
        Leaf::Binary => Ok(Tree::Binary(read_binary(alloc, cursor)?)),
        Leaf::Int => Ok(Tree::Int(read_number(cursor)?)),
        Leaf::Ints => Ok(Tree::Ints(NumberList::from_vec(read_numbers(alloc, cursor)?))),
    }
}
