ghost use Rattle.std.specs.Prelude.{◌≡◌, ◌==◌, ◌<◌, ◌≤◌, ℕ, List, suc, count_by, IfOk, IfErr};
ghost use Rattle.std.specs.Prelude.{MatchResult};
ghost use Rattle.rb_lexer.specs.declared.fault.SourceKind.TheVariants.{Memory, TooLarge};
ghost use Rattle.rb_tree.specs.Limits.{height_limit, weight_limit};
ghost use Rattle.rb_tree.specs.Parts.{Fits, kind_of};
ghost use Rattle.rb_tree.specs.Resource.{height, weight};
ghost use Rattle.rb_tree.specs.declared.kind.Kind.TheVariants as Kinds;
ghost use Rattle.rb_tree.specs.SourceTree.{SourceTree};
ghost use Rattle.rb_tree.specs.View.{view_of};
ghost use Rattle.rb_grammar.specs.Reading.{type_at, bundle};
ghost use Rattle.rb_grammar.specs.Tests.{the_tests};
ghost use Rattle.rb_parser.specs.inner.Reads.{Reads, IsFlag};
ghost use Rattle.rb_parser.specs.inner.ReadsBundle.{ReadsBundle};
ghost use Rattle.rb_parser.specs.Source.{source_tree, IsGoodSource, last_line, IsFault, IsRefusal};

use crate::cursor::{Cursor, Punctuation};
use crate::parser::read_table;
use crate::word::Word;
use rb_lexer::{SourceFault, SourceKind, Tokens};
use rb_tree::{HEIGHT_LIMIT, Tree, UnitList};
use std::alloc::Global;

/// A bundle, as a text spells it.
#[derive(Drop)]
pub struct Source {
    /// The text before the brace or the type.
    pub name: UnitList,
    pub tree: Tree,
    /// True if a lookup stops at this bundle: its type is `table(nofallback)`.
    pub no_fallback: bool,
}

/// Reads the optional type of a bundle. Returns true for `table(nofallback)`.
fn read_type(cursor: &mut Cursor) -> Result<bool, SourceFault>
    ensures same_end { cursor.new.end ≡ cursor.old.end }
    ensures exact { Reads IsFlag cursor.old.end result cursor.new.rest (type_at cursor.old.rest) }
{
    if !cursor.take(Punctuation::Colon)? {
        return Ok(false);
    }
    if cursor.take_no_fallback_table()? {
        return Ok(true);
    }
    let other = cursor.fault(SourceKind::Unexpected);
    match cursor.word()? {
        Word::Table => Ok(false),
        _ => Err(other),
    }
}

/// Reads a whole bundle, without checking its weight.
fn read_bundle(alloc: Global, cursor: &mut Cursor) -> Result<Source, SourceFault>
    ensures { ReadsBundle cursor.old.end result (bundle the_tests cursor.old.rest) }
{
    let name = cursor.text()?;
    let no_fallback = read_type(cursor)?;
    cursor.expect(Punctuation::Left)?;
    let tree = read_table(alloc, cursor, HEIGHT_LIMIT - 1)?;
    if !cursor.is_at_end() {
        return Err(cursor.fault(SourceKind::TrailingText));
    }
    Ok(Source {
        name,
        tree,
        no_fallback,
    })
}

#[tactic(auto, using(std::proofs::lemmas::List::Sums::count_by_more_yes, std::proofs::lemmas::List::Sums::count_by_more_no))]
fn last_line(bytes: &[u8]) -> u64
    ensures { result ≡ last_line bytes.now }
{
    let mut feeds = 0;
    for byte in bytes {
        if *byte == b'\n' {
            feeds += 1;
        }
    }
    feeds + 1
}

/// Parses a text in the bundle syntax of ICU's genrb. Returns the bundle's name, its tree, which is
/// a table of height at most 64 and weight at most 33,554,432, and whether its type is
/// `table(nofallback)`.
///
/// Returns the first error of the lexer (`TooLong`, `NotUtf8`, `BadEscape`, `OpenQuote` or
/// `OpenComment`), if there is one, else one of these:
///
/// - `Unexpected` at a misplaced token (including `table(nofallback)` below the top), and in the last
///   line of a text that ends too early
/// - `UnknownType` at a text after a colon that is no type
/// - `BadKey` and `DuplicateKey` at a key, `BadInt` and `BadHex` at the text of a number or of bytes
/// - `TooDeep` at a value at level 65, `TrailingText` at the token after the bundle
/// - `TooLarge` in line 1, if the tree weighs too much, and `Memory` in line 0, if out of memory
///
/// If a text has several errors of the parser, one of them is reported.
///
/// ```rust
/// let source = parse(alloc, b"de{menu{open{\"O\"}}}")?; // the name is `de`, the tree's height 3
/// parse(alloc, b"de{\na:int{09}}") // Err: BadInt, line 2
/// ```
pub fn parse(alloc: Global, bytes: &[u8]) -> Result<Source, SourceFault>
    ensures found { IfOk result (λ s. IsGoodSource bytes.now s.name (source_tree s)) }
    // A good source is accepted, unless memory runs out.
    ensures only { (name : List ℕ) (source : SourceTree) → IsGoodSource bytes.now name source
        → MatchResult result (λ s. (s.name ≡ name) × (source_tree s ≡ source))
        (λ e. e.kind ≡ Memory) }
    ensures fits { IfOk result (λ s. Fits (view_of s.tree)) }
    ensures fault { IfErr result (λ e. IsRefusal bytes.now e) }
{
    let source = match parse_unweighed(alloc, bytes) {
        Ok(source) => source,
        Err(fault) => return Err(fault),
    };
    if !source.tree.fits() {
        return Err(SourceFault {
            kind: SourceKind::TooLarge,
            line: 1,
        });
    }
    Ok(source)
}

/// Parses as `parse` does, for callers that weigh the tree themselves: it may weigh too much, which
/// is the error `TooLarge` in line 1.
pub fn parse_unweighed(alloc: Global, bytes: &[u8]) -> Result<Source, SourceFault>
    ensures found { IfOk result
        (λ s. Fits (view_of s.tree) → IsGoodSource bytes.now s.name (source_tree s)) }
    ensures heavy { IfOk result
        (λ s. weight_limit < weight (view_of s.tree) → IsFault bytes.now TooLarge 1) }
    // A good source is accepted, unless memory runs out.
    ensures only { (name : List ℕ) (source : SourceTree) → IsGoodSource bytes.now name source
        → MatchResult result (λ s. (s.name ≡ name) × (source_tree s ≡ source))
        (λ e. e.kind ≡ Memory) }
    ensures table { IfOk result (λ s. kind_of (view_of s.tree) ≡ Kinds.Table) }
    ensures low { IfOk result (λ s. height (view_of s.tree) ≤ height_limit) }
    ensures fault { IfErr result (λ e. IsRefusal bytes.now e) }
{
    let tokens = Tokens::of(alloc, bytes)?;
    let mut cursor = Cursor {
        rest: tokens,
        end: last_line(bytes),
    };
    match read_bundle(alloc, &mut cursor) {
        Ok(source) => Ok(source),
        Err(fault) => Err(without_memory_line(fault)),
    }
}

/// Clears the line if the error is out of memory.
fn without_memory_line(fault: SourceFault) -> SourceFault
    ensures kind { result.kind ≡ fault.kind }
    ensures line { result.kind ≡ Memory → result.line ≡ 0 }
    ensures same { (result.kind ≡ Memory → ⊥) → result.line ≡ fault.line }
{
    match fault.kind {
        SourceKind::Memory => SourceFault {
            kind: SourceKind::Memory,
            line: 0,
        },
        _ => fault,
    }
}
