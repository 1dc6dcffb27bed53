ghost use Rattle.std.specs.Prelude.{◌≡◌, IfOk, MatchResult, string_bytes, true};
ghost use Rattle.rb_tree.specs.View.{view_of};
ghost use Rattle.rb_json.specs.Printed.{is_within, laid_out};
ghost use Rattle.rb_json.specs.Value.{value_of};
ghost use Rattle.rb_format.specs.File.{Denotes, source_tree_of};
ghost use Rattle.rb_lexer.specs.declared.fault.SourceKind.TheVariants.{Memory};
ghost use Rattle.rb_parser.specs.Source.{source_tree};
ghost use Rattle.rb_writer.specs.Written.{IsWriterFile};

use crate::sound::look_at;
use rb_json::{Buffer, Layout, is_within, put_value};
use rb_json_reader::laws::one_arrangement;
use rb_json_reader::{JsonFault, read_tree};
use rb_lexer::SourceFault;
use rb_parser::{Source, parse};
use rb_printer::{PrintError, print_bundle};
use rb_tree::{Tree, UnitList};
use rb_validator::Bundle;
use rb_writer::write;
use std::alloc::Global;

/// Prints a file and parses the text. The name, the tree and the flag are the same, unless memory
/// runs out.
pub fn round_trip(
    alloc: Global,
    name: &UnitList,
    bundle: &Bundle,
) -> Result<Result<Source, SourceFault>, PrintError>
    ensures { IfOk result (λ read. MatchResult read
        (λ s. (s.name ≡ name.now) × (source_tree s ≡ source_tree_of bundle.now))
        (λ e. e.kind ≡ Memory)) }
{
    let text = print_bundle(alloc, name, bundle)?;
    Ok(parse(alloc, &text))
}

/// Prints a file, parses the text and writes a file. It has the same tree and the same flag. If
/// `write` made the printed file, both files have the same bytes.
pub fn again(alloc: Global, name: &UnitList, bundle: &Bundle) -> Result<Vec<u8>, PrintError>
    ensures denotes { IfOk result (λ file. Denotes file.items (source_tree_of bundle.now)) }
    ensures same { IfOk result (λ file. IsWriterFile (source_tree_of bundle.now).tree
        (source_tree_of bundle.now).no_fallback bundle.now → file.items ≡ bundle.now) }
{
    let text = print_bundle(alloc, name, bundle)?;
    match parse(alloc, &text) {
        Ok(source) => Ok(write(alloc, &source.tree, source.no_fallback)?),
        Err(_) => Err(PrintError::Memory),
    }
}

/// Returns a tree as JSON.
fn json_text(alloc: Global, tree: &Tree, layout: Layout) -> Result<String, PrintError>
    ensures text { IfOk result
        (λ text. string_bytes text ≡ laid_out layout (value_of (view_of tree.now))) }
    ensures within { IfOk result (λ _. is_within (view_of tree.now) ≡ true) }
{
    if !is_within(tree) {
        return Err(PrintError::TooLarge);
    }
    let mut out = Buffer::new(alloc);
    put_value(&mut out, tree, layout);
    let bytes = out.into_bytes()?;
    match String::from_utf8(bytes) {
        Ok(text) => Ok(text),
        Err(_) => Err(PrintError::Memory),
    }
}

/// Prints a tree as JSON and reads the text. The tree that is read is the same, in each layout; an
/// error is the only other result.
pub fn json_round_trip(
    alloc: Global,
    tree: &Tree,
    layout: Layout,
) -> Result<Result<Tree, JsonFault>, PrintError>
    ensures { IfOk result (λ read. IfOk read (λ t. view_of t ≡ view_of tree.now)) }
{
    one_arrangement();
    look_at(tree);
    let text = json_text(alloc, tree, layout)?;
    match read_tree(alloc, text.as_bytes()) {
        Ok(other) => {
            look_at(&other);
            Ok(Ok(other))
        }
        Err(fault) => Ok(Err(fault)),
    }
}
