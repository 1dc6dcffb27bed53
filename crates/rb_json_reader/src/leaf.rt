ghost use Rattle.std.specs.Prelude.{◌≡◌, ◌<◌, ◌∷◌, [], ◌++◌, length, map, true, false};
ghost use Rattle.std.specs.Prelude.{IfOk, OnOk, encode_utf8_all};
ghost use Rattle.std.specs.Char.Utf16.{has_unpaired_surrogate, utf16_lossy_chars};
ghost use Rattle.hex.specs.Hex.{encode_lower};
ghost use Rattle.json.specs.Token as spec;
ghost use Rattle.serde_json.specs.Data.{array, number};
ghost use Rattle.serde_json.specs.View.{items_of};
ghost use Rattle.rb_json.specs.Tokens.{data_tokens};
ghost use Rattle.rb_json.specs.Value.{value_of};
ghost use Rattle.rb_tree.specs.Parts.{HasUnits, kind_of, units_of};
ghost use Rattle.rb_tree.specs.View.{view_of};
ghost use Rattle.rb_json_reader.specs.Arranged.{Arranges};
ghost use Rattle.rb_json_reader.specs.inner.Reading.{ReadsLeaf, ReadsTag};

use crate::fault::{Fault, JsonFaultKind};
use crate::input::Input;
use crate::number::{Element, read_int};
use crate::text::units_of;
use hex::FromHexError;
use json::Token;
use rb_json::is_well_formed;
use rb_tree::{ByteList, OwnedList, Tree, UnitList};
use std::alloc::Global;

/// Counts the weight of a String or an Alias of this many units.
fn spend_units(input: &mut Input, at: usize, len: usize) -> Result<(), Fault>
    ensures { input.new.reader ≡ input.old.reader }
{
    input.spend(at, (len as u64).saturating_mul(2).saturating_add(8))
}

/// Reads a text as units.
fn read_text(alloc: Global, input: &mut Input, at: usize, text: &str) -> Result<UnitList, Fault>
    ensures same { input.new.reader ≡ input.old.reader }
    ensures paired { IfOk result (λ us. has_unpaired_surrogate us ≡ false) }
    ensures text { IfOk result (λ us. encode_utf8_all (utf16_lossy_chars us) ≡ text.now) }
{
    let units = units_of(alloc, text)?;
    spend_units(input, at, units.as_slice().len())?;
    Ok(units)
}

/// Reads a String from its characters.
#[tactic(auto, using(crate::proofs::Leaves::string_read))]
pub(crate) fn read_string(
    alloc: Global,
    input: &mut Input,
    at: usize,
    text: &str,
) -> Result<Tree, Fault>
    ensures same { input.new.reader ≡ input.old.reader }
    ensures tokens { IfOk result
        (λ t. spec.string text.now ∷ [] ≡ data_tokens (value_of (view_of t))) }
    ensures leaf { IfOk result (λ t. Arranges (view_of t) (view_of t)) }
{
    Ok(Tree::String(read_text(alloc, input, at, text)?))
}

/// Reads an Int.
#[tactic(auto, using(crate::proofs::Leaves::int_read))]
pub(crate) fn read_number(at: usize, text: &str) -> Result<Tree, Fault>
    ensures tokens { IfOk result
        (λ t. spec.number text.now ∷ [] ≡ data_tokens (value_of (view_of t))) }
    ensures leaf { IfOk result (λ t. Arranges (view_of t) (view_of t)) }
{
    match read_int(text) {
        Some(number) => Ok(Tree::Int(number)),
        None => Err(Fault::new(JsonFaultKind::BadNumber, at)),
    }
}

/// Takes the next token as a number, or fails with `BadNumber`.
fn number_text<'a>(input: &mut Input<'a>) -> Result<&'a str, Fault>
    ensures token { IfOk result
        (λ s. input.old.reader ≡ spec.number s.now ∷ input.new.reader) }
    ensures shorter { OnOk result (length input.new.reader < length input.old.reader) }
{
    let at = input.at();
    match input.token()? {
        Token::Number(text) => Ok(text),
        Token::Bad => Err(Fault::new(JsonFaultKind::NotJson, at)),
        _ => Err(Fault::new(JsonFaultKind::BadNumber, at)),
    }
}

/// Reads the numbers of a list, and its closing bracket.
fn read_list<E: Element>(alloc: Global, input: &mut Input) -> Result<OwnedList<E>, Fault>
    ensures tokens { IfOk result (λ xs. spec.begin_array ∷ input.old.reader
        ≡ data_tokens (array (items_of (map (λ x. number (E.number x)) xs))) ++ input.new.reader) }
    ensures shorter { OnOk result (length input.new.reader < length input.old.reader) }
{
    let mut elements = Vec::new(alloc);
    while !input.take_end_array() {
        let at = input.at();
        let Some(element) = E::read(number_text(input)?) else {
            return Err(Fault::new(JsonFaultKind::BadNumber, at));
        };
        input.spend(at, E::WEIGHT)?;
        elements.push(element)?;
    }
    Ok(OwnedList::from_vec(elements))
}

/// Returns the tree if its text isn't well-formed UTF-16, as one that is given by its units.
fn ill_formed(at: usize, tree: Tree) -> Result<Tree, Fault>
    requires { HasUnits (kind_of (view_of tree)) }
    ensures same { IfOk result (λ t. t ≡ tree) }
    ensures unpaired { IfOk result
        (λ t. has_unpaired_surrogate (units_of (view_of t)) ≡ true) }
{
    if is_well_formed(&tree) {
        return Err(Fault::new(JsonFaultKind::BadUnits, at));
    }
    Ok(tree)
}

/// Reads bytes from lower-case hexadecimal digits, two a byte.
fn read_bytes(alloc: Global, at: usize, text: &str) -> Result<Vec<u8>, Fault>
    ensures { IfOk result (λ bytes. text.now ≡ encode_lower bytes.items) }
{
    let bytes = match hex::decode(alloc, text) {
        Ok(bytes) => bytes,
        Err(FromHexError::OutOfMemory) => return Err(Fault::new(JsonFaultKind::Memory, 0)),
        Err(_) => return Err(Fault::new(JsonFaultKind::BadBinary, at)),
    };
    // Digits are compared with those that are printed: others would be a second text of the bytes.
    let printed = hex::encode(alloc, bytes.as_slice())?;
    if printed.as_str() != text {
        return Err(Fault::new(JsonFaultKind::BadBinary, at));
    }
    Ok(bytes)
}

/// Reads the value of a tag that is a string.
#[tactic(auto, using(crate::proofs::Leaves::alias_read, crate::proofs::Leaves::binary_read))]
fn read_string_tag(
    alloc: Global,
    input: &mut Input,
    at: usize,
    name: &str,
    text: &str,
) -> Result<Tree, Fault>
    ensures same { input.new.reader ≡ input.old.reader }
    ensures reads { IfOk result (λ t.
        ReadsTag name.now (spec.string text.now ∷ input.old.reader) (view_of t) input.new.reader) }
{
    match name {
        ":alias" => Ok(Tree::Alias(read_text(alloc, input, at, text)?)),
        ":bin" => {
            let bytes = read_bytes(alloc, at, text)?;
            input.spend(at, (bytes.len() as u64).saturating_add(20))?;
            Ok(Tree::Binary(ByteList::from_vec(bytes)))
        }
        _ => Err(Fault::new(JsonFaultKind::BadTag, at)),
    }
}

/// Reads the value of a tag that is a list, after its opening bracket.
#[tactic(auto, using(crate::proofs::Leaves::lone_alias_read, crate::proofs::Leaves::ints_read, crate::proofs::Leaves::units_read))]
fn read_list_tag(alloc: Global, input: &mut Input, at: usize, name: &str) -> Result<Tree, Fault>
    ensures reads { IfOk result (λ t.
        ReadsTag name.now (spec.begin_array ∷ input.old.reader) (view_of t) input.new.reader) }
    ensures shorter { OnOk result (length input.new.reader < length input.old.reader) }
{
    match name {
        ":alias" => {
            input.spend(at, 8)?;
            ill_formed(at, Tree::Alias(read_list(alloc, input)?))
        }
        ":intvector" => {
            input.spend(at, 4)?;
            Ok(Tree::Ints(read_list(alloc, input)?))
        }
        ":units" => {
            input.spend(at, 8)?;
            ill_formed(at, Tree::String(read_list(alloc, input)?))
        }
        _ => Err(Fault::new(JsonFaultKind::BadTag, at)),
    }
}

/// Reads the value of a tag, whose name begins at a byte.
fn read_tag_value(
    alloc: Global,
    input: &mut Input,
    name_at: usize,
    name: &str,
) -> Result<Tree, Fault>
    ensures reads { IfOk result (λ t.
        ReadsTag name.now input.old.reader (view_of t) input.new.reader) }
    ensures shorter { OnOk result (length input.new.reader < length input.old.reader) }
{
    if !matches!(name, ":alias" | ":bin" | ":intvector" | ":units") {
        return Err(Fault::new(JsonFaultKind::BadTag, name_at));
    }
    let at = input.at();
    match input.token()? {
        Token::String(text) => read_string_tag(alloc, input, at, name, text),
        Token::BeginArray => read_list_tag(alloc, input, at, name),
        Token::Bad => Err(Fault::new(JsonFaultKind::NotJson, at)),
        _ => Err(Fault::new(JsonFaultKind::BadTag, at)),
    }
}

/// Reads the value of a tag and the brace that closes its object, which has no other member.
#[tactic(auto, using(crate::proofs::Leaves::closed))]
pub(crate) fn read_tagged(
    alloc: Global,
    input: &mut Input,
    at: usize,
    name: &str,
) -> Result<Tree, Fault>
    ensures reads { IfOk result (λ t. ReadsLeaf
        (spec.begin_object ∷ spec.key name.now ∷ input.old.reader) (view_of t) input.new.reader) }
    ensures shorter { OnOk result (length input.new.reader < length input.old.reader) }
{
    let tree = read_tag_value(alloc, input, at, name)?;
    let at = input.at();
    match input.key()? {
        None => Ok(tree),
        Some(_) => Err(Fault::new(JsonFaultKind::BadTag, at)),
    }
}
