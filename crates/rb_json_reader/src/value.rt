ghost use Rattle.std.specs.Prelude.{◌≡◌, ◌<◌, ◌≤◌, ◌∷◌, length, OnOk, IfOk};
ghost use Rattle.json.specs.Token as spec;
ghost use Rattle.rb_json.specs.Value.{key_text};
ghost use Rattle.rb_tree.specs.Keys.{IsKey};
ghost use Rattle.rb_tree.specs.View.{view_of};
ghost use Rattle.rb_json_reader.specs.inner.Reading.{Reads};

use crate::fault::{Fault, JsonFaultKind};
use crate::input::Input;
use crate::key::{is_tag, read_key};
use crate::leaf::{read_number, read_string, read_tagged};
use crate::rows::Rows;
use json::Token;
use rb_tree::{Key, Tree, TreeList};
use std::alloc::Global;

/// Reads a value of at most `depth` levels.
#[cycle(value)]
pub(crate) fn read_value(alloc: Global, input: &mut Input, depth: u64) -> Result<Tree, Fault>
    ensures reads { IfOk result
        (λ t. Reads input.old.reader (view_of t) input.new.reader) }
    ensures shorter { OnOk result (length input.new.reader < length input.old.reader) }
{
    let at = input.at();
    let token = input.token()?;
    if depth == 0 {
        return Err(depth_fault(at, &token));
    }
    match token {
        Token::String(text) => read_string(alloc, input, at, text),
        Token::Number(text) => read_number(at, text),
        Token::BeginArray => read_array(alloc, input, at, depth - 1),
        Token::BeginObject => read_object(alloc, input, depth - 1),
        Token::Bool(_) | Token::Null => Err(Fault::new(JsonFaultKind::UnknownValue, at)),
        Token::EndObject | Token::EndArray | Token::Key(_) | Token::Bad => {
            Err(Fault::new(JsonFaultKind::NotJson, at))
        }
    }
}

/// Makes the error where no deeper value is allowed: `TooDeep` if one begins, or `NotJson`.
fn depth_fault(at: usize, token: &Token) -> Fault {
    let kind = match token {
        Token::EndObject | Token::EndArray | Token::Key(_) | Token::Bad => JsonFaultKind::NotJson,
        _ => JsonFaultKind::TooDeep,
    };
    Fault::new(kind, at)
}

/// Reads the items of an array and its closing bracket. Each has at most `depth` levels.
#[cycle(value)]
fn read_array(alloc: Global, input: &mut Input, at: usize, depth: u64) -> Result<Tree, Fault>
    ensures reads { IfOk result
        (λ t. Reads (spec.begin_array ∷ input.old.reader) (view_of t) input.new.reader) }
    ensures shorter { OnOk result (length input.new.reader < length input.old.reader) }
{
    input.spend(at, 4)?;
    let mut trees = Vec::new(alloc);
    while !input.take_end_array() {
        let at = input.at();
        let tree = read_value(alloc, input, depth)?;
        input.spend(at, 4)?;
        trees.push(tree)?;
    }
    Ok(Tree::Array(TreeList::from_vec(trees)))
}

/// Reads the members of an object and its closing brace: a table or a tagged value. Each value of
/// a table has at most `depth` levels.
#[cycle(value)]
fn read_object(alloc: Global, input: &mut Input, depth: u64) -> Result<Tree, Fault>
    ensures reads { IfOk result
        (λ t. Reads (spec.begin_object ∷ input.old.reader) (view_of t) input.new.reader) }
    ensures shorter { OnOk result (length input.new.reader < length input.old.reader) }
{
    let at = input.at();
    let Some(name) = input.key()? else {
        input.spend(at, 8)?;
        return Rows::new(alloc).table(alloc);
    };
    if is_tag(name.as_bytes()) {
        return read_tagged(alloc, input, at, name);
    }
    read_table(alloc, input, at, name, depth)
}

/// Reads the entries of a table, from its first key on, and its closing brace.
#[cycle(value)]
#[tactic(auto, using(crate::proofs::Keys::keys_more))]
fn read_table<'a>(
    alloc: Global,
    input: &mut Input<'a>,
    first: usize,
    name: &'a str,
    depth: u64,
) -> Result<Tree, Fault>
    ensures reads { IfOk result (λ t. Reads
        (spec.begin_object ∷ spec.key name.now ∷ input.old.reader) (view_of t) input.new.reader) }
    ensures no_longer { OnOk result (length input.new.reader ≤ length input.old.reader) }
{
    input.spend(first, 8)?;
    let mut rows = Rows::new(alloc);
    let mut at = first;
    let mut next = Some(name);
    while let Some(name) = next {
        let key = key_at(alloc, input, at, name)?;
        let tree = read_value(alloc, input, depth)?;
        rows.add(at, key, tree)?;
        at = input.at();
        next = input.key()?;
    }
    rows.table(alloc)
}

/// Reads a key of a table, or fails with `BadTag` or `BadKey`.
fn key_at(alloc: Global, input: &mut Input, at: usize, name: &str) -> Result<Key, Fault>
    ensures same { input.new.reader ≡ input.old.reader }
    ensures key { IfOk result (λ key. IsKey key × (key_text key ≡ name.now)) }
{
    if is_tag(name.as_bytes()) {
        return Err(Fault::new(JsonFaultKind::BadTag, at));
    }
    let Some(key) = read_key(alloc, name.as_bytes())? else {
        return Err(Fault::new(JsonFaultKind::BadKey, at));
    };
    input.spend(at, (key.as_slice().len() as u64).saturating_add(9))?;
    Ok(key)
}
