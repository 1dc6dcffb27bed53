ghost use Rattle.std.specs.Prelude.{◌≡◌, ◌<◌, ◌≤◌, ◌∷◌, length, Some, None, IfOk, OnOk, OnErr};
ghost use Rattle.json.specs.Json.{items as items_of, members as members_of, value as value_of};
ghost use Rattle.json.specs.Reads.{token_of};
ghost use Rattle.serde_json.specs.Data.{Data, Items, Members, no_members};
ghost use Rattle.serde_json.specs.Read.{converted, of_json, of_items, of_members};
ghost use Rattle.rb_requests.specs.inner.Texts.{IsMember};

use crate::number::is_in_range;
use json::{Invalid, Reader, Token};

/// The value that an object has at a name.
#[derive(Clone, Copy, PartialEq, Eq)]
pub enum Member<'a> {
    Text(&'a str),
    Flag(bool),
    /// Any other value, which is not stored.
    Other,
}

/// Reads a value whose arrays and objects nest at most `depth` deep.
#[cycle(read_value)]
#[inline(always)]
pub(crate) fn read_value<'a>(reader: &mut Reader<'a>, depth: usize) -> Result<Member<'a>, Invalid>
    ensures ok { IfOk result (λ m. (d : Data) × IsMember m d
        × (converted of_json (value_of depth reader.old) ≡ Some (d, reader.new))) }
    ensures err { OnErr result (converted of_json (value_of depth reader.old) ≡ None) }
    ensures shorter { OnOk result (length reader.new < length reader.old) }
{
    let token = reader.next().ok_or(Invalid)?;
    read_after(reader, token, depth)
}

/// Reads a value after its first token. Its arrays and objects nest at most `depth` deep.
#[cycle(read_value)]
#[inline(always)]
pub(crate) fn read_after<'a>(
    reader: &mut Reader<'a>,
    token: Token<'a>,
    depth: usize,
) -> Result<Member<'a>, Invalid>
    ensures ok { IfOk result (λ m. (d : Data) × IsMember m d × (converted of_json
        (value_of depth (token_of token.entry ∷ reader.old)) ≡ Some (d, reader.new))) }
    ensures err { OnErr result
        (converted of_json (value_of depth (token_of token.entry ∷ reader.old)) ≡ None) }
    ensures shorter { OnOk result (length reader.new ≤ length reader.old) }
{
    match token {
        Token::String(text) => Ok(Member::Text(text)),
        Token::Number(text) => {
            if is_in_range(text) {
                Ok(Member::Other)
            } else {
                Err(Invalid)
            }
        }
        Token::Bool(flag) => Ok(Member::Flag(flag)),
        Token::Null => Ok(Member::Other),
        Token::EndObject | Token::EndArray | Token::Key(_) | Token::Bad => Err(Invalid),
        Token::BeginArray => {
            if depth == 0 {
                return Err(Invalid);
            }
            pass_items(reader, depth - 1)?;
            Ok(Member::Other)
        }
        Token::BeginObject => {
            if depth == 0 {
                return Err(Invalid);
            }
            pass_members(reader, depth - 1)?;
            Ok(Member::Other)
        }
    }
}

#[cycle(read_value)]
#[inline(never)]
fn pass_items(reader: &mut Reader<'_>, depth: usize) -> Result<(), Invalid>
    ensures ok { OnOk result ((ds : Items) × (converted of_items
        (items_of (value_of depth) (length reader.old) reader.old) ≡ Some (ds, reader.new))) }
    ensures err { OnErr result
        (converted of_items (items_of (value_of depth) (length reader.old) reader.old) ≡ None) }
    ensures shorter { OnOk result (length reader.new < length reader.old) }
{
    'items: while !reader.take_end_array() {
        let _item = read_value(reader, depth)?;
    }
    Ok(())
}

#[cycle(read_value)]
#[inline(never)]
fn pass_members(reader: &mut Reader<'_>, depth: usize) -> Result<(), Invalid>
    ensures ok { OnOk result ((found : Members)
        × (converted (λ ms. of_members ms no_members)
        (members_of (value_of depth) (length reader.old) reader.old) ≡ Some (found, reader.new))) }
    ensures err { OnErr result (converted (λ ms. of_members ms no_members)
        (members_of (value_of depth) (length reader.old) reader.old) ≡ None) }
    ensures shorter { OnOk result (length reader.new < length reader.old) }
{
    'members: while let Some(_) = reader.next_key()? {
        let _member = read_value(reader, depth)?;
    }
    Ok(())
}
