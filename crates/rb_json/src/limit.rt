ghost use Rattle.std.specs.Prelude.{◌≡◌, ◌+◌, ◌<◌, ◌≤◌};
ghost use Rattle.rb_tree.specs.Parts.{kind_of};
ghost use Rattle.rb_tree.specs.declared.kind.Kind.TheVariants as Kinds;
ghost use Rattle.rb_json.specs.Printed.{is_within};
ghost use Rattle.rb_json.specs.inner.Room.{IsRoomAfter};
ghost use Rattle.rb_tree.specs.Limits.{weight_limit};

use rb_tree::{HEIGHT_LIMIT, Kind, Node, WEIGHT_LIMIT};

/// Subtracts a tree's weight from `room`, or returns `None` if the tree has more than `levels`
/// levels or weighs more than `room`.
#[cycle(room)]
fn room_after<N: Node>(node: N, levels: u64, room: u64) -> Option<u64>
    requires levels { levels ≤ 64 }
    requires room { room ≤ weight_limit }
    ensures { IsRoomAfter (N.tree node) levels room result }
{
    if levels == 0 {
        return None;
    }
    let len = node.len() as u64;
    match node.kind() {
        Kind::String => room.checked_sub(len.saturating_mul(2).saturating_add(8)),
        Kind::Alias => room.checked_sub(len.saturating_mul(2).saturating_add(8)),
        Kind::Int => Some(room),
        Kind::Ints => room.checked_sub(len.saturating_mul(4).saturating_add(4)),
        Kind::Binary => room.checked_sub(len.saturating_add(20)),
        Kind::Array => {
            let mut left = room.checked_sub(4)?;
            for i in 0..node.len() {
                left = room_after(node.at(i), levels - 1, left.checked_sub(4)?)?;
            }
            Some(left)
        }
        Kind::Table => room_after_entries(node, levels - 1, room),
    }
}

#[cycle(room)]
fn room_after_entries<N: Node>(node: N, levels: u64, room: u64) -> Option<u64>
    requires table { kind_of (N.tree node) ≡ Kinds.Table }
    requires levels { levels < 64 }
    requires room { room ≤ weight_limit }
    ensures { IsRoomAfter (N.tree node) (levels + 1) room result }
{
    let mut left = room.checked_sub(8)?;
    for i in 0..node.len() {
        let key = node.key_at(i).len() as u64;
        left = room_after(node.at(i), levels, left.checked_sub(key.saturating_add(9))?)?;
    }
    Some(left)
}

/// Checks whether an item is within the limits of `json_text`: at most 64 levels and a weight of at
/// most 33,554,432. It takes no memory, and reads no more of a heavier item than has that weight.
pub fn is_within<N: Node>(node: N) -> bool
    ensures { result ≡ is_within (N.tree node) }
{
    room_after(node, HEIGHT_LIMIT, WEIGHT_LIMIT).is_some()
}
