//! Writes each part of a name in the case that its position requires.
ghost use Rattle.std.specs.Prelude.{◌≡◌, ◌<◌, ◌≤◌, length, if◌then◌else◌, Some, None, List, ℕ};
ghost use Rattle.std.specs.Prelude.{Option};
ghost use Rattle.std.specs.List.{list_all, position_or_len};
ghost use Rattle.std.specs.Char.{is_ascii_alphabetic, is_ascii_alphanumeric};
ghost use Rattle.rb_locales.specs.Locale.{is_between, next_position, part_at, written, title};
ghost use Rattle.rb_locales.specs.Locale.{subtag};
ghost use Rattle.rb_locales.specs.inner.Positions.{position_of};

/// The position of a part in its name.
#[derive(Clone, Copy)]
pub(crate) enum Position {
    First,
    Second,
    Later,
}

fn are_letters(part: &[u8]) -> bool
    ensures { result ≡ list_all is_ascii_alphabetic part.now }
{
    part.iter().all(|b| b.is_ascii_alphabetic())
}

fn are_alphanumeric(part: &[u8]) -> bool
    ensures { result ≡ list_all is_ascii_alphanumeric part.now }
{
    part.iter().all(|b| b.is_ascii_alphanumeric())
}

fn write_title(part: &mut [u8])
    requires { 0 < length part.old }
    ensures { part.new ≡ title part.old }
{
    part[..1].make_ascii_uppercase();
    part[1..].make_ascii_lowercase();
}

fn write_subtag(part: &mut [u8]) -> bool
    ensures { subtag part.old ≡ (if result then Some part.new else None) }
{
    if part.is_empty() || part.len() > 8 || !are_alphanumeric(part) {
        return false;
    }
    part.make_ascii_uppercase();
    true
}

fn write_part(position: Position, part: &mut [u8]) -> bool
    ensures { part_at (position_of position) part.old ≡ (if result then Some part.new else None) }
{
    match position {
        Position::First => {
            if part.len() < 2 || part.len() > 8 || !are_letters(part) {
                return false;
            }
            part.make_ascii_lowercase();
            true
        }
        Position::Second => {
            if part.len() == 4 && are_letters(part) {
                write_title(part);
                return true;
            }
            write_subtag(part)
        }
        Position::Later => write_subtag(part),
    }
}

#[tactic(auto, using(std::proofs::lemmas::List::Sums::position_or_len_is))]
fn part_end(rest: &[u8]) -> usize
    ensures first { result ≡ position_or_len is_between rest.now }
    ensures within { result ≤ length rest.now }
{
    for (i, b) in rest.iter().enumerate() {
        if *b == b'_' || *b == b'-' {
            return i;
        }
    }
    rest.len()
}

fn following(position: Position) -> Position
    ensures { position_of result ≡ next_position (position_of position) }
{
    match position {
        Position::First => Position::Second,
        _ => Position::Later,
    }
}

/// Writes the remaining parts in place, and returns false if one isn't allowed at its position.
#[tactic(auto, using(crate::proofs::Parts::written_bad, crate::proofs::Parts::written_last))]
pub(crate) fn write_parts(position: Position, rest: &mut [u8]) -> bool
    ensures { written (position_of position) rest.old ≡ (if result then Some rest.new else None) }
{
    let end = part_end(rest);
    if !write_part(position, &mut rest[..end]) {
        return false;
    }
    if end == rest.len() {
        return true;
    }
    rest[end] = b'_';
    write_parts(following(position), &mut rest[end + 1..])
}
