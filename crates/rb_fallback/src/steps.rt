ghost use Rattle.std.specs.Prelude.{◌≡◌, ◌≤◌, ◌+◌, ◌*◌, count_by, length};
ghost use Rattle.rb_tree.specs.Path.{is_slash, segments};
ghost use Rattle.rb_fallback.specs.inner.Budget.{spend};
ghost use Rattle.rb_fallback.specs.Limits.{path_limit};

use crate::fault::BoundedError;

/// Counts the names of a trail whose stops are given. Under a limit each name takes steps.
#[derive(Clone, Copy)]
pub struct TrailNames {
    /// All names.
    pub all: u8,
    /// The names from the first stop on.
    pub from_valid: u8,
}

/// Counts slashes in 16 bits, which suffice for a path, so that clang tests 8 bytes at a time.
#[tactic(auto, using(std::proofs::lemmas::List::Sums::count_by_more_no, std::proofs::lemmas::List::Sums::count_by_more_yes))]
fn slash_count(path: &[u8]) -> usize
    requires { length path.now ≤ path_limit }
    ensures { result ≡ count_by is_slash path.now }
{
    let mut count = 0u16;
    for &byte in path {
        count += (byte == b'/') as u16;
    }
    count as usize
}

fn segment_count(path: &[u8]) -> usize
    requires { length path.now ≤ path_limit }
    ensures count { result ≡ length (segments path.now) }
    ensures within { result ≤ length path.now + 1 }
{
    if path.is_empty() {
        return 0;
    }
    slash_count(path) + 1
}

/// Subtracts the steps of a level with this many names from the remaining ones. `None` is no limit.
#[inline(always)]
pub(crate) fn left_after(
    left: Option<u64>,
    names: u8,
    path: &[u8],
) -> Result<Option<u64>, BoundedError>
    requires { length path.now ≤ path_limit }
    ensures { result ≡ spend left (names * (1 + length (segments path.now))) }
{
    let left = match left {
        Some(left) => left,
        None => return Ok(None),
    };
    let steps = names as u64 * (1 + segment_count(path) as u64);
    if left < steps {
        return Err(BoundedError::TooManySteps);
    }
    Ok(Some(left - steps))
}
