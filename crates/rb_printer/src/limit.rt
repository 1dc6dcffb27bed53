ghost use Rattle.std.specs.Prelude.{◌≡◌, ◌<◌, ◌+◌, ◌≤◌, true, false};
ghost use Rattle.rb_lexer.specs.Limits.{source_limit};

/// The maximum length of a text that `parse` accepts.
pub const LENGTH_LIMIT: usize = 8_388_608;

pub fn fits_limit(length: usize, more: usize) -> bool
    ensures fits { result ≡ true → length + more ≤ source_limit }
    ensures exceeds { result ≡ false → source_limit < length + more }
{
    length <= LENGTH_LIMIT && more <= LENGTH_LIMIT - length
}
