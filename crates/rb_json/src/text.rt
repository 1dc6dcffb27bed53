ghost use Rattle.std.specs.Prelude.{◌≡◌, MatchOption, encode_utf8_all};
ghost use Rattle.std.specs.Str.{IsAscii, IsNotAscii};

#[tactic(auto, using(crate::proofs::Latin::is_utf8))]
fn ascii_text(bytes: &[u8]) -> &str
    requires { IsAscii bytes.now }
    ensures { result.now ≡ bytes.now }
{
    // SAFETY: ASCII is UTF-8
    unsafe { str::from_utf8_unchecked(bytes) }
}

/// Returns ASCII bytes as a text without a copy, or `None` for other bytes.
#[tactic(auto, using(crate::proofs::Latin::ascii_text))]
pub(crate) fn ascii(bytes: &[u8]) -> Option<&str>
    ensures { MatchOption result (IsNotAscii bytes.now)
        (λ text. text.now ≡ encode_utf8_all bytes.now) }
{
    if bytes.is_ascii() {
        Some(ascii_text(bytes))
    } else {
        None
    }
}
