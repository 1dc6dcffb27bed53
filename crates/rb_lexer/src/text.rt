ghost use Rattle.std.specs.Prelude.{◌≡◌, ◌<◌, ◌≤◌, ◌+◌, ◌==◌, ◌^◌, length, take, count_by, IsUtf8};
ghost use Rattle.std.specs.Prelude.{MatchResult};
ghost use Rattle.std.specs.Str.{IsValidUpTo};
ghost use Rattle.rb_lexer.specs.declared.fault.SourceKind.TheVariants.{NotUtf8, TooLong};
ghost use Rattle.rb_lexer.specs.Tokens.{line_of};
ghost use Rattle.rb_lexer.specs.Faults.{IsTextFault};
ghost use Rattle.rb_lexer.specs.Limits.{source_limit};

use crate::fault::{SourceFault, SourceKind};
use crate::limits::SOURCE_LIMIT;
use bstr::ByteSlice;

#[tactic(auto, using(std::proofs::lemmas::List::Sums::count_by_more_yes, std::proofs::lemmas::List::Sums::count_by_more_no))]
fn count_line_feeds(bytes: &[u8]) -> u64
    ensures { result ≡ count_by (λ b. b == 0x0A) bytes.now }
{
    let mut feeds = 0;
    for byte in bytes {
        if *byte == b'\n' {
            feeds += 1;
        }
    }
    feeds
}

/// Counts the line feeds in a byte range.
pub fn line_feeds(bytes: &[u8], first: usize, past: usize) -> u64
    requires order { first ≤ past }
    requires within { past ≤ length bytes.now }
    ensures { line_of bytes.now first + result ≡ line_of bytes.now past }
{
    count_line_feeds(&bytes[first..past])
}

/// Returns the line of a byte: 1 and the line feeds before it.
pub fn line_at(bytes: &[u8], at: usize) -> u64
    requires { at ≤ length bytes.now }
    ensures { result ≡ line_of bytes.now at }
{
    line_feeds(bytes, 0, at) + 1
}

/// Decodes a source, or returns `NotUtf8` at the first byte at which no character begins.
pub fn text_of(bytes: &[u8]) -> Result<&str, SourceFault>
    ensures { MatchResult result
        (λ text. (length bytes.now ≤ source_limit) × (text.now ≡ bytes.now) × IsUtf8 bytes.now)
        (λ e. IsTextFault bytes.now e.kind e.line) }
{
    if bytes.len() > SOURCE_LIMIT {
        return Err(SourceFault {
            kind: SourceKind::TooLong,
            line: 1,
        });
    }
    match bytes.to_str() {
        Ok(text) => Ok(text),
        Err(e) => Err(SourceFault {
            kind: SourceKind::NotUtf8,
            line: line_at(bytes, e.valid_up_to()),
        }),
    }
}
