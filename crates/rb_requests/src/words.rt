ghost use Rattle.std.specs.Prelude.{◌≡◌};
ghost use Rattle.rb_requests.specs.Words.{line_error_word, serve_word};

use crate::lines::ServeFault;
use rb_tree::variant_name;

/// An error that the server itself finds in a line or a reply, and answers.
#[derive(Clone, Copy, Debug, PartialEq, Eq)]
pub(crate) enum LineError {
    /// The line is no request.
    BadLine,
    LineTooLong,
    ReplyTooLong,
    Memory,
}

impl LineError {
    /// Returns the code, which is the variant's name.
    pub(crate) fn word(self) -> &'static str
        ensures { result.now ≡ line_error_word self }
    {
        variant_name!(self: LineError { BadLine, LineTooLong, ReplyTooLong, Memory })
    }
}

impl ServeFault {
    /// Returns the code, which is the variant's name.
    pub fn word(self) -> &'static str
        ensures { result.now ≡ serve_word self }
    {
        variant_name!(self: ServeFault { Read, Write, LineLimit, LineTooLong, Memory })
    }
}
