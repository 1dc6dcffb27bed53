//! The settings of a command's output: quiet or not, and on a terminal or not.
ghost use Rattle.std.specs.Prelude.{◌≡◌, ◌≢◌, ◌↔◌, IfSome, IsSome, IsTrue, true, false};
ghost use Rattle.rb_console.specs.declared.printing.Escapes.TheVariants as Escaping;

use crate::printing::Escapes;
use std::fmt;
use std::io::ErrorKind;

/// The settings of a command's output.
#[derive(Clone, Copy, PartialEq, Eq)]
pub struct Console {
    /// The command prints no line on success.
    pub is_quiet: bool,
    /// Standard error is a terminal: errors name `resb explain` or the reason why a file can't be
    /// read or written, and a command that takes longer than a second reports its progress.
    pub is_terminal: bool,
    /// Standard output is a terminal.
    pub is_output_terminal: bool,
}

impl Console {
    /// Returns a console that prints all lines on success and is no terminal.
    pub fn plain() -> Console
        ensures quiet { result.is_quiet ≡ false }
        ensures terminal { result.is_terminal ≡ false }
        ensures output { result.is_output_terminal ≡ false }
    {
        Console {
            is_quiet: false,
            is_terminal: false,
            is_output_terminal: false,
        }
    }

    /// Returns this console, where no line is printed on success if that is asked for.
    pub fn quieted(self, is_quiet: bool) -> Console
        ensures quiet { result.is_quiet ≡ is_quiet }
        ensures terminal { result.is_terminal ≡ self.is_terminal }
        ensures output { result.is_output_terminal ≡ self.is_output_terminal }
    {
        Console {
            is_quiet,
            is_terminal: self.is_terminal,
            is_output_terminal: self.is_output_terminal,
        }
    }

    /// Returns a name or an argument as it is printed to standard error.
    pub fn on_stderr(self, text: &str) -> ShownName<'_>
        ensures escaped { result.is_escaped ≡ self.is_terminal }
        ensures text { result.text.now ≡ text.now }
    {
        ShownName {
            text,
            is_escaped: self.is_terminal,
        }
    }

    /// Returns a name or an argument as it is printed to standard output.
    pub fn on_stdout(self, text: &str) -> ShownName<'_>
        ensures escaped { result.is_escaped ≡ self.is_output_terminal }
        ensures text { result.text.now ≡ text.now }
    {
        ShownName {
            text,
            is_escaped: self.is_output_terminal,
        }
    }

    /// Returns a character of a text as it is printed to standard output.
    pub fn char_on_stdout(self, character: char) -> ShownChar
        ensures escaped { result.is_escaped ≡ self.is_output_terminal }
        ensures character { result.character ≡ character }
    {
        ShownChar {
            character,
            is_escaped: self.is_output_terminal,
        }
    }

    /// Returns what is escaped in standard output.
    pub fn escapes(self) -> Escapes
        ensures { result ≡ Escaping.Nothing → self.is_output_terminal ≡ false }
    {
        if self.is_output_terminal {
            Escapes::Terminal
        } else {
            Escapes::Nothing
        }
    }

    /// Returns what is escaped in standard output, if it is a whole bundle as JSON.
    pub fn json_escapes(self) -> Escapes
        ensures { result ≢ Escaping.Nothing }
    {
        if self.is_output_terminal {
            Escapes::Terminal
        } else {
            Escapes::Json
        }
    }

    /// Returns the end of the line of an error with this name.
    pub fn hint(self, word: &str) -> Hint<'_>
        ensures shown { IsSome result.word ↔ IsTrue self.is_terminal }
        ensures word { IfSome result.word (λ w. w.now ≡ word.now) }
    {
        Hint {
            word: if self.is_terminal { Some(word) } else { None },
        }
    }

    /// Returns the end of the line of an error by which a file can't be read.
    pub fn read_cause(self, kind: ErrorKind) -> Cause
        ensures shown { IsSome result.kind ↔ IsTrue self.is_terminal }
        ensures kind { IfSome result.kind (λ k. k ≡ kind) }
        ensures written { result.is_written ≡ false }
    {
        Cause {
            kind: if self.is_terminal { Some(kind) } else { None },
            is_written: false,
        }
    }

    /// Returns the end of the line of an error by which a file can't be written.
    pub fn write_cause(self, kind: ErrorKind) -> Cause
        ensures shown { IsSome result.kind ↔ IsTrue self.is_terminal }
        ensures kind { IfSome result.kind (λ k. k ≡ kind) }
        ensures written { result.is_written ≡ true }
    {
        Cause {
            kind: if self.is_terminal { Some(kind) } else { None },
            is_written: true,
        }
    }
}

/// A hint to the explanation of an error: ` (resb explain WORD)` on a terminal, otherwise empty.
#[derive(Clone, Copy)]
pub struct Hint<'a> {
    word: Option<&'a str>,
}

impl<'a> fmt::Display for Hint<'a> {
    fn fmt<W: fmt::Write>(&self, f: &mut fmt::Formatter<W>) -> fmt::Result {
        match self.word {
            Some(word) => write!(f, " (resb explain {word})"),
            None => Ok(()),
        }
    }
}

/// The reason why a file can't be read or written, such as `: permission denied`, on a terminal,
/// otherwise empty.
#[derive(Clone, Copy)]
pub struct Cause {
    kind: Option<ErrorKind>,
    is_written: bool,
}

impl fmt::Display for Cause {
    fn fmt<W: fmt::Write>(&self, f: &mut fmt::Formatter<W>) -> fmt::Result {
        let Some(kind) = self.kind else {
            return Ok(());
        };
        match kind {
            // A file that is written needs only its folder.
            ErrorKind::NotFound if self.is_written => f.write_str(": no such folder"),
            ErrorKind::NotFound => f.write_str(": no such file"),
            ErrorKind::IsADirectory => f.write_str(": is a folder"),
            ErrorKind::NotADirectory | ErrorKind::AlreadyExists => {
                f.write_str(": a part of its path is no folder")
            }
            ErrorKind::ReadOnlyFilesystem => f.write_str(": the file system is read-only"),
            ErrorKind::StorageFull => f.write_str(": no space is left"),
            ErrorKind::FilesystemLoop => f.write_str(": its links form a circle"),
            ErrorKind::InvalidFilename => f.write_str(": the name is too long"),
            ErrorKind::InvalidData => f.write_str(": the name isn't UTF-8"),
            ErrorKind::Unsupported => f.write_str(": is no ordinary file"),
            ErrorKind::Uncategorized => f.write_str(": the system reports an error"),
            kind => write!(f, ": {kind}"),
        }
    }
}

/// A name or an argument in a message. On a terminal, characters that could move the cursor, end
/// the line or reverse the text are escaped, such as `\u{1b}`; elsewhere none are.
#[derive(Clone, Copy)]
pub struct ShownName<'a> {
    text: &'a str,
    is_escaped: bool,
}

/// A character of a name in a message, or of a text, which is escaped as in a name.
#[derive(Clone, Copy)]
pub struct ShownChar {
    character: char,
    is_escaped: bool,
}

impl fmt::Display for ShownChar {
    fn fmt<W: fmt::Write>(&self, f: &mut fmt::Formatter<W>) -> fmt::Result {
        if self.is_escaped && is_control(self.character) {
            let code = u32::from(self.character);
            return write!(f, "\\u{{{code:x}}}");
        }
        f.write_char(self.character)
    }
}

/// Checks whether a terminal acts on a character in place of showing it: a control character, or
/// one that controls the direction of text. All that is escaped on a terminal is in this list.
pub(crate) fn is_control(c: char) -> bool {
    matches!(
        c,
        '\0'..='\u{1f}'
            | '\u{7f}'..='\u{9f}'
            | '\u{61c}'
            | '\u{200e}'..='\u{200f}'
            | '\u{202a}'..='\u{202e}'
            | '\u{2066}'..='\u{2069}'
    )
}

/// Checks whether a control is escaped in each whole bundle as JSON, on a terminal or not. The
/// marks of direction, which begin no span of text, are escaped only on a terminal.
pub(crate) fn is_escaped_in_json(c: char) -> bool {
    !matches!(c, '\n' | '\t' | '\u{61c}' | '\u{200e}'..='\u{200f}')
}

impl<'a> fmt::Display for ShownName<'a> {
    fn fmt<W: fmt::Write>(&self, f: &mut fmt::Formatter<W>) -> fmt::Result {
        if !self.is_escaped {
            return f.write_str(self.text);
        }
        for character in self.text.chars() {
            let shown = ShownChar {
                character,
                is_escaped: true,
            };
            write!(f, "{shown}")?;
        }
        Ok(())
    }
}
