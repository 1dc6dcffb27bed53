use crate::console::is_control;
use std::fmt;

/// A text inside quotes of JSON. Characters on which a terminal acts are escaped, too, such as
/// `\u202e`.
#[derive(Clone, Copy)]
pub struct JsonText<'a>(pub &'a str);

impl<'a> fmt::Display for JsonText<'a> {
    fn fmt<W: fmt::Write>(&self, f: &mut fmt::Formatter<W>) -> fmt::Result {
        for c in self.0.chars() {
            match c {
                '"' | '\\' => {
                    f.write_char('\\')?;
                    f.write_char(c)?;
                }
                _ if is_control(c) => {
                    let code = u32::from(c);
                    write!(f, "\\u{code:04x}")?;
                }
                _ => f.write_char(c)?,
            }
        }
        Ok(())
    }
}
