use crate::argument::Argument;
use clap::Command;
use std::alloc::{AllocError, Global};

/// A command: its purpose, its arguments in the order of the help, and the end of its help.
#[derive(Clone, Copy)]
pub struct Description {
    pub name: &'static str,
    pub about: &'static str,
    pub arguments: &'static [Argument],
    pub end: &'static str,
}

impl Description {
    /// Makes clap's command.
    pub fn made<'a>(&self, alloc: Global) -> Result<Command<'a>, AllocError> {
        let mut arguments = Vec::new(alloc);
        for argument in self.arguments {
            arguments.push(argument.made(alloc)?)?;
        }
        Command::new(alloc, self.name)
            .about(self.about)
            .after_help(self.end)
            .args(arguments)
    }
}
