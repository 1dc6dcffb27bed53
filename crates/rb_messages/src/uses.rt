//! The arguments that a message uses.
use crate::part::{ArgumentType, Span, ValueKind};
use std::alloc::{AllocError, Global};

/// A use of an argument. Numbers are narrow, since a text can have one use in three units.
#[derive(Clone, Copy)]
pub struct Use {
    first: u32,
    past: u32,
    of_type: ArgumentType,
    /// The index of the innermost branch around it.
    pub branch: Option<u32>,
}

/// An argument with all its uses.
#[derive(Clone, Copy)]
pub struct Named<'a> {
    pub name: &'a [u16],
    /// The indexes of its first and its last use.
    pub first: usize,
    pub last: usize,
    pub kind: ValueKind,
    /// The unit at which its first use begins.
    pub at: usize,
}

impl<'a> Named<'a> {
    /// Adds a later use.
    fn add(&mut self, other: &Named<'_>) {
        self.last = other.last;
        self.kind = self.kind.or(other.kind);
    }
}

/// The uses of arguments in a message, in its order.
#[derive(Drop)]
pub struct Uses<'a> {
    alloc: Global,
    text: &'a [u16],
    pub uses: Vec<Use>,
}

impl<'a> Uses<'a> {
    pub fn new(alloc: Global, text: &'a [u16]) -> Uses<'a> {
        Uses {
            alloc,
            text,
            uses: Vec::new(alloc),
        }
    }

    /// Adds a use.
    pub fn add(
        &mut self,
        name: Span,
        of_type: ArgumentType,
        branch: Option<u32>,
    ) -> Result<(), AllocError> {
        self.uses.push(Use {
            first: u32::try_from(name.first).unwrap_or(u32::MAX),
            past: u32::try_from(name.past).unwrap_or(u32::MAX),
            of_type,
            branch,
        })?;
        Ok(())
    }

    /// Checks whether an argument is a number, such as `{0}`.
    pub fn has_number(&self) -> bool {
        for used in &self.uses {
            if matches!(self.text.get(used.first as usize), Some(0x30..=0x39)) {
                return true;
            }
        }
        false
    }

    /// Checks whether an argument has a type.
    pub fn has_type(&self) -> bool {
        for used in &self.uses {
            if used.of_type != ArgumentType::Any {
                return true;
            }
        }
        false
    }

    /// Returns the names of all uses in ascending order, each with its index.
    fn names(&self) -> Result<Vec<(&'a [u16], usize)>, AllocError> {
        let mut all = Vec::new(self.alloc);
        for (i, used) in self.uses.iter().enumerate() {
            let range = used.first as usize..used.past as usize;
            all.push((self.text.get(range).unwrap_or(&[]), i))?;
        }
        all.sort()?;
        Ok(all)
    }

    /// Returns the argument of one use, whose name is given.
    fn named_by(&self, name: &'a [u16], i: usize) -> Named<'a> {
        let (kind, at) = match self.uses.get(i) {
            Some(used) => (ValueKind::of(used.of_type), used.first as usize),
            None => (ValueKind::Any, 0),
        };
        Named {
            name,
            first: i,
            last: i,
            kind,
            at,
        }
    }

    /// Returns the arguments by ascending names.
    pub fn named(&self) -> Result<Vec<Named<'a>>, AllocError> {
        let mut named: Vec<Named<'a>> = Vec::new(self.alloc);
        for (name, i) in &self.names()? {
            let one = self.named_by(*name, *i);
            match named.last_mut() {
                Some(before) if before.name == one.name => before.add(&one),
                _ => named.push(one)?,
            }
        }
        Ok(named)
    }
}
