//! Finds the first definition of a repeated key.
use crate::heap::Heap;
use crate::text_tokens::TextTokens;
use rb_lexer::{Mark, Token};

/// A text before a colon or a brace.
#[derive(Clone, Copy)]
struct KeyAt {
    /// The number of open braces around it.
    depth: u64,
    /// Its range in the units of all keys.
    first: usize,
    past: usize,
    line: u64,
}

/// The keys of the open tables.
#[derive(Drop)]
struct OpenKeys {
    depth: u64,
    keys: Vec<KeyAt>,
    units: Vec<u16>,
    heap: Heap,
}

impl OpenKeys {
    fn add(&mut self, units: &[u16], line: u64) {
        let first = self.units.len();
        self.heap.note(self.units.extend_from_slice(units));
        let key = KeyAt {
            depth: self.depth,
            first,
            past: self.units.len(),
            line,
        };
        self.heap.push(&mut self.keys, key);
    }

    /// Removes the keys of the body that ends.
    fn leave(&mut self) {
        let depth = self.depth;
        self.depth = depth.saturating_sub(1);
        for _ in 0..self.keys.len() {
            match self.keys.last() {
                Some(key) if key.depth >= depth => self.units.truncate(key.first),
                _ => return,
            }
            let _ = self.keys.pop();
        }
    }

    /// Returns the line of a key of the innermost table.
    fn line_of(&self, units: &[u16]) -> Option<u64> {
        let mut line = None;
        for key in self.keys.iter().rev() {
            if key.depth < self.depth {
                break;
            }
            if self.units.get(key.first..key.past) == Some(units) {
                line = Some(key.line);
            }
        }
        line
    }

    /// Takes a token that isn't the repeated key.
    fn step(&mut self, token: &Token) {
        match &token.what {
            Mark::Text(units) => self.add(units.as_slice(), token.line),
            Mark::LeftBrace => self.depth = self.depth.saturating_add(1),
            Mark::RightBrace => self.leave(),
            Mark::Colon | Mark::Comma => {}
        }
    }
}

/// Returns the line of the first entry with the key that is at this byte of a text.
pub(crate) fn first_line_of(heap: &mut Heap, text: &[u8], at: usize) -> Option<u64> {
    let mut open = OpenKeys {
        depth: 0,
        keys: Vec::new(heap.alloc),
        units: Vec::new(heap.alloc),
        heap: *heap,
    };
    let mut tokens = TextTokens::of(heap, text);
    let mut line = None;
    for _ in 0..u64::MAX {
        let Some(token) = tokens.pop(heap) else {
            break;
        };
        match &token.what {
            Mark::Text(units) if token.first == at => {
                line = open.line_of(units.as_slice());
                break;
            }
            _ => open.step(&token),
        }
    }
    heap.join(open.heap);
    line
}
