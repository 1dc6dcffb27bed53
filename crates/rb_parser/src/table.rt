ghost use Rattle.std.specs.Prelude.{◌≡◌, ◌≢◌, ◌∷◌, ◌++◌, [], ◌≤◌, length, suc, All, OnOk, IfOk, IfErr};
ghost use Rattle.rb_lexer.specs.declared.fault.SourceKind.TheVariants.{Memory};
ghost use Rattle.rb_tree.specs.Keys.{IsKey};
ghost use Rattle.rb_tree.specs.Table.{keys_in, seen_pairs, NoRepeat, IsTableOf};
ghost use Rattle.rb_tree.specs.View.{view_of};
ghost use Rattle.rb_grammar.specs.Reading.{is_among};
ghost use Rattle.rb_parser.specs.inner.Rows.{keys_after, lines_after, later_fault, IsRepeat};
ghost use Rattle.rb_parser.specs.inner.Rows.{twice_at, IsFirstFault, AreCounted};

use rb_lexer::{SourceFault, SourceKind};
use rb_tree::{Key, TableFault, Tree};
use std::alloc::{AllocError, Global};

/// The entries of a table, in the order of the text. Their keys are compared once all of them are
/// read, or when an error ends them: a repeated key is an error at its line, before all later
/// errors.
#[derive(Drop)]
pub struct Rows {
    pub pairs: Vec<(Key, Tree)>,
    /// The line of each key except the first, which can't be a repeat.
    pub lines: Vec<u64>,
}

fn repeat(line: u64) -> SourceFault
    ensures { result ≡ twice_at line }
{
    SourceFault {
        kind: SourceKind::DuplicateKey,
        line,
    }
}

impl Rows {
    pub fn new(alloc: Global) -> Rows
        ensures pairs { result.pairs.items ≡ [] }
        ensures lines { result.lines.items ≡ [] }
    {
        Rows {
            pairs: Vec::new(alloc),
            lines: Vec::new(alloc),
        }
    }

    /// Adds an entry, whose key is in this line. The first reserves two places: in deep texts of
    /// small tables the spare memory of each table is free only once it is read.
    pub fn add(&mut self, line: u64, key: Key, tree: Tree) -> Result<(), AllocError>
        ensures pairs { OnOk result
            (self.new.pairs.items ≡ self.old.pairs.items ++ (key, tree) ∷ []) }
        ensures lines { OnOk result
            (self.new.lines.items ≡ lines_after self.old.pairs.items self.old.lines.items line) }
    {
        if self.pairs.capacity() == 0 {
            self.pairs.reserve_exact(2)?;
        }
        if !self.pairs.is_empty() {
            self.lines.push(line)?;
        }
        self.pairs.push((key, tree))?;
        Ok(())
    }

    pub fn has(&self, key: &[u8]) -> bool
        ensures { result ≡ is_among (keys_after self.now.pairs.items []) key.now }
    {
        for pair in &self.pairs {
            if pair.0.as_slice() == key {
                return true;
            }
        }
        false
    }

    /// Returns the error at a key whose value has this fault: `DuplicateKey` if the key repeats.
    pub fn fault_at(&self, line: u64, key: &[u8], fault: SourceFault) -> SourceFault
        ensures memory { fault.kind ≡ Memory → result.kind ≡ Memory }
        ensures other { fault.kind ≢ Memory
            → result ≡ later_fault (is_among (keys_after self.now.pairs.items []) key.now) line
            fault }
    {
        match fault.kind {
            SourceKind::Memory => fault,
            _ => if self.has(key) { repeat(line) } else { fault },
        }
    }

    /// Makes the table, or returns the error at the first repeated key.
    pub fn table(self, alloc: Global) -> Result<Tree, SourceFault>
        requires { AreCounted self }
        ensures table { IfOk result
            (λ t. IsTableOf (seen_pairs self.pairs.items) (view_of t)) }
        ensures no_repeat { OnOk result (NoRepeat (keys_in self.pairs.items)) }
        ensures repeat { IfErr result (λ e. e.kind ≢ Memory → IsRepeat self e) }
    {
        let Rows { pairs, lines } = self;
        match Tree::keyed_table(alloc, pairs) {
            Ok(tree) => Ok(tree),
            Err(TableFault::Memory) => Err(SourceFault {
                kind: SourceKind::Memory,
                line: 0,
            }),
            Err(TableFault::DuplicateKey(i)) => Err(repeat(lines[i - 1])),
        }
    }

    /// Returns the first error: the one that ended the entries, or that at a repeated key.
    pub fn first_fault(self, alloc: Global, fault: SourceFault) -> SourceFault
        requires { fault.kind ≢ Memory → AreCounted self }
        ensures memory { fault.kind ≡ Memory → result.kind ≡ Memory }
        ensures first { result.kind ≢ Memory → IsFirstFault self fault result }
    {
        match fault.kind {
            SourceKind::Memory => fault,
            _ => match self.table(alloc) {
                Ok(_) => fault,
                Err(first) => first,
            },
        }
    }
}
