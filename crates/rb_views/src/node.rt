use crate::item::Item;
use rb_format::item_offset;
use rb_tree::{Kind, Node};

impl<'a> Node for Item<'a> {
    ghost use Rattle.rb_views.specs.Seen.{tree_seen};

    ghost tree = { tree_seen };

    fn kind(self) -> Kind {
        self.kind_here()
    }

    fn len(self) -> usize {
        match self.kind_here() {
            Kind::String | Kind::Alias => self.units().len(),
            Kind::Int => 0,
            Kind::Ints => self.numbers().len(),
            Kind::Binary => self.bytes().len(),
            Kind::Array => self.items().len(),
            Kind::Table => self.entries().len(),
        }
    }

    #[inline(always)]
    fn child(self, key: &[u8]) -> Option<Item<'a>> {
        self.entries().get(key)
    }

    fn key_at(&self, i: usize) -> &[u8] {
        self.entries().key(i)
    }

    fn unit(self, i: usize) -> u16 {
        self.units().at(i)
    }

    fn segment_run(self, from: usize) -> usize {
        self.units().segment_run(self.blocks, from)
    }

    fn number(self, i: usize) -> i32 {
        self.numbers().at(i)
    }

    fn byte(self, i: usize) -> u8 {
        self.bytes()[i]
    }

    fn int(self) -> u32 {
        item_offset(self.word)
    }

    fn at(self, i: usize) -> Item<'a> {
        match self.kind_here() {
            Kind::Array => self.items().item(i),
            Kind::Table => self.entries().item(i),
            _ => unreachable!(),
        }
    }
}
