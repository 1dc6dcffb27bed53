ghost use Rattle.std.specs.Prelude.{◌≡◌};
ghost use Rattle.rb_format.specs.Words.{word_of};

use crate::fault::FileFault;
use rb_tree::variant_name;

impl FileFault {
    pub fn word(self) -> &'static str
        ensures { result.now ≡ word_of self }
    {
        variant_name!(self: FileFault {
            TooLong, Header, BigEndian, Family, FormatVersion, Indexes, Attributes, Root, ItemType,
            Offset, Length, NotTerminated, Key, KeyOrder, TooDeep, Memory,
        })
    }
}
