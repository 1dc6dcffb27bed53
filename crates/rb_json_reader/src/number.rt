ghost use Rattle.std.specs.Prelude.{◌≡◌, IfSome};
ghost use Rattle.serde_json.specs.Find.{of_integer};
ghost use Rattle.serde_json.specs.Written.{number_text};
ghost use Rattle.rb_json.specs.Leaf.{signed_of};

use rb_tree::Int28;

/// A number of a list.
pub(crate) trait Element: Copy {
    ghost use Rattle.serde_json.specs.Data.{Num};

    ghost number: { Self → Num };

    /// The weight that it adds to a tree.
    const WEIGHT: u64;

    /// Reads an element from the text that is printed for it, and no other.
    fn read(text: &str) -> Option<Self>
        ensures { IfSome result (λ x. text.now ≡ number_text (number x)) };
}

impl Element for i32 {
    ghost number = { λ z. of_integer z };

    const WEIGHT: u64 = 4;

    fn read(text: &str) -> Option<i32> {
        let Ok(number) = text.parse::<i32>() else {
            return None;
        };
        // The digits are compared with those that are printed: others, such as `-0`, have no tree.
        let mut buffer = itoa::Buffer::new();
        if buffer.format(number) == text {
            Some(number)
        } else {
            None
        }
    }
}

impl Element for u16 {
    ghost use Rattle.serde_json.specs.Data.{unsigned};

    ghost number = { λ n. unsigned n };

    const WEIGHT: u64 = 2;

    fn read(text: &str) -> Option<u16> {
        let number = i32::read(text)?;
        if number < 0 || 65_535 < number {
            return None;
        }
        Some(number as u16)
    }
}

/// Reads an Int of 28 bits with its sign.
pub(crate) fn read_int(text: &str) -> Option<Int28>
    ensures { IfSome result (λ n. text.now ≡ number_text (of_integer (signed_of n))) }
{
    let number = i32::read(text)?;
    if number < -134_217_728 || 134_217_727 < number {
        return None;
    }
    if number < 0 {
        Int28::new((number + 268_435_456) as u32)
    } else {
        Int28::new(number as u32)
    }
}
