use crate::outlet::Outlet;

/// An outlet that counts down the bytes that a text may still have; `None` once the text is longer.
#[derive(Clone, Copy)]
pub struct Room {
    pub left: Option<u64>,
}

impl Outlet for Room {
    ghost use Rattle.rb_json.specs.Counted.{IsRoomAfter, room_joined, room_nothing};

    ghost takes = { λ old new bytes. IsRoomAfter old.left new.left bytes };

    ghost nothing = { λ room. room_nothing room.left };

    ghost joined = { λ x y z first second. room_joined x.left y.left z.left first second };

    fn put(&mut self, bytes: &[u8]) {
        if let Some(left) = self.left {
            self.left = left.checked_sub(bytes.len() as u64);
        }
    }

    fn skips(&mut self, least: u64) -> bool {
        match self.left {
            Some(left) if least <= left => false,
            _ => {
                self.left = None;
                true
            }
        }
    }
}
