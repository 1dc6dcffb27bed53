ghost use Rattle.std.specs.Prelude.{◌≡◌, ◌*◌, ◌≤◌, length};
ghost use Rattle.rb_validator.specs.inner.KnownKeys.{key_run};

use rb_format::{FileFault, Layout};

/// The data of a file after its header, with the bounds that its indexes give.
#[derive(Clone, Copy)]
pub struct Body<'a> {
    pub layout: &'a Layout,
    pub bytes: &'a [u8],
}

pub type Checked<T> = Result<T, FileFault>;

/// Returns the bytes of all keys: those between the indexes and the top of the keys.
pub fn key_bytes<'a>(body: Body<'a>) -> &'a [u8]
    requires { 4 * body.layout.now.keys_top ≤ length body.bytes.now }
    ensures { result.now ≡ key_run body.entry.layout.now body.entry.bytes.now }
{
    let first = 4 * (1 + body.layout.indexes as usize);
    let top = 4 * body.layout.keys_top as usize;
    if first < top {
        &body.bytes[first..top]
    } else {
        &[]
    }
}
