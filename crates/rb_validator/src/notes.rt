ghost use Rattle.std.specs.Prelude.{◌≡◌, IfOk};
ghost use Rattle.rb_validator.specs.inner.Noted.{blocks_noted};

use std::alloc::{AllocError, Global};

/// The notes that few files have; they are boxed to keep `Bundle` small.
#[derive(Drop)]
pub struct Notes {
    pub blocks: Vec<bool>,
}

/// Returns the notes to store, or None if they are empty.
pub fn noted(alloc: Global, blocks: Vec<bool>) -> Result<Option<Box<Notes>>, AllocError>
    ensures { IfOk result (λ notes. blocks_noted notes ≡ blocks.items) }
{
    if blocks.is_empty() {
        return Ok(None);
    }
    let notes = Box::new(alloc, Notes { blocks })?;
    Ok(Some(notes))
}
