//! Bundles that are prepared from JSON.
ghost use Rattle.std.specs.Prelude.{◌≡◌, ◌≢◌, None, IfErr, IfOk, IfSome, false};
ghost use Rattle.rb_format.specs.File.{Denotes};
ghost use Rattle.rb_tree.specs.Parts.{Fits};
ghost use Rattle.rb_tree.specs.View.{view_of};
ghost use Rattle.resb.specs.BundleForms.{IsFileOfJson};

use crate::held::fill;
use crate::numbers::{MEMORY, json_number};
use crate::prepared::checked;
use rb_handle::BundleHandle;
use rb_json_reader::read_tree;
use rb_tree::Tree;
use rb_validator::Bundle;
use rb_writer::write;
use std::alloc::{AllocError, Global};

/// Writes the file of a tree, without spare capacity.
fn file_of(alloc: Global, tree: &Tree) -> Result<Vec<u8>, AllocError>
    requires { Fits (view_of tree.now) }
    ensures { IfOk result (λ file. Denotes file.items
        (record { tree = view_of tree.now; no_fallback = false })) }
{
    let mut file = write(alloc, tree, false)?;
    file.shrink_to_fit();
    Ok(file)
}

/// Reads the JSON of a bundle, or returns the number of an error and writes its line.
fn read(alloc: Global, json: &[u8], line: &mut u64) -> Result<Box<Bundle>, u32>
    ensures bundle { IfOk result (λ b. IsFileOfJson json.now b.value) }
    ensures error { IfErr result (λ n. n ≢ 0) }
{
    let tree = match read_tree(alloc, json) {
        Ok(tree) => tree,
        Err(fault) => {
            *line = fault.line;
            return Err(json_number(fault.kind));
        }
    };
    let file = file_of(alloc, &tree).map_err(|_| MEMORY)?;
    // The file is valid, so checking it fails only for memory.
    checked(alloc, file)
}

/// Reads a bundle from JSON, like `resb_prepare` from a text.
#[unsafe(no_mangle)]
pub extern "C" fn resb_prepare_json(
    alloc: Global,
    json: &[u8],
    handle: &mut BundleHandle,
    line: &mut u64,
) -> u32
    ensures prepared { result ≡ 0 → IfSome handle.new.file (IsFileOfJson json.now) }
    ensures there { result ≡ 0 → handle.new.file ≢ None }
    ensures was_discarded { result ≡ 0 → handle.old.file ≡ None }
    ensures unchanged { result ≢ 0 → handle.new.file ≡ handle.old.file }
    ensures busy { IfSome handle.old.file (λ _. result ≡ 3) }
{
    *line = 0;
    fill!(take_bundle, BundleHandle, alloc, handle => read(alloc, json, line))
}
