//! Bundles that are read and checked outside any engine.
ghost use Rattle.std.specs.Prelude.{◌≡◌, ◌≢◌, None, Some, IfErr, IfNone, IfOk, IfSome};
ghost use Rattle.rb_compiler.specs.Compiled.{IsCompiled};
ghost use Rattle.rb_format.specs.File.{Denotes, source_tree_of};
ghost use Rattle.rb_parser.specs.Source.{IsRefusal};
ghost use Rattle.resb.specs.Changes.{payload_of};
ghost use Rattle.resb.specs.Numbers.{IsFileError};
ghost use Rattle.resb.specs.Prepared.{IsPayloadError, IsPrepared};

use crate::held::{fill, take_bundle, with_bundle};
use crate::numbers::{MEMORY, file_number, text_number};
use rb_compiler::compile_bundle;
use rb_handle::BundleHandle;
use rb_lexer::{SourceFault, SourceKind};
use rb_validator::{Bundle, accept};
use std::alloc::Global;

/// Checks a file, or returns the number of its first error.
pub(crate) fn checked(alloc: Global, file: Vec<u8>) -> Result<Box<Bundle>, u32>
    ensures bundle { IfOk result (λ b. b.value ≡ file.items) }
    ensures denotes { IfOk result (λ b. Denotes file.items (source_tree_of b.value)) }
    ensures refused { IfErr result (IsFileError file.items) }
    ensures error { IfErr result (λ n. n ≢ 0) }
{
    let bundle = accept(alloc, file).map_err(|(fault, _)| file_number(fault))?;
    Box::new(alloc, bundle).map_err(|_| MEMORY)
}

fn compiled(alloc: Global, text: &[u8]) -> Result<Box<Bundle>, SourceFault>
    ensures bundle { IfOk result (λ b. IsCompiled text.now b.value) }
    ensures refused { IfErr result (IsRefusal text.now) }
{
    let bundle = compile_bundle(alloc, text)?;
    match Box::new(alloc, bundle) {
        Ok(bundle) => Ok(bundle),
        Err(_) => Err(SourceFault {
            kind: SourceKind::Memory,
            line: 0,
        }),
    }
}

/// Reads a text or a file, or returns the number of its first error and writes its line.
fn read(alloc: Global, bytes: &[u8], is_text: bool, line: &mut u64) -> Result<Box<Bundle>, u32>
    ensures bundle { IfOk result (λ b. IsPrepared (payload_of is_text bytes.now) b.value) }
    ensures refused { IfErr result
        (λ n. IsPayloadError (payload_of is_text bytes.now) n line.new) }
    ensures error { IfErr result (λ n. n ≢ 0) }
{
    if is_text {
        return match compiled(alloc, bytes) {
            Ok(bundle) => Ok(bundle),
            Err(fault) => {
                *line = fault.line;
                Err(text_number(fault.kind))
            }
        };
    }
    let file = bytes.to_vec(alloc).map_err(|_| MEMORY)?;
    checked(alloc, file)
}

/// Reads a bundle from a text or a file without an engine, and stores it in a handle. Returns 0 or
/// the number of the first error, and writes its line in a text to `line`, else 0.
#[unsafe(no_mangle)]
pub extern "C" fn resb_prepare(
    alloc: Global,
    bytes: &[u8],
    is_text: bool,
    handle: &mut BundleHandle,
    line: &mut u64,
) -> u32
    ensures prepared { result ≡ 0 → IfSome handle.new.file
        (IsPrepared (payload_of is_text bytes.now)) }
    ensures there { result ≡ 0 → handle.new.file ≢ None }
    ensures was_discarded { result ≡ 0 → handle.old.file ≡ None }
    ensures unchanged { result ≢ 0 → handle.new.file ≡ handle.old.file }
    ensures busy { IfSome handle.old.file (λ _. result ≡ 3) }
    ensures refused { IfNone handle.old.file
        (result ≢ 0 → IsPayloadError (payload_of is_text bytes.now) result line.new) }
{
    *line = 0;
    fill!(take_bundle, BundleHandle, alloc, handle => read(alloc, bytes, is_text, line))
}

fn copy_of(alloc: Global, bundle: &Bundle) -> Result<Box<Bundle>, u32>
    ensures copy { IfOk result (λ b. b.value ≡ bundle.now) }
    ensures memory { IfErr result (λ n. n ≡ 1) }
{
    let copy = bundle.clone().map_err(|_| MEMORY)?;
    Box::new(alloc, copy).map_err(|_| MEMORY)
}

fn copy_to(alloc: Global, bundle: &Bundle, other: &mut BundleHandle) -> u32
    ensures copied { result ≡ 0 → other.new.file ≡ Some bundle.now }
    ensures was_discarded { result ≡ 0 → other.old.file ≡ None }
    ensures unchanged { result ≢ 0 → other.new.file ≡ other.old.file }
    ensures busy { IfSome other.old.file (λ _. result ≡ 3) }
    ensures memory { IfNone other.old.file (result ≢ 0 → result ≡ 1) }
{
    fill!(take_bundle, BundleHandle, alloc, other => copy_of(alloc, bundle))
}

/// Makes another handle, which has no bundle, one more of the same bundle.
#[unsafe(no_mangle)]
pub extern "C" fn resb_copy_bundle(
    alloc: Global,
    handle: &mut BundleHandle,
    other: &mut BundleHandle,
) -> u32
    ensures stays { handle.new.file ≡ handle.old.file }
    ensures copied { result ≡ 0 → other.new.file ≡ handle.old.file }
    ensures there { result ≡ 0 → handle.old.file ≢ None }
    ensures was_discarded { result ≡ 0 → other.old.file ≡ None }
    ensures unchanged { result ≢ 0 → other.new.file ≡ other.old.file }
    ensures discarded { IfNone handle.old.file (result ≡ 2) }
    ensures busy { IfSome handle.old.file (λ _. IfSome other.old.file (λ _. result ≡ 3)) }
    ensures memory { IfSome handle.old.file (λ _. IfNone other.old.file
        (result ≢ 0 → result ≡ 1)) }
{
    with_bundle!(alloc, handle, bundle => copy_to(alloc, &bundle, other))
}

/// Discards the bundle of a handle. A handle without one stays without one.
#[unsafe(no_mangle)]
pub extern "C" fn resb_discard(alloc: Global, handle: &mut BundleHandle)
    ensures { handle.new.file ≡ None }
{
    drop(take_bundle(alloc, handle));
}
