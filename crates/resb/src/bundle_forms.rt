//! Prepared bundles as files, as texts and as JSON.
ghost use Rattle.std.specs.Prelude.{◌≡◌, ◌≢◌, IfNone, IfOk, IfSome, length, take};
ghost use Rattle.rb_format.specs.File.{source_tree_of, tree_of};
ghost use Rattle.rb_locales.specs.Locale.{name as name_of};
ghost use Rattle.rb_printer.specs.Whole.{IsBundleText};
ghost use Rattle.resb.specs.BundleForms.{CopiesJson, CopiesTextOf};
ghost use Rattle.resb.specs.Copied.{CopiesBytes};

use crate::held::with_bundle;
use crate::lists::copy_bytes;
use crate::numbers::{BAD_LOCALE, MEMORY, TEXT_TOO_LARGE, TREE_TOO_LARGE};
use rb_handle::BundleHandle;
use rb_json::{Buffer, Layout, is_within, put_value};
use rb_locales::Name;
use rb_printer::{PrintError, print_bundle};
use rb_tree::UnitList;
use rb_validator::Bundle;
use rb_views::root;
use std::alloc::Global;

/// Copies the file of a prepared bundle. For a short `out` it writes only the number of bytes.
#[unsafe(no_mangle)]
pub extern "C" fn resb_bundle_file(
    alloc: Global,
    handle: &mut BundleHandle,
    out: &mut [u8],
    len: &mut usize,
) -> u32
    ensures stays { handle.new.file ≡ handle.old.file }
    ensures file { IfSome handle.old.file (λ file. CopiesBytes file result len.new
        (length out.old) (take len.new out.new)) }
    ensures unchanged { result ≢ 0 → out.new ≡ out.old }
    ensures discarded { IfNone handle.old.file (result ≡ 2) }
{
    with_bundle!(alloc, handle, bundle => copy_bytes(bundle.bytes(), out, len))
}

/// Prints a bundle as a text under a name.
fn text_of(alloc: Global, name: &Name, bundle: &Bundle) -> Result<Vec<u8>, PrintError>
    ensures text { IfOk result
        (λ bytes. IsBundleText bytes.items name.now (source_tree_of bundle.now)) }
{
    let units: Vec<u16> = name
        .as_bytes()
        .iter()
        .map(|byte| u16::from(*byte))
        .collect(alloc)?;
    print_bundle(alloc, &UnitList::from_vec(units), bundle)
}

fn copy_text(alloc: Global, bundle: &Bundle, locale: &[u8], out: &mut [u8], len: &mut usize) -> u32
    ensures text { result ≢ 1 → CopiesTextOf (name_of locale.now) (source_tree_of bundle.now)
        result len.new (length out.old) (take len.new out.new) }
    ensures unchanged { result ≢ 0 → out.new ≡ out.old }
{
    let Ok(name) = Name::read(locale) else {
        return BAD_LOCALE;
    };
    match text_of(alloc, &name, bundle) {
        Ok(text) => copy_bytes(&text, out, len),
        Err(PrintError::TooLarge) => TEXT_TOO_LARGE,
        Err(PrintError::Memory) => MEMORY,
    }
}

/// Copies a prepared bundle as a text under a locale's name. For a short `out` it writes only the
/// number of bytes.
#[unsafe(no_mangle)]
pub extern "C" fn resb_bundle_text(
    alloc: Global,
    handle: &mut BundleHandle,
    locale: &[u8],
    out: &mut [u8],
    len: &mut usize,
) -> u32
    ensures stays { handle.new.file ≡ handle.old.file }
    ensures text { result ≢ 1 → IfSome handle.old.file (λ file. CopiesTextOf (name_of locale.now)
        (source_tree_of file) result len.new (length out.old) (take len.new out.new)) }
    ensures unchanged { result ≢ 0 → out.new ≡ out.old }
    ensures discarded { IfNone handle.old.file (result ≡ 2) }
{
    with_bundle!(alloc, handle, bundle => copy_text(alloc, &bundle, locale, out, len))
}

fn copy_json(alloc: Global, bundle: &Bundle, out: &mut [u8], len: &mut usize) -> u32
    ensures json { result ≢ 1 → CopiesJson (tree_of bundle.now) result len.new
        (length out.old) (take len.new out.new) }
    ensures unchanged { result ≢ 0 → out.new ≡ out.old }
{
    let item = root(bundle);
    if !is_within(item) {
        return TREE_TOO_LARGE;
    }
    let mut json = Buffer::new(alloc);
    put_value(&mut json, item, Layout::Compact);
    match json.into_bytes() {
        Ok(json) => copy_bytes(&json, out, len),
        Err(_) => MEMORY,
    }
}

/// Copies a prepared bundle as one JSON value. For a short `out` it writes only the number of bytes.
#[unsafe(no_mangle)]
pub extern "C" fn resb_bundle_json(
    alloc: Global,
    handle: &mut BundleHandle,
    out: &mut [u8],
    len: &mut usize,
) -> u32
    ensures stays { handle.new.file ≡ handle.old.file }
    ensures json { result ≢ 1 → IfSome handle.old.file (λ file. CopiesJson (tree_of file) result
        len.new (length out.old) (take len.new out.new)) }
    ensures unchanged { result ≢ 0 → out.new ≡ out.old }
    ensures discarded { IfNone handle.old.file (result ≡ 2) }
{
    with_bundle!(alloc, handle, bundle => copy_json(alloc, &bundle, out, len))
}
