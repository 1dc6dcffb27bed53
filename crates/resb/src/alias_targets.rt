//! The bundles that the aliases of a file name, which libicu opens.
ghost use Rattle.std.specs.Prelude.{◌≡◌, ◌≢◌, ◌||◌, List, ℕ, IfOk, MatchOption, OnOk, length, map};
ghost use Rattle.std.specs.Prelude.{option_map, string_bytes, string_cmp, take};
ghost use Rattle.std.specs.BTreeSet.{IsOrdered, contains_text};
ghost use Rattle.std.specs.List.{after_first, before_first, position_or_len};
ghost use Rattle.rb_format.specs.File.{tree_of};
ghost use Rattle.rb_tree.specs.Path.{is_slash};
ghost use Rattle.rb_views.specs.Seen.{tree_seen, units_seen};
ghost use Rattle.resb.specs.AliasTargets.{CopiesTargets, IsTargetList, bundle_named, is_alias_to};
ghost use Rattle.resb.specs.AliasTargets.{is_named, names, packaged};
ghost use Rattle.resb.specs.Lists.{zero_ended};

use crate::icu::{checked_for_icu, child_count};
use crate::lists::copy_bytes;
use crate::numbers::MEMORY;
use crate::utf8::utf8_of;
use rb_tree::Node;
use rb_validator::Bundle;
use rb_views::{Item, Units, root};
use std::alloc::{AllocError, Global};
use std::collections::BTreeSet;

/// Returns what comes before the first slash of a text, and what comes after it.
fn at_slash(text: &str) -> (&str, &str)
    ensures before { result.0.now ≡ before_first is_slash text.now }
    ensures after { result.1.now ≡ after_first is_slash text.now }
{
    match text.split_once('/') {
        Some(parts) => parts,
        None => (text, ""),
    }
}

/// Returns the bundle that an alias names after the slash before a package.
fn packaged(alloc: Global, text: &str) -> Result<Option<String>, AllocError>
    ensures { IfOk result (λ name. option_map string_bytes name ≡ packaged text.now) }
{
    let (package, rest) = at_slash(text);
    if package == "LOCALE" {
        return Ok(None);
    }
    let (name, _) = at_slash(rest);
    Ok(Some(format!(in alloc; "/{package}/{name}")?))
}

/// Returns the bundle that an alias names.
fn named_by(alloc: Global, text: &str) -> Result<Option<String>, AllocError>
    ensures { IfOk result (λ name. option_map string_bytes name ≡ bundle_named text.now) }
{
    if text.is_empty() {
        return Ok(None);
    }
    let (name, rest) = at_slash(text);
    if name.is_empty() {
        return packaged(alloc, rest);
    }
    Ok(Some(String::from_str(alloc, name)?))
}

/// Adds the bundle that an alias names.
fn add_alias(
    alloc: Global,
    units: Units<'_>,
    found: &mut BTreeSet<String>,
) -> Result<(), AllocError>
    ensures { OnOk result ((name : List ℕ) → contains_text found.new name
        ≡ (contains_text found.old name || is_named name (units_seen units.entry))) }
{
    let text = utf8_of(alloc, units)?;
    match named_by(alloc, text.as_str())? {
        Some(name) => {
            found.insert(name)?;
            Ok(())
        }
        None => Ok(()),
    }
}

fn add_own(alloc: Global, item: Item<'_>, found: &mut BTreeSet<String>) -> Result<(), AllocError>
    ensures { OnOk result ((name : List ℕ) → contains_text found.new name
        ≡ (contains_text found.old name || is_alias_to name (tree_seen item.entry))) }
{
    match item.alias() {
        Some(units) => add_alias(alloc, units, found),
        None => Ok(()),
    }
}

/// Adds the bundles that the aliases of a tree name.
#[cycle(add_names)]
fn add_names(alloc: Global, item: Item<'_>, found: &mut BTreeSet<String>) -> Result<(), AllocError>
    ensures { OnOk result ((name : List ℕ) → contains_text found.new name
        ≡ (contains_text found.old name || names name (tree_seen item.entry))) }
{
    add_own(alloc, item, found)?;
    for i in 0..child_count(item) {
        add_names(alloc, item.at(i), found)?;
    }
    Ok(())
}

/// Joins names, each with a zero byte after it.
fn joined(alloc: Global, names: &BTreeSet<String>) -> Result<Vec<u8>, AllocError>
    ensures list { IfOk result
        (λ list. list.items ≡ zero_ended (map string_bytes names.now.keys)) }
    ensures order { IsOrdered string_cmp names.now }
{
    let mut out = Vec::new(alloc);
    for name in names {
        out.extend_from_slice(name.as_bytes())?;
        out.push(0)?;
    }
    Ok(out)
}

fn list_of(alloc: Global, bundle: &Bundle) -> Result<Vec<u8>, AllocError>
    ensures { IfOk result (λ list. IsTargetList (tree_of bundle.now) list.items) }
{
    let mut names = BTreeSet::new(alloc);
    add_names(alloc, root(bundle), &mut names)?;
    joined(alloc, &names)
}

/// Checks a file like `resb_check_for_icu`, and lists the bundles that its aliases name. Each has a
/// zero byte after it. For a short `out` it writes only the number of bytes.
#[unsafe(no_mangle)]
pub extern "C" fn resb_alias_targets(
    alloc: Global,
    bytes: &[u8],
    out: &mut [u8],
    len: &mut usize,
) -> u32
    ensures list { CopiesTargets bytes.now result len.new (length out.old) (take len.new out.new) }
    ensures unchanged { result ≢ 0 → out.new ≡ out.old }
{
    let bundle = match checked_for_icu(alloc, bytes) {
        Ok(bundle) => bundle,
        Err(number) => return number,
    };
    match list_of(alloc, &bundle) {
        Ok(list) => copy_bytes(&list, out, len),
        Err(_) => MEMORY,
    }
}
