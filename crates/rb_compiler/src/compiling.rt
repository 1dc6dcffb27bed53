ghost use Rattle.std.specs.Prelude.{◌≡◌, ◌⊎◌, ◌+◌, ◌*◌, ℕ, List, length, drop, IfOk, IfErr, OnErr};
ghost use Rattle.rb_lexer.specs.declared.fault.SourceKind.TheVariants.{Memory};
ghost use Rattle.rb_tree.specs.SourceTree.{SourceTree};
ghost use Rattle.rb_parser.specs.Source.{IsGoodSource, IsRefusal};
ghost use Rattle.rb_format.specs.Place.{word_at};
ghost use Rattle.rb_validator.specs.Visits.{HasVisits};
ghost use Rattle.rb_compiler.specs.Compiled.{IsCompiled};

use rb_lexer::{SourceFault, SourceKind};
use rb_parser::parse_unweighed;
use rb_validator::Bundle;
use rb_writer::{Written, write_if_light};
use std::alloc::Global;

const OUT_OF_MEMORY: SourceFault = SourceFault {
    kind: SourceKind::Memory,
    line: 0,
};

fn compiled(alloc: Global, text: &[u8]) -> Result<Written, SourceFault>
    ensures compiled { IfOk result (λ w. IsCompiled text.now w.file.items) }
    ensures visits { IfOk result (λ w. HasVisits w.file.items w.containers) }
    ensures end { IfOk result
        (λ w. length w.file.items ≡ 32 + 4 * word_at (drop 32 w.file.items) 4) }
    ensures only { (name : List ℕ) (source : SourceTree) → IsGoodSource text.now name source
        → IfErr result (λ e. e.kind ≡ Memory) }
    ensures refused { IfErr result (IsRefusal text.now) }
{
    let source = match parse_unweighed(alloc, text) {
        Ok(source) => source,
        Err(fault) => return Err(fault),
    };
    match write_if_light(alloc, &source.tree, source.no_fallback) {
        Ok(Some(mut written)) => {
            written.file.shrink_to_fit();
            Ok(written)
        }
        Ok(None) => Err(SourceFault {
            kind: SourceKind::TooLarge,
            line: 1,
        }),
        Err(_) => Err(OUT_OF_MEMORY),
    }
}

/// Compiles a bundle text to a file in ResB format 1.1, or 1.2 if it is without fallback.
/// docs/FORMAT.md says how it differs from the files of `genrb --formatVersion 1`. The returned
/// buffer has no spare capacity. Fails as `parse` does.
///
/// ```rust
/// let file = compile(alloc, b"root{a{\"b\"}}")?; // 76 bytes
/// compile(alloc, b"root{\na:int{09}}") // Err: BadInt, line 2
/// ```
pub fn compile(alloc: Global, text: &[u8]) -> Result<Vec<u8>, SourceFault>
    ensures compiled { IfOk result (λ file. IsCompiled text.now file.items) }
    ensures end { IfOk result
        (λ file. length file.items ≡ 32 + 4 * word_at (drop 32 file.items) 4) }
    ensures only { (name : List ℕ) (source : SourceTree) → IsGoodSource text.now name source
        → IfErr result (λ e. e.kind ≡ Memory) }
    ensures refused { IfErr result (IsRefusal text.now) }
{
    match compiled(alloc, text) {
        Ok(written) => Ok(written.file),
        Err(fault) => Err(fault),
    }
}

/// Compiles a bundle text, like `compile`, to a bundle. Its file isn't checked again.
///
/// ```rust
/// let bundle = compile_bundle(alloc, b"root{a{\"b\"}}")?; // `bundle.bytes()` is what `compile` gives
/// ```
pub fn compile_bundle(alloc: Global, text: &[u8]) -> Result<Bundle, SourceFault>
    ensures compiled { IfOk result (λ bundle. IsCompiled text.now bundle) }
    ensures only { (name : List ℕ) (source : SourceTree) → IsGoodSource text.now name source
        → IfErr result (λ e. e.kind ≡ Memory) }
    ensures refused { IfErr result (IsRefusal text.now) }
{
    let written = match compiled(alloc, text) {
        Ok(written) => written,
        Err(fault) => return Err(fault),
    };
    match Bundle::written(
        alloc,
        written.file,
        written.containers,
        written.longest_alias,
    ) {
        Ok(bundle) => Ok(bundle),
        Err(_) => Err(OUT_OF_MEMORY),
    }
}
