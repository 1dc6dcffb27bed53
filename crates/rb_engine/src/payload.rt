//! Reads a payload as a bundle, or reports the first error of its text or file.
ghost use Rattle.std.specs.Prelude.{◌≡◌, IfOk, IfErr};
ghost use Rattle.rb_compiler.specs.Compiled.{IsCompiled};
ghost use Rattle.rb_engine.specs.Source.{BundleOrFault, payload_of};
ghost use Rattle.rb_engine.specs.Change.{IsFileOf};
ghost use Rattle.rb_engine.specs.ReadFaults.{IsFirstFault};
ghost use Rattle.rb_engine.specs.declared.request.Payload.TheVariants.{Text, File};

use crate::request::{BundleSource, Payload, Reply};
use rb_compiler::compile_bundle;
use rb_format::FileFault;
use rb_lexer::{SourceFault, SourceKind};
use rb_tree::ByteList;
use rb_validator::{Bundle, accept};
use std::alloc::Global;

/// The reason why an incoming bundle isn't read.
#[derive(Debug, Drop)]
pub enum ReadFault {
    /// The names are invalid, or out of memory.
    Refused(Reply),
    /// The first error of the text, which isn't a valid bundle text.
    BadText(SourceFault),
    /// The first error of the file, which isn't a valid bundle.
    BadFile(FileFault),
}

impl From<ReadFault> for Reply {
    ghost use Rattle.rb_engine.specs.Source.{unread_reply};

    ghost from_gives = { λ e r. r ≡ unread_reply e };

    fn from(fault: ReadFault) -> Self {
        match fault {
            ReadFault::Refused(reply) => reply,
            ReadFault::BadText(_) => Reply::BadText,
            ReadFault::BadFile(_) => Reply::BadFile,
        }
    }
}

impl From<SourceFault> for ReadFault {
    ghost use Rattle.rb_engine.specs.Source.{IsTextFault};

    ghost from_gives = { λ e f. IsTextFault e f };

    /// Converts the error of a text: out of memory isn't one of the text.
    fn from(fault: SourceFault) -> Self {
        match fault.kind {
            SourceKind::Memory => ReadFault::Refused(Reply::Memory),
            _ => ReadFault::BadText(fault),
        }
    }
}

fn text_bundle(alloc: Global, text: &[u8]) -> Result<Bundle, ReadFault>
    ensures bundle { BundleOrFault (Text text.now) result }
    ensures first { IfErr result (IsFirstFault (Text text.now)) }
    ensures file { IfOk result (λ file. IsCompiled text.now file) }
{
    let bundle = compile_bundle(alloc, text)?;
    Ok(bundle)
}

fn file_bundle(alloc: Global, file: ByteList) -> Result<Bundle, ReadFault>
    ensures bundle { BundleOrFault (File file) result }
    ensures first { IfErr result (IsFirstFault (File file)) }
    ensures file { IfOk result (λ bundle. bundle ≡ file) }
{
    rb_format::laws::a_tree_or_a_fault();
    match accept(alloc, file.into_vec()) {
        Ok(bundle) => Ok(bundle),
        Err((FileFault::Memory, _)) => Err(ReadFault::Refused(Reply::Memory)),
        Err((fault, _)) => Err(ReadFault::BadFile(fault)),
    }
}

/// Reads a bundle, or returns its first error.
pub(crate) fn bundle_of(alloc: Global, source: BundleSource<'_>) -> Result<Bundle, ReadFault>
    ensures bundle { BundleOrFault (payload_of source.entry) result }
    ensures first { IfErr result (IsFirstFault (payload_of source.entry)) }
    ensures file { IfOk result (IsFileOf (payload_of source.entry)) }
{
    match source {
        BundleSource::Text(text) => text_bundle(alloc, text),
        BundleSource::File(file) => file_bundle(alloc, file),
    }
}

pub(crate) fn payload_bundle(alloc: Global, payload: Payload) -> Result<Bundle, ReadFault>
    ensures bundle { BundleOrFault payload result }
{
    match payload {
        Payload::Text(text) => text_bundle(alloc, text.as_slice()),
        Payload::File(file) => file_bundle(alloc, file),
    }
}
