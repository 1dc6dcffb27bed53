//! Judges the payloads of extended requests, with what is wrong with a text or a file.
ghost use Rattle.std.specs.Prelude.{◌≡◌, ◌≢◌, Some, option_map};
ghost use Rattle.rb_lexer.specs.declared.fault.SourceKind.TheVariants.{Memory};
ghost use Rattle.rb_locales.specs.Locale.{name};
ghost use Rattle.rb_packages.specs.App.{app_of};
ghost use Rattle.rb_engine.specs.ReadFaults.{IsFirstFault};
ghost use Rattle.rb_engine.specs.Source.{payload_of};
ghost use Rattle.rb_engine.specs.declared.request.Payload.{Payload};
ghost use Rattle.rb_requests.specs.Refused.{IsFirstError, at_index, only};
ghost use Rattle.rb_requests.specs.inner.Drafted.{untaken_reason};
ghost use Rattle.rb_requests.specs.inner.Judged.{IfRefused, Judges, file_reason, reason_of};
ghost use Rattle.rb_requests.specs.inner.Judged.{text_reason, names_error as error_of_names};

use crate::changes::{is_over, source_len};
use crate::limits::{Limits, Refusal};
use rb_engine::{App, BundleSource, DraftFault, IncomingBundle, ReadFault, Reply};
use rb_format::FileFault;
use rb_lexer::{SourceFault, SourceKind};
use rb_locales::Name;
use rb_replies::Detail;
use std::alloc::Global;

/// The reason why a change isn't made.
#[derive(Clone, Copy)]
pub(crate) enum Unmade {
    /// Refused, with a code.
    Refused(&'static str, Detail),
    /// Out of memory; nothing has changed.
    Memory,
}

impl Unmade {
    /// Returns a refusal that has only a code.
    pub(crate) fn plain(word: &'static str) -> Unmade
        ensures { reason_of result ≡ Some (only word.now) }
    {
        Unmade::Refused(word, Detail::NONE)
    }

    /// Returns the reason as that of a release's change with an index.
    pub(crate) fn at(self, index: usize) -> Unmade
        ensures { reason_of result ≡ option_map (at_index index) (reason_of self) }
    {
        match self {
            Unmade::Refused(word, detail) => Unmade::Refused(
                word,
                Detail {
                    code: detail.code,
                    index: Some(index as u64),
                    line: detail.line,
                },
            ),
            Unmade::Memory => Unmade::Memory,
        }
    }
}

/// Converts the error of a text: out of memory isn't one of the text.
fn bad_text(fault: SourceFault) -> Unmade
    ensures { IfRefused result (λ r. (fault.kind ≢ Memory) × (r ≡ text_reason fault)) }
{
    match fault.kind {
        SourceKind::Memory => Unmade::Memory,
        kind => Unmade::Refused(
            Reply::BadText.word(),
            Detail {
                code: Some(kind.word()),
                index: None,
                line: Some(fault.line),
            },
        ),
    }
}

fn bad_file(fault: FileFault) -> Unmade
    ensures { IfRefused result (λ r. r ≡ file_reason fault) }
{
    Unmade::Refused(
        Reply::BadFile.word(),
        Detail {
            code: Some(fault.word()),
            index: None,
            line: None,
        },
    )
}

pub(crate) fn undrafted(fault: DraftFault) -> Unmade
    ensures { reason_of result ≡ untaken_reason fault }
{
    match fault {
        DraftFault::Absent => Unmade::plain(Reply::Absent.word()),
        DraftFault::Full => Unmade::plain(Reply::Full.word()),
        DraftFault::Memory => Unmade::Memory,
    }
}

/// Returns why a payload with valid names isn't read.
fn unread(fault: ReadFault) -> Unmade
    ensures { (payload : Payload) → IsFirstFault payload fault
        → IfRefused result (IsFirstError payload) }
{
    match fault {
        ReadFault::BadText(fault) => bad_text(fault),
        ReadFault::BadFile(fault) => bad_file(fault),
        // The names are valid, so memory ran out.
        ReadFault::Refused(_) => Unmade::Memory,
    }
}

/// Returns the code of the first error of an application's name and a locale's, if one is invalid.
fn names_error(app: &[u8], locale: &[u8]) -> Option<&'static str>
    ensures { option_map (λ s. s.now) result ≡ error_of_names (app_of app.now) (name locale.now) }
{
    if let Err(fault) = App::read(app) {
        return Some(fault.word());
    }
    match Name::read(locale) {
        Ok(_) => None,
        Err(_) => Some(Reply::BadLocale.word()),
    }
}

/// Reads an incoming bundle under limits: with valid names, a payload that is too long isn't read.
pub(crate) fn judge(
    alloc: Global,
    limits: &Limits,
    app: &[u8],
    locale: &[u8],
    source: BundleSource<'_>,
) -> Result<IncomingBundle, Unmade>
    ensures { Judges limits.now app.now locale.now (payload_of source.entry) result }
{
    match names_error(app, locale) {
        Some(word) => return Err(Unmade::plain(word)),
        None => {}
    }
    if is_over(limits.bundle_bytes, source_len(&source)) {
        return Err(Unmade::plain(Refusal::BundleTooLong.word()));
    }
    match IncomingBundle::judge(alloc, app, locale, source) {
        Ok(incoming) => Ok(incoming),
        Err(fault) => Err(unread(fault)),
    }
}
