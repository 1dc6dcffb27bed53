//! Reads a line as a request. The texts at the names that count are borrowed from the line, or from
//! a scratch if they have escapes; the line's other values are not stored.
ghost use Rattle.std.specs.Prelude.{◌≡◌, IfOk, option_map, Some};
ghost use Rattle.serde_json.specs.Data.{Data};
ghost use Rattle.hex.specs.Hex.{decode_of};
ghost use Rattle.rb_requests.specs.Asked.{call_in, decoded, change_in, remove_in, list_in, look_in};
ghost use Rattle.rb_requests.specs.Within.{usage_in};
ghost use Rattle.rb_engine.specs.Source.{change_request, payload_of as payload_from};
ghost use Rattle.rb_requests.specs.inner.Line.{line_view, payload_by, AreTextsOf};

use crate::member::Member;
use crate::texts::Texts;
use hex::FromHexError;
use rb_engine::{BundleSource, Change};
use rb_tree::ByteList;
use std::alloc::{AllocError, Global};

/// A request that changes or lists bundles. Its texts are borrowed from its line.
#[derive(Drop)]
pub enum LineRequest<'a> {
    Change {
        change: Change,
        app: &'a str,
        locale: &'a str,
        source: BundleSource<'a>,
    },
    Remove {
        app: &'a str,
        locale: &'a str,
    },
    List {
        app: &'a str,
    },
}

/// A request or a lookup that was read from a line, whose texts are borrowed from the line.
#[derive(Drop)]
pub(crate) enum Line<'a> {
    Request(LineRequest<'a>),
    Look {
        app: &'a str,
        locale: &'a str,
        path: &'a str,
    },
}

pub(crate) fn payload_of<'a>(
    alloc: Global,
    texts: &Texts<'a>,
) -> Result<Option<BundleSource<'a>>, AllocError>
    ensures { IfOk result
        (λ o. option_map payload_from o ≡ payload_by texts.now.text texts.now.file) }
{
    match (texts.text, texts.file) {
        (Some(Member::Text(text)), None) => Ok(Some(BundleSource::Text(text.as_bytes()))),
        (None, Some(Member::Text(digits))) => decode(alloc, digits),
        _ => Ok(None),
    }
}

/// Decodes a file from hexadecimal digits, or returns `None` if they are malformed.
pub(crate) fn decode<'a>(
    alloc: Global,
    digits: &str,
) -> Result<Option<BundleSource<'a>>, AllocError>
    ensures { IfOk result (λ o. option_map payload_from o ≡ decoded (decode_of digits.now)) }
{
    match hex::decode(alloc, digits.as_bytes()) {
        Ok(bytes) => Ok(Some(BundleSource::File(ByteList::from_vec(bytes)))),
        Err(FromHexError::OutOfMemory) => Err(AllocError),
        Err(_) => Ok(None),
    }
}

fn change_of<'a>(
    alloc: Global,
    texts: &Texts<'a>,
    change: Change,
) -> Result<Option<Line<'a>>, AllocError>
    ensures { IfOk result (λ o. (d : Data) → AreTextsOf texts.now d
        → option_map line_view o ≡ change_in (change_request change) d) }
{
    let Some(Member::Text(app)) = texts.app else {
        return Ok(None);
    };
    let Some(Member::Text(locale)) = texts.locale else {
        return Ok(None);
    };
    let Some(source) = payload_of(alloc, texts)? else {
        return Ok(None);
    };
    Ok(Some(Line::Request(LineRequest::Change {
        change,
        app,
        locale,
        source,
    })))
}

fn remove_of<'a>(texts: &Texts<'a>) -> Option<Line<'a>>
    ensures { (d : Data) → AreTextsOf texts.now d → option_map line_view result ≡ remove_in d }
{
    match (texts.app, texts.locale) {
        (Some(Member::Text(app)), Some(Member::Text(locale))) => {
            Some(Line::Request(LineRequest::Remove { app, locale }))
        }
        _ => None,
    }
}

pub(crate) fn list_of<'a>(texts: &Texts<'a>) -> Option<Line<'a>>
    ensures { (d : Data) → AreTextsOf texts.now d → option_map line_view result ≡ list_in d }
{
    match texts.app {
        Some(Member::Text(app)) => Some(Line::Request(LineRequest::List { app })),
        _ => None,
    }
}

fn look_of<'a>(texts: &Texts<'a>) -> Option<Line<'a>>
    ensures { (d : Data) → AreTextsOf texts.now d → option_map line_view result ≡ look_in d }
{
    match (texts.app, texts.locale, texts.path) {
        (Some(Member::Text(app)), Some(Member::Text(locale)), Some(Member::Text(path))) => {
            Some(Line::Look { app, locale, path })
        }
        _ => None,
    }
}

/// Returns the request of a line with these texts, or `None` if it is no request.
pub(crate) fn line_of<'a>(alloc: Global, texts: &Texts<'a>) -> Result<Option<Line<'a>>, AllocError>
    ensures { IfOk result
        (λ o. (d : Data) → AreTextsOf texts.now d → option_map line_view o ≡ call_in d) }
{
    let Some(Member::Text(op)) = texts.op else {
        return Ok(None);
    };
    if op == "look" {
        Ok(look_of(texts))
    } else if op == "install" {
        change_of(alloc, texts, Change::Install)
    } else if op == "replace" {
        change_of(alloc, texts, Change::Replace)
    } else if op == "remove" {
        Ok(remove_of(texts))
    } else if op == "list" {
        Ok(list_of(texts))
    } else {
        Ok(None)
    }
}

/// Returns the application whose usage a line with these texts asks for, if it asks for usage.
pub(crate) fn usage_app<'a>(texts: &Texts<'a>) -> Option<&'a str>
    ensures { (d : Data) → AreTextsOf texts.now d → option_map (λ s. s.now) result ≡ usage_in d }
{
    match (texts.op, texts.app) {
        (Some(Member::Text(op)), Some(Member::Text(app))) if op == "usage" => Some(app),
        _ => None,
    }
}
