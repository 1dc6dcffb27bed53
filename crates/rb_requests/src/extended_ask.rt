//! Reads a line as an extended request.
ghost use Rattle.std.specs.Prelude.{◌≡◌, option_map, IfOk};
ghost use Rattle.serde_json.specs.Data.{Data};
ghost use Rattle.rb_requests.specs.Asked.{call_in};
ghost use Rattle.rb_requests.specs.ExtendedAsked.{Calls, names_in, release_in};
ghost use Rattle.rb_requests.specs.inner.ExtendedForms.{export_in, put_in, sized_list_in, tree_in};
ghost use Rattle.rb_requests.specs.inner.ExtendedForms.{extended_in, usage_asked};
ghost use Rattle.rb_requests.specs.inner.ExtendedLines.{AreAllOf, Asks, form_by, path_by};
ghost use Rattle.rb_requests.specs.inner.Line.{lent};

use crate::ask::{Line, line_of, list_of, payload_of};
use crate::change_list::{Changes, LineChange, flag_of};
use crate::extended_texts::ExtendedTexts;
use crate::member::Member;
use rb_engine::BundleSource;
use std::alloc::{AllocError, Global};

/// An extended request that was read from a line.
#[derive(Drop)]
pub(crate) enum ExtendedLine<'a> {
    /// A request or a lookup that has the same form without extended requests.
    Plain(Line<'a>),
    /// Installs a bundle, or replaces the one with its name.
    Put {
        app: &'a str,
        locale: &'a str,
        source: BundleSource<'a>,
    },
    Sizes {
        app: &'a str,
    },
    Usage {
        app: &'a str,
    },
    Export {
        app: &'a str,
        locale: &'a str,
        is_text: bool,
    },
    /// An item with everything that it inherits; an empty path is the root.
    Tree {
        app: &'a str,
        locale: &'a str,
        path: &'a str,
    },
    Release {
        app: &'a str,
        changes: &'a [LineChange<'a>],
    },
}

fn text_of<'a>(member: Option<Member<'a>>) -> Option<&'a str>
    ensures { option_map (λ s. s.now) result ≡ lent member.entry }
{
    match member {
        Some(Member::Text(text)) => Some(text),
        _ => None,
    }
}

fn put_of<'a>(
    alloc: Global,
    asked: &'a ExtendedTexts<'a>,
) -> Result<Option<ExtendedLine<'a>>, AllocError>
    ensures { IfOk result
        (λ o. (d : Data) → AreAllOf asked.now d → Asks o (put_in d)) }
{
    let Some(app) = text_of(asked.texts.app) else {
        return Ok(None);
    };
    let Some(locale) = text_of(asked.texts.locale) else {
        return Ok(None);
    };
    let Some(source) = payload_of(alloc, &asked.texts)? else {
        return Ok(None);
    };
    Ok(Some(ExtendedLine::Put {
        app,
        locale,
        source,
    }))
}

/// Reads whether an export is to be a text; none if it is neither that nor a file.
fn is_text_asked(form: Option<Member<'_>>) -> Option<bool>
    ensures { result ≡ form_by form.entry }
{
    match form {
        None => Some(false),
        Some(Member::Text(word)) => { if word == "text" { Some(true) } else { None } }
        _ => None,
    }
}

fn export_of<'a>(asked: &'a ExtendedTexts<'a>) -> Option<ExtendedLine<'a>>
    ensures { (d : Data) → AreAllOf asked.now d → Asks result (export_in d) }
{
    let app = text_of(asked.texts.app)?;
    let locale = text_of(asked.texts.locale)?;
    let is_text = is_text_asked(asked.form)?;
    Some(ExtendedLine::Export {
        app,
        locale,
        is_text,
    })
}

/// Reads a path that may be missing, which is then the root's; none if it isn't a text.
fn path_asked<'a>(path: Option<Member<'a>>) -> Option<&'a str>
    ensures { option_map (λ s. s.now) result ≡ path_by path.entry }
{
    match path {
        None => Some(""),
        path => text_of(path),
    }
}

fn tree_of<'a>(asked: &'a ExtendedTexts<'a>) -> Option<ExtendedLine<'a>>
    ensures { (d : Data) → AreAllOf asked.now d → Asks result (tree_in d) }
{
    let app = text_of(asked.texts.app)?;
    let locale = text_of(asked.texts.locale)?;
    let path = path_asked(asked.texts.path)?;
    Some(ExtendedLine::Tree { app, locale, path })
}

fn release_of<'a>(asked: &'a ExtendedTexts<'a>) -> Option<ExtendedLine<'a>>
    ensures { (d : Data) → AreAllOf asked.now d → Asks result (release_in d) }
{
    let app = text_of(asked.texts.app)?;
    match &asked.changes {
        Some(Changes::All(changes)) => Some(ExtendedLine::Release { app, changes }),
        _ => None,
    }
}

fn usage_of<'a>(asked: &'a ExtendedTexts<'a>) -> Option<ExtendedLine<'a>>
    ensures { (d : Data) → AreAllOf asked.now d → Asks result (usage_asked d) }
{
    let app = text_of(asked.texts.app)?;
    Some(ExtendedLine::Usage { app })
}

/// Returns a list with lengths, or one of names as without extended requests.
fn names_of<'a>(asked: &'a ExtendedTexts<'a>, has_sizes: bool) -> Option<ExtendedLine<'a>>
    ensures { (d : Data) → AreAllOf asked.now d → Asks result (names_in d has_sizes) }
{
    if !has_sizes {
        return match list_of(&asked.texts) {
            Some(line) => Some(ExtendedLine::Plain(line)),
            None => None,
        };
    }
    let app = text_of(asked.texts.app)?;
    Some(ExtendedLine::Sizes { app })
}

fn sized_list_of<'a>(asked: &'a ExtendedTexts<'a>) -> Option<ExtendedLine<'a>>
    ensures { (d : Data) → AreAllOf asked.now d → Asks result (sized_list_in d) }
{
    let has_sizes = flag_of(asked.sizes)?;
    names_of(asked, has_sizes)
}

/// Returns a request that is the same without extended requests.
fn plain_of<'a>(
    alloc: Global,
    asked: &'a ExtendedTexts<'a>,
) -> Result<Option<ExtendedLine<'a>>, AllocError>
    ensures { IfOk result
        (λ o. (d : Data) → AreAllOf asked.now d → Asks o (option_map Calls (call_in d))) }
{
    match line_of(alloc, &asked.texts)? {
        Some(line) => Ok(Some(ExtendedLine::Plain(line))),
        None => Ok(None),
    }
}

/// Returns the request of a line with these members, or `None` if it is no request.
pub(crate) fn extended_of<'a>(
    alloc: Global,
    asked: &'a ExtendedTexts<'a>,
) -> Result<Option<ExtendedLine<'a>>, AllocError>
    ensures { IfOk result (λ o. (d : Data) → AreAllOf asked.now d → Asks o (extended_in d)) }
{
    let Some(op) = text_of(asked.texts.op) else {
        return Ok(None);
    };
    if op == "put" {
        put_of(alloc, asked)
    } else if op == "list" {
        Ok(sized_list_of(asked))
    } else if op == "usage" {
        Ok(usage_of(asked))
    } else if op == "export" {
        Ok(export_of(asked))
    } else if op == "tree" {
        Ok(tree_of(asked))
    } else if op == "release" {
        Ok(release_of(asked))
    } else {
        plain_of(alloc, asked)
    }
}
