//! The start of an engine: the arguments of `resb serve`, the files that they name, and the engine
//! that is made of them.
ghost use Rattle.std.specs.Prelude.{◌≡◌, length, vec_len, IfOk};
ghost use Rattle.rb_engine.specs.Kept.{state_of};
ghost use Rattle.rb_engine.specs.Start.{IsIndexed};
ghost use Rattle.rb_console.specs.Starting.{HasParentsFor};

use rb_asked::ParentsSource;
use rb_console::{Form, Given, StartError, all_given, bytes_of, is_text, parents_of};
use rb_engine::{Engine, Payload, StartFault};
use rb_locales::Name;
use rb_tree::ByteList;
use std::hash::RandomState;
use std::random::RandomSource;
use std::rt::Files;

/// Returns the error of an engine's start, whose entries are the files of these bundles.
fn engine_error<'a>(bundles: &[Given<'a>], fault: StartFault) -> StartError<'a>
    requires { IsIndexed (length bundles.now) fault }
{
    match fault {
        StartFault::BadText(i) | StartFault::BadFile(i) | StartFault::Twice(i) => {
            StartError::Refused(bundles[i].file, fault.word())
        }
        StartFault::Memory => StartError::Memory,
    }
}

/// Makes the payload of a file: a bundle text if its name ends in `.txt`, otherwise a `.res` file.
fn payload_of(file: &str, bytes: Vec<u8>) -> Payload {
    let bytes = ByteList::from_vec(bytes);
    if is_text(file) {
        Payload::Text(bytes)
    } else {
        Payload::File(bytes)
    }
}

/// Reads the bundles' files in order.
fn read_all<'a, R: Files + AllocGlobal>(
    rt: &R,
    bundles: &[Given<'a>],
) -> Result<Vec<(Name, Payload)>, StartError<'a>>
    ensures { IfOk result (λ entries. vec_len entries ≡ length bundles.now) }
{
    let mut entries = Vec::new(rt.alloc());
    for bundle in bundles {
        let payload = payload_of(bundle.file, bytes_of(rt, bundle.file)?);
        if entries.push((bundle.name, payload)).is_err() {
            return Err(StartError::Memory);
        }
    }
    Ok(entries)
}

/// Starts an engine with explicit parents, if they are given, and ICUDATA made of the arguments, each
/// `LOCALE=FILE`.
///
/// Splits all arguments, reads and checks the parents, reads the other files, asks the runtime for
/// a random state and starts the engine, in this order; returns the first error.
pub fn start_engine<'a, R: Files + AllocGlobal + RandomSource>(
    rt: &R,
    parents: Option<ParentsSource<'a>>,
    arguments: &[&'a str],
) -> Result<Engine, StartError<'a>>
    ensures parents { IfOk result
        (λ engine. HasParentsFor parents.entry (state_of engine).start.parents) }
{
    let bundles = all_given(rt.alloc(), Form::Located, arguments)?;
    let parents = parents_of(rt, parents)?;
    let entries = read_all(rt, &bundles)?;
    let Ok(state) = RandomState::new(rt) else {
        return Err(StartError::NoRandomState);
    };
    match Engine::start(rt.alloc(), state, entries, parents) {
        Ok(engine) => Ok(engine),
        Err(fault) => Err(engine_error(&bundles, fault)),
    }
}
