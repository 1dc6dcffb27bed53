//! Greets a visitor of a shop in its language: the engine of many applications, without its lines.
#![tactic(auto)]

ghost use Rattle.std.specs.Prelude.{◌≡◌, ◌≢◌, ℕ, List};
ghost use Rattle.rb_engine.specs.Answer.{answer_over};
ghost use Rattle.rb_engine.specs.Ask.{Requests, Looks, caller};
ghost use Rattle.rb_engine.specs.Kept.{state_of};

use rb_engine::{Engine, Payload, Reply, Request};
use rb_parents::Parents;
use rb_replies::item_text;
use rb_tree::ByteList;
use std::alloc::Global;
use std::hash::RandomState;

/// Returns the install of a bundle text.
fn install(alloc: Global, app: &str, locale: &str, text: &str) -> anyhow::Result<Request> {
    Ok(Request::Install {
        app: ByteList::from_vec(app.as_bytes().to_vec(alloc)?),
        locale: ByteList::from_vec(locale.as_bytes().to_vec(alloc)?),
        payload: Payload::Text(ByteList::from_vec(text.as_bytes().to_vec(alloc)?)),
    })
}

/// Answers a request. Each application that didn't make it is answered as before by each lookup.
fn answer(engine: &mut Engine, alloc: Global, request: Request) -> Reply
    ensures others { (app locale path : List ℕ)
        → app ≢ caller (Requests request)
        → answer_over (state_of engine.new).start ((state_of engine.new).lists app)
        (Looks app locale path)
        ≡ answer_over (state_of engine.old).start ((state_of engine.old).lists app)
        (Looks app locale path) }
{
    engine.handle(alloc, request)
}

/// Returns the greeting of `shop` for a visitor, as JSON.
fn greeting(alloc: Global, engine: &Engine, locale: &str) -> anyhow::Result<String> {
    match engine.look(b"shop", locale.as_bytes(), b"greeting") {
        Ok(found) => Ok(item_text(alloc, found.node, b"")?),
        Err(fault) => Ok(format!(in alloc; "{}", fault.word())?),
    }
}

fn main(rt: HostRuntime) -> anyhow::Result<()> {
    let alloc = rt.alloc();
    let state = RandomState::new(&rt)?;
    let mut engine = match Engine::start(alloc, state, Vec::new(alloc), Parents::none(alloc)) {
        Ok(engine) => engine,
        Err(fault) => return Ok(println!(rt; "not started: {}", fault.word())?),
    };
    for (locale, text) in [
        ("root", r#"root { greeting { "Hello" } }"#),
        ("de", r#"de { greeting { "Hallo" } }"#),
    ] {
        let reply = answer(&mut engine, alloc, install(alloc, "shop", locale, text)?);
        println!(rt; "install {locale}: {}", reply.word())?;
    }
    let other = install(alloc, "bank", "de_AT", r#"de_AT { greeting { "Geld" } }"#)?;
    let reply = answer(&mut engine, alloc, other);
    println!(rt; "install of another: {}", reply.word())?;
    for locale in ["de_AT", "fr"] {
        println!(rt; "{locale}: {}", greeting(alloc, &engine, locale)?)?;
    }
    Ok(())
}
