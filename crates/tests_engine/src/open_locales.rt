use crate::engine::{answers, empty_engine, opened};
use rb_engine::{Engine, OpenLocale, Stale};
use std::alloc::Global;

/// Steps of applications with aliases, bundles without fallback and trails that are refused.
const LOOKUPS: &str = r#"install|shop|de|de{menu{close{"C"} link:alias{"/LOCALE/menu/close"}}}|Done
install|shop|de_AT|de_AT{menu{open{"O"}}}|Done
install|shop|root|root{x{"R"} a:alias{"/LOCALE/menu/open"} b:alias{"fr/b"} c:alias{""}}|Done
install|shop|iw|iw{%%ALIAS{"he"}}|Done
install|shop|he|he:table(nofallback){x{"H"}}|Done
install|shop|xa|xa{%%Parent{"xa"}}|Done
install|shop|xb|xb{%%Parent{"?"}}|Done
find|shop|de_AT|menu/open|O|de_AT|de_AT
find|shop|de_AT|menu/close|C|de|de_AT
find|shop|de_AT|menu/link|C|de|de_AT
find|shop|de_AT|a|O|de_AT|de_AT
find|shop|de_CH|x|R|root|de
find|shop|iw_IL|x|H|he|he
miss|shop|de|a|Missing
miss|shop|de|b|TooManyAliases
miss|shop|de|c|AliasText
miss|shop|de|a//b|BadPath
miss|shop|he|menu|Missing
miss|shop|xa|x|Chain
miss|shop|xb|x|BadParent
miss|bank|de|x|NoBundle"#;

fn finds_all(rt: &HostRuntime) -> bool {
    match empty_engine(rt) {
        Some(mut engine) => answers(rt.alloc(), &mut engine, LOOKUPS),
        None => false,
    }
}

#[test]
fn lookups_from_open_locales(rt: HostRuntime) {
    assert!(rt; finds_all(&rt));
}

const START: &str = r#"install|shop|de|de{menu{close{"C"}}}|Done
install|bank|de|de{}|Done"#;

const CHANGES: &str = r#"install|bank|fr|fr{}|Done
install|news|de|de{}|Done
remove|bank|fr|Done
remove|news|de|Done"#;

const REFUSED: &str = r#"install|bank|de|de{}|Exists
install|bank|fr|fr{|BadText
install|ICUDATA|fr|fr{}|Reserved
remove|bank|fr|Absent
find|shop|de_AT|menu/close|C|de|de"#;

fn is_stale(engine: &Engine, opened: &OpenLocale) -> bool {
    matches!(engine.look_at(opened, b"menu/close"), Err(Stale))
}

/// Checks whether an open locale is stale after a step, but not before.
fn becomes_stale(alloc: Global, engine: &mut Engine, step: &str) -> Option<bool> {
    let opened = opened(engine, ("shop", "de_AT")).ok()?;
    if is_stale(engine, &opened) || !answers(alloc, engine, step) {
        return None;
    }
    Some(is_stale(engine, &opened))
}

fn all_become_stale(alloc: Global, engine: &mut Engine, steps: &str, stale: bool) -> bool {
    for step in steps.lines() {
        if becomes_stale(alloc, engine, step) != Some(stale) {
            return false;
        }
    }
    true
}

fn changes_make_stale(rt: &HostRuntime) -> bool {
    let alloc = rt.alloc();
    match empty_engine(rt) {
        Some(mut engine) => {
            answers(alloc, &mut engine, START)
                && all_become_stale(alloc, &mut engine, REFUSED, false)
                && all_become_stale(alloc, &mut engine, CHANGES, true)
        }
        None => false,
    }
}

#[test]
fn changes_make_open_locales_stale(rt: HostRuntime) {
    assert!(rt; changes_make_stale(&rt));
}
