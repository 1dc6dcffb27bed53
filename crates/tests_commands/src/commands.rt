//! Tests of the commands that the built program can't show: calls that fail, a clock that runs fast, a
//! system without random bytes, and the names that they make.
mod desk;
mod faults;

use desk::Desk;
use rb_asked::{AskedCheck, AskedCompile, Compiling};
use rb_console::{Console, StartError, not_started_on, stem};
use rb_convert::{compile, name_of};
use rb_inspect::check;
use std::alloc::Global;
use std::process::ExitCode;

/// The file of `root{}`.
const EMPTY: [u8; 56] = [
    0x20, 0x00, 0xDA, 0x27, 0x14, 0x00, 0x00, 0x00, 0x00, 0x00, 0x02, 0x00, 0x52, 0x65, 0x73, 0x42,
    0x01, 0x01, 0x00, 0x00, 0x00, 0x00, 0x00, 0x00, 0x00, 0x00, 0x00, 0x00, 0x00, 0x00, 0x00, 0x00,
    0x00, 0x00, 0x00, 0x20, 0x05, 0x00, 0x00, 0x00, 0x06, 0x00, 0x00, 0x00, 0x06, 0x00, 0x00, 0x00,
    0x06, 0x00, 0x00, 0x00, 0x00, 0x00, 0x00, 0x00,
];

/// The file of `root{a{"b"}}`.
const ONE_STRING: [u8; 76] = [
    0x20, 0x00, 0xDA, 0x27, 0x14, 0x00, 0x00, 0x00, 0x00, 0x00, 0x02, 0x00, 0x52, 0x65, 0x73, 0x42,
    0x01, 0x01, 0x00, 0x00, 0x00, 0x00, 0x00, 0x00, 0x00, 0x00, 0x00, 0x00, 0x00, 0x00, 0x00, 0x00,
    0x09, 0x00, 0x00, 0x20, 0x05, 0x00, 0x00, 0x00, 0x07, 0x00, 0x00, 0x00, 0x0B, 0x00, 0x00, 0x00,
    0x0B, 0x00, 0x00, 0x00, 0x01, 0x00, 0x00, 0x00, 0x61, 0x00, 0xAA, 0xAA, 0x01, 0x00, 0x00, 0x00,
    0x62, 0x00, 0x00, 0x00, 0x01, 0x00, 0x18, 0x00, 0x07, 0x00, 0x00, 0x00,
];

/// A file whose root holds an array that holds itself.
const HOLDS_ITSELF: [u8; 76] = [
    0x20, 0x00, 0xDA, 0x27, 0x14, 0x00, 0x00, 0x00, 0x00, 0x00, 0x02, 0x00, 0x52, 0x65, 0x73, 0x42,
    0x01, 0x01, 0x00, 0x00, 0x00, 0x00, 0x00, 0x00, 0x00, 0x00, 0x00, 0x00, 0x00, 0x00, 0x00, 0x00,
    0x09, 0x00, 0x00, 0x20, 0x05, 0x00, 0x00, 0x00, 0x07, 0x00, 0x00, 0x00, 0x0B, 0x00, 0x00, 0x00,
    0x0B, 0x00, 0x00, 0x00, 0x01, 0x00, 0x00, 0x00, 0x61, 0x00, 0xAA, 0xAA, 0x01, 0x00, 0x00, 0x00,
    0x07, 0x00, 0x00, 0x80, 0x01, 0x00, 0x18, 0x00, 0x07, 0x00, 0x00, 0x80,
];

/// The most bytes of a file of a desk.
const ROOM: usize = 1000;

/// Checks that a command ended with this status, and printed these texts.
fn ended(desk: &Desk, found: ExitCode, status: u8, output: &str, errors: &str) -> bool {
    found == ExitCode::from(status) && desk.said(output, errors)
}

/// Makes a desk with files. If memory runs out some are missing, and the test fails.
fn desk_of(alloc: Global, files: &[(&str, &[u8])]) -> Desk {
    let desk = Desk::new(alloc, ROOM);
    for (name, bytes) in files {
        let _ = desk.put(name, bytes);
    }
    desk
}

/// Returns what `compile in.txt OUT` asks for.
fn compiling(output: &str) -> AskedCompile<'_> {
    AskedCompile {
        input: "in.txt",
        output,
        how: Compiling {
            is_json: false,
            no_fallback: false,
            is_forced: false,
            is_quiet: false,
        },
    }
}

/// Checks that a text can't be written to a file of a small disk.
fn is_unwritten(desk: &Desk, file: &str, errors: &str) -> bool {
    let status = compile(desk, Console::plain(), &compiling(file));
    ended(desk, status, 2, "", errors)
}

fn keeps_older_files(desk: &Desk) -> bool {
    desk.put("in.txt", b"root{}")
        && is_unwritten(desk, "out.res", "cannot write out.res\n")
        && !desk.keeps("out.res")
        && desk.put("older.res", &ONE_STRING)
        && is_unwritten(desk, "older.res", "cannot write older.res\n")
        && desk.has("older.res", &ONE_STRING)
        && !desk.keeps(".resb-unfinished-0000000000000000")
}

fn keeps_devices(desk: &Desk) -> bool {
    desk.put("/dev/full", b"")
        && is_unwritten(desk, "/dev/full", "cannot write /dev/full\n")
        && desk.keeps("/dev/full")
}

/// Checks what is left on a disk that has no room for a file.
fn leaves_all(desk: &Desk) -> bool {
    keeps_older_files(desk) && keeps_devices(desk)
}

#[test]
fn leaves_no_half_file(rt: HostRuntime) {
    assert!(rt; leaves_all(&Desk::new(rt.alloc(), 40)));
}

/// Checks the report of a start without random bytes.
fn says_no_random_state(desk: &Desk) -> bool {
    let status = not_started_on(desk, Console::plain(), StartError::NoRandomState);
    ended(desk, status, 2, "", "no random state\n")
}

#[test]
fn says_that_random_bytes_are_missing(rt: HostRuntime) {
    assert!(rt; says_no_random_state(&Desk::new(rt.alloc(), ROOM)));
}

/// Checks the report of a start for which there is no memory.
fn says_memory(desk: &Desk) -> bool {
    let status = not_started_on(desk, Console::plain(), StartError::Memory);
    ended(desk, status, 1, "", "Memory\n")
}

#[test]
fn says_that_memory_is_out(rt: HostRuntime) {
    assert!(rt; says_memory(&Desk::new(rt.alloc(), ROOM)));
}

/// A bundle, and a file that is none.
const CHECKED: [(&str, &[u8]); 2] = [("good.res", &ONE_STRING), ("bad.res", &HOLDS_ITSELF)];

const TERMINAL: Console = Console {
    is_quiet: false,
    is_terminal: true,
    is_output_terminal: false,
};

/// Checks that on a terminal a command reports its progress once a second has passed, and an error
/// names the command that explains it.
fn tells_a_terminal(desk: &Desk) -> bool {
    let output = "good.res: ok, 1 visits\n";
    let errors =
        "\r1 of 2\u{1b}[K\r\u{1b}[Kbad.res: TooDeep (resb explain TooDeep)\n\r2 of 2\u{1b}[K\r\u{1b}[K";
    let Ok(files) = ["good.res", "bad.res"].as_slice().to_vec(desk.alloc()) else {
        return false;
    };
    let asked = AskedCheck {
        files,
        is_json: false,
        is_quiet: false,
    };
    ended(desk, check(desk, TERMINAL, &asked), 1, output, errors)
}

#[test]
fn terminals_are_told_more(rt: HostRuntime) {
    assert!(rt; tells_a_terminal(&desk_of(rt.alloc(), &CHECKED)));
}

/// Files, each with the name of its bundle.
const NAMES: &str = "\
de.res|de
/a.b/de_AT.2.res|de_AT
de|de
.res|
a/|";

fn are_names() -> bool {
    for row in NAMES.lines() {
        match row.split_once('|') {
            Some((file, name)) if name_of(file) == name => {}
            _ => return false,
        }
    }
    true
}

#[test]
fn names_a_bundle_as_its_file(rt: HostRuntime) {
    assert!(rt; are_names());
}

/// Texts, each with the name of its file.
const STEMS: &str = "\
de.txt|de
a.b/de_AT.txt|de_AT
a/de.x.txt|de.x
de|de
a/.txt|.txt
a/|";

fn are_stems() -> bool {
    for row in STEMS.lines() {
        match row.split_once('|') {
            Some((file, name)) if stem(file) == name => {}
            _ => return false,
        }
    }
    true
}

#[test]
fn stems_are_names_without_endings(rt: HostRuntime) {
    assert!(rt; are_stems());
}
