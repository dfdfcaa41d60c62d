// All that the program sheetplan does: the words of its arguments, a sheet from a file or standard input, its planning table to standard output. No contract
// can speak of what is read and written: what holds this code is that it is run, by several program crates, each on an input of its own.
#![tactic(auto)]

ghost use Rattle.std.specs.Prelude.{◌≤◌};
ghost use Rattle.sheetplan_body.specs.declared.TheConstants.{INPUT};

use plan_asked::{Asked, Phase, end_words, nothing_asked, take_word};
use plan_text::{Ask, ROOM, plan_into};
use std::env::FillError;
use std::io::{Read, Write};
use std::rt::{Env, Files};
use std::{fs, io, str};

// One byte more than the largest sheet has: what an input has past these is not read.
const INPUT: usize = 15622;

// Room for any path.
const PATH: usize = 4096;

// Room for what the system says of an error.
const REASON: usize = 128;

fn say(rt: &impl Print, line: &[u8]) {
    let _ = rt.write_all(line);
}

const HELP: [&[u8]; 7] = [
    b"usage: sheetplan [--page9] [--lead N] [FILE]\n",
    b"  plans the parts of an option sheet: which options are live and which follow, which value goes with which,\n",
    b"  which values some build has, which to stock nothing of, and how many builds there are.\n",
    b"  FILE      the sheet; without it standard input is read\n",
    b"  --page9   adds page nine of the flat meter\n",
    b"  --lead N  lets option N take its followers first\n",
    b"  The last line is END n REFUSED: n is 1 where something is refused, and else 0.\n",
];

// Line by line: where there is no room for all, the lines before that are written.
fn say_help(rt: &impl Print) {
    for line in HELP {
        say(rt, line);
    }
}

// The arguments are at fault, or a file can't be opened: a line on standard error says why.
fn say_refused(rt: &impl Print) {
    say(rt, b"END 1 REFUSED\n");
}

fn all_words(rt: &impl Env) -> Asked {
    let mut asked = nothing_asked();
    for k in 1..usize::MAX {
        let mut word = [0u8; PATH];
        match rt.arg(k, &mut word) {
            Ok(length) => asked = take_word(asked, k, &word[..length]),
            // Longer than any path: taken for an unknown one.
            Err(FillError::TooLong) => asked = take_word(asked, k, b"-"),
            Err(FillError::NotPresent) => break,
        }
    }
    end_words(asked)
}

// Reads until the array is full or the input ends, and answers how many bytes came. A read that fails counts as the end: what came before it is the sheet.
fn read_input(reader: impl Read + Drop, input: &mut [u8; INPUT]) -> usize
    ensures { result ≤ INPUT }
{
    let mut room = &mut input[..];
    let _ = io::copy(&mut reader.take(INPUT as u64), &mut room);
    INPUT.saturating_sub(room.len())
}

// The table of the sheet that a reader gives.
fn print_plan(rt: &(impl Print + Eprint), reader: impl Read + Drop, asked: Asked) {
    let mut input = [0u8; INPUT];
    let count = read_input(reader, &mut input);
    let ask = Ask {
        page9: asked.page9,
        lead: asked.lead,
    };
    let mut text = [0u8; ROOM];
    let length = plan_into(&input[..count], ask, &mut text);
    if rt.write_all(&text[..length]).is_err() {
        let _ = rt.eprintln("sheetplan: the text could not be written whole");
    }
}

// What the system says of an error, without its number.
fn say_why(rt: &impl Eprint, name: &str, error: io::Error) {
    let mut words = [0u8; REASON];
    let mut room = &mut words[..];
    let _ = write!(room, "{error}");
    let length = REASON.saturating_sub(room.len());
    let all = str::from_utf8(&words[..length]).unwrap_or("");
    let reason = all
        .split_once(" (os error ")
        .map_or(all, |(reason, _)| reason);
    let _ = eprintln!(rt; "{name}: {reason}");
}

// The table of the file of that name.
fn print_named<R: Files + Print + Eprint>(rt: &R, name: &str, asked: Asked) {
    match fs::open(rt, name) {
        Ok(file) => print_plan(rt, file, asked),
        Err(error) => {
            say_why(rt, name, error);
            say_refused(rt);
        }
    }
}

// The table of the file that the `k`-th word names.
fn print_file<R: Env + Files + Print + Eprint>(rt: &R, k: usize, asked: Asked) {
    let mut path = [0u8; PATH];
    let length = rt.arg(k, &mut path).unwrap_or(0);
    match str::from_utf8(&path[..length]) {
        Ok(name) => print_named(rt, name, asked),
        Err(_) => {
            let _ = rt.eprintln("sheetplan: the name of the file is not UTF-8");
            say_refused(rt);
        }
    }
}

fn print_asked<R: Env + Files + Input + Print + Eprint>(rt: &R, asked: Asked) {
    match asked.file {
        Some(k) => print_file(rt, k, asked),
        None => print_plan(rt, rt.reader(), asked),
    }
}

pub fn run<R: Env + Files + Input + Print + Eprint>(rt: &R) {
    let asked = all_words(rt);
    match asked.phase {
        Phase::Words => print_asked(rt, asked),
        Phase::Leader => say_refused(rt),
        Phase::Help => say_help(rt),
        Phase::Fault => {
            let _ = rt.eprintln(
                "sheetplan: the arguments are [--page9] [--lead N] [FILE]; --help says more",
            );
            say_refused(rt);
        }
    }
}
