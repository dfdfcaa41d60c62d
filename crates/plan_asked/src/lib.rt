// What the arguments of sheetplan ask for, taken one word at a time.
#![tactic(auto)]

ghost use Rattle.std.specs.Prelude.{◌≡◌, ◌≤◌, length};
ghost use Rattle.plan_asked.specs.Asked.{is_number, grown, number_of, nothing, faulty, helped, with_page, with_lead, with_number, with_file, with_word, takes, ends_at};

#[derive(Clone, Copy)]
pub enum Phase {
    // Any word may come.
    Words,
    // The number of the leader comes next.
    Leader,
    Help,
    Fault,
}

#[derive(Clone, Copy)]
pub struct Asked {
    pub phase: Phase,
    pub page9: bool,
    // The option that is to lead, counted from 1; 0 until its number came.
    pub lead: Option<usize>,
    // Which word names the file, counted from 1.
    pub file: Option<usize>,
}

#[tactic(auto, unfolding(crate::specs::Asked::nothing))]
pub fn nothing_asked() -> Asked
    ensures { result ≡ nothing }
{
    Asked {
        phase: Phase::Words,
        page9: false,
        lead: None,
        file: None,
    }
}

fn is_number(word: &[u8]) -> bool
    ensures { result ≡ is_number word.now }
{
    !word.is_empty() && word.iter().all(|byte| byte.is_ascii_digit())
}

// One digit more.
#[tactic(auto, unfolding(crate::specs::Asked::grown))]
fn grow(value: usize, byte: u8) -> usize
    requires { value ≤ 1000000 }
    ensures { (result ≡ grown value byte) × (result ≤ 1000000) }
{
    (value * 10 + usize::from(byte.saturating_sub(b'0'))).min(1_000_000)
}

fn number(word: &[u8]) -> usize
    ensures { result ≡ number_of word.now (length word.now) }
{
    let mut value: usize = 0;
    for &byte in word {
        value = grow(value, byte);
    }
    value
}

#[tactic(auto, unfolding(crate::specs::Asked::faulty))]
fn fault(asked: Asked) -> Asked
    ensures { result ≡ faulty asked }
{
    Asked {
        phase: Phase::Fault,
        ..asked
    }
}

#[tactic(auto, unfolding(crate::specs::Asked::helped))]
fn help(asked: Asked) -> Asked
    ensures { result ≡ helped asked }
{
    Asked {
        phase: Phase::Help,
        ..asked
    }
}

#[tactic(auto, unfolding(crate::specs::Asked::with_page))]
fn with_page(asked: Asked) -> Asked
    ensures { result ≡ with_page asked }
{
    Asked {
        phase: Phase::Words,
        page9: true,
        ..asked
    }
}

#[tactic(auto, using(crate::proofs::Laws::lead_twice, crate::proofs::Laws::lead_once))]
fn with_lead(asked: Asked) -> Asked
    ensures { result ≡ with_lead asked }
{
    if asked.lead.is_some() {
        return fault(asked);
    }
    Asked {
        phase: Phase::Leader,
        lead: Some(0),
        ..asked
    }
}

fn with_number(asked: Asked, word: &[u8]) -> Asked
    ensures { result ≡ with_number asked word.now }
{
    if !is_number(word) {
        return fault(asked);
    }
    Asked {
        phase: Phase::Words,
        lead: Some(number(word)),
        ..asked
    }
}

fn with_file(asked: Asked, k: usize) -> Asked
    ensures { result ≡ with_file asked k }
{
    if asked.file.is_some() {
        return fault(asked);
    }
    Asked {
        phase: Phase::Words,
        file: Some(k),
        ..asked
    }
}

fn with_word(asked: Asked, k: usize, word: &[u8]) -> Asked
    ensures { result ≡ with_word asked k word.now }
{
    if word == b"--page9".as_slice() {
        return with_page(asked);
    }
    if word == b"--lead".as_slice() {
        return with_lead(asked);
    }
    if word == b"--help".as_slice() {
        return help(asked);
    }
    if word.starts_with(b"-") {
        return fault(asked);
    }
    with_file(asked, k)
}

// One word more, the `k`-th.
#[tactic(auto, unfolding(crate::specs::Asked::takes, crate::specs::Asked::takes_at))]
pub fn take_word(asked: Asked, k: usize, word: &[u8]) -> Asked
    ensures { result ≡ takes asked k word.now }
{
    match asked.phase {
        Phase::Words => with_word(asked, k, word),
        Phase::Leader => with_number(asked, word),
        Phase::Help => asked,
        Phase::Fault => asked,
    }
}

// After the last word.
#[tactic(auto, unfolding(crate::specs::Asked::ends_at))]
pub fn end_words(asked: Asked) -> Asked
    ensures { result ≡ ends_at asked.phase asked }
{
    match asked.phase {
        Phase::Words => asked,
        Phase::Leader => fault(asked),
        Phase::Help => asked,
        Phase::Fault => asked,
    }
}
