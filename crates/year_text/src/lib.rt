// The lines that the program of a year prints, put into a lent buffer as far as it has room. Each function returns the place past its line.
#![tactic(auto)]

ghost use Rattle.std.specs.Prelude.{◌≡◌};
ghost use Rattle.text_put.specs.Put.{Put};
ghost use Rattle.year_text.specs.Lines.{text_phrase, fault_end, ok_line, refused_line, short_line, fault_line, line_of_bin, first_line, short_entries, entries_line, end_line};

use bins::Bin;
use cause::Cause;
use text_phrase::put_ending;
pub use text_phrase::put_phrase_end;
use text_put::{put_text, put_titled};

// A fault of the text in words.
fn fault_phrase(fault: u8) -> &'static [u8]
    ensures { result.now ≡ text_phrase fault }
{
    match fault {
        101 => b"a character does not belong there",
        102 => b"a number is above 4294967295",
        103 => b"there are more fields than any line has",
        104 => b"a field is empty",
        105 => b"the line begins with neither D nor C",
        106 => b"the line has a wrong number of fields",
        _ => b"there are more than 4294967295 lines",
    }
}

pub fn put_fault_end(buffer: &mut [u8], at: usize, fault: u8) -> usize
    ensures { Put buffer.old buffer.new (fault_end fault) at result }
{
    put_ending(buffer, at, fault_phrase(fault))
}

pub fn put_ok(buffer: &mut [u8], at: usize, line: usize) -> usize
    ensures { Put buffer.old buffer.new (ok_line line) at result }
{
    let numbered = put_titled(buffer, at, b"OK LINE ", line);
    put_text(buffer, numbered, b"\n")
}

pub fn put_not_in_stock(buffer: &mut [u8], at: usize, line: usize) -> usize
    ensures { Put buffer.old buffer.new (refused_line 28 line) at result }
{
    let refused = put_titled(buffer, at, b"REFUSED ", 28);
    let numbered = put_titled(buffer, refused, b" LINE ", line);
    put_phrase_end(buffer, numbered, Cause::NotInStock)
}

pub fn put_too_low(buffer: &mut [u8], at: usize, line: usize, low: Bin) -> usize
    ensures { Put buffer.old buffer.new (short_line line low) at result }
{
    let numbered = put_titled(buffer, at, b"REFUSED 29 LINE ", line);
    let binned = put_titled(buffer, numbered, b" BIN ", low.variable as usize);
    let valued = put_titled(buffer, binned, b" ", low.value as usize);
    let counted = put_titled(buffer, valued, b" HAS ", low.count as usize);
    put_phrase_end(buffer, counted, Cause::BinTooLow)
}

pub fn put_fault(buffer: &mut [u8], at: usize, fault: u8, line: usize, place: usize) -> usize
    ensures { Put buffer.old buffer.new (fault_line fault line place) at result }
{
    let refused = put_titled(buffer, at, b"REFUSED ", fault as usize);
    let numbered = put_titled(buffer, refused, b" LINE ", line);
    let placed = put_titled(buffer, numbered, b" AT ", place);
    put_fault_end(buffer, placed, fault)
}

// The numbers of a bin at the end.
#[derive(Clone, Copy)]
pub struct Balance {
    pub opening: usize,
    pub brought: usize,
    pub taken: usize,
    pub hand: usize,
}

pub fn put_bin(
    buffer: &mut [u8],
    at: usize,
    variable: usize,
    value: usize,
    balance: Balance,
) -> usize
    ensures { Put buffer.old buffer.new (line_of_bin variable value balance.opening balance.brought balance.taken balance.hand) at result }
{
    let binned = put_titled(buffer, at, b"BIN ", variable);
    let valued = put_titled(buffer, binned, b" ", value);
    let opened = put_titled(buffer, valued, b" OPEN ", balance.opening);
    let brought = put_titled(buffer, opened, b" IN ", balance.brought);
    let taken = put_titled(buffer, brought, b" OUT ", balance.taken);
    let held = put_titled(buffer, taken, b" HAND ", balance.hand);
    put_text(buffer, held, b"\n")
}

pub fn put_first(buffer: &mut [u8], at: usize, line: usize, low: Bin, asked: u32) -> usize
    ensures { Put buffer.old buffer.new (first_line line low asked) at result }
{
    let numbered = put_titled(buffer, at, b"FIRST SHORTAGE LINE ", line);
    let binned = put_titled(buffer, numbered, b" BIN ", low.variable as usize);
    let valued = put_titled(buffer, binned, b" ", low.value as usize);
    let counted = put_titled(buffer, valued, b" HAS ", low.count as usize);
    let wanted = put_titled(buffer, counted, b" ASKED ", asked as usize);
    put_text(buffer, wanted, b"\n")
}

pub fn put_short(
    buffer: &mut [u8],
    at: usize,
    variable: usize,
    value: usize,
    entries: usize,
) -> usize
    ensures { Put buffer.old buffer.new (short_entries variable value entries) at result }
{
    let binned = put_titled(buffer, at, b"SHORT ", variable);
    let valued = put_titled(buffer, binned, b" ", value);
    let counted = put_titled(buffer, valued, b" ENTRIES ", entries);
    put_text(buffer, counted, b"\n")
}

// How many entries were answered in each way, and all of them.
#[derive(Clone, Copy)]
pub struct Counted {
    pub ok: usize,
    pub r28: usize,
    pub r29: usize,
    pub text: usize,
    pub all: usize,
}

pub fn put_entries(buffer: &mut [u8], at: usize, counted: Counted) -> usize
    ensures { Put buffer.old buffer.new (entries_line counted.ok counted.r28 counted.r29 counted.text counted.all) at result }
{
    let all = put_titled(buffer, at, b"ENTRIES ", counted.all);
    let ok = put_titled(buffer, all, b" OK ", counted.ok);
    let r28 = put_titled(buffer, ok, b" R28 ", counted.r28);
    let r29 = put_titled(buffer, r28, b" R29 ", counted.r29);
    let text = put_titled(buffer, r29, b" TEXT ", counted.text);
    put_text(buffer, text, b"\n")
}

pub fn put_end(buffer: &mut [u8], at: usize, refused: usize) -> usize
    ensures { Put buffer.old buffer.new (end_line refused) at result }
{
    let counted = put_titled(buffer, at, b"END ", refused);
    put_text(buffer, counted, b" REFUSED\n")
}
