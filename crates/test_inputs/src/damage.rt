// Sheets with a fault, and bytes of any kind.
use crate::families::{ROOM, Sheet};
use crate::{families, random};

// Kinds of inputs, past the families of sheets.
pub const DAMAGED: u8 = 12;

pub const RANDOM_BYTES: u8 = 13;

// One more than the greatest of the kinds.
pub const KINDS: u8 = 14;

// A place among the bytes, often one of the first.
fn place(length: usize, seed: &mut u64) -> usize {
    if random::once_in(seed, 2) {
        return random::index(seed, 16);
    }
    random::index(seed, length)
}

// A byte of any value, or a small one, as most fields have.
fn any_byte(seed: &mut u64) -> u8 {
    if random::once_in(seed, 3) {
        return random::byte(seed);
    }
    random::byte(seed) % 35
}

fn with_byte(sheet: Sheet, at: usize, byte: u8) -> Sheet {
    let mut bytes = sheet.bytes;
    families::put(&mut bytes, at, byte);
    Sheet { bytes, ..sheet }
}

fn with_bit(sheet: Sheet, at: usize, seed: &mut u64) -> Sheet {
    let bytes = sheet.bytes;
    let bit = 1u8 << (random::byte(seed) % 8);
    with_byte(sheet, at, families::byte_at(&bytes, at) ^ bit)
}

fn with_two_exchanged(sheet: Sheet, at: usize, other: usize) -> Sheet {
    let bytes = sheet.bytes;
    let first = families::byte_at(&bytes, at);
    let second = families::byte_at(&bytes, other);
    with_byte(with_byte(sheet, at, second), other, first)
}

// Cut or lengthened, with the count as it was.
fn with_length(sheet: Sheet, length: usize) -> Sheet {
    Sheet { length, ..sheet }
}

// The count of the bytes that follow it is made right.
fn mended(sheet: Sheet) -> Sheet {
    let mut bytes = sheet.bytes;
    families::mend(&mut bytes, sheet.length);
    Sheet { bytes, ..sheet }
}

// A length about that of the largest sheet of a version.
fn great_length(seed: &mut u64) -> usize {
    if random::once_in(seed, 2) {
        return random::from(seed, 4100, 100);
    }
    random::from(seed, 15620, 100)
}

fn longer(sheet: Sheet, seed: &mut u64) -> Sheet {
    let length = sheet.length;
    let more = std::num::wrapping_add_usize(length, random::from(seed, 1, 3));
    with_length(with_byte(sheet, length, any_byte(seed)), more)
}

// In another version, or in none: 3 after 2 leaves the rows as they are, all-zero ones too.
fn with_version(sheet: Sheet, seed: &mut u64) -> Sheet {
    let bytes = sheet.bytes;
    if families::byte_at(&bytes, 0) == 2 {
        return with_byte(sheet, 0, 3);
    }
    with_byte(sheet, 0, random::byte(seed) % 5)
}

fn altered(kind: u64, sheet: Sheet, at: usize, seed: &mut u64) -> Sheet {
    let length = sheet.length;
    match kind {
        0 => with_byte(sheet, at, any_byte(seed)),
        1 => with_bit(sheet, at, seed),
        2 => with_two_exchanged(sheet, at, place(length, seed)),
        3 | 4 => with_length(sheet, at),
        5 | 6 => longer(sheet, seed),
        7 => with_length(sheet, great_length(seed)),
        8 => with_version(sheet, seed),
        _ => with_byte(sheet, random::from(seed, 4, 20), any_byte(seed)),
    }
}

// One change to a sheet; it may leave a sheet that is accepted.
pub fn changed(sheet: Sheet, seed: &mut u64) -> Sheet {
    let at = place(sheet.length, seed);
    let kind = random::below(seed, 10);
    let other = altered(kind, sheet, at, seed);
    match kind {
        4 | 6 | 7 => mended(other),
        _ => other,
    }
}

fn small_byte(seed: &mut u64) -> u8 {
    if random::once_in(seed, 12) {
        return random::byte(seed);
    }
    random::byte(seed) % 4
}

fn fill(bytes: &mut [u8; ROOM], count: usize, seed: &mut u64) {
    for at in 0..count {
        families::put(bytes, at, small_byte(seed));
    }
}

// Random bytes, most of them small, often with the version and the count right.
fn random_bytes(seed: &mut u64) -> Sheet {
    let mut bytes = [0u8; ROOM];
    let length = random::index(seed, 48);
    fill(&mut bytes, length, seed);
    if random::once_in(seed, 8) {
        return Sheet { bytes, length };
    }
    families::put(&mut bytes, 0, random::from_one(seed, 3));
    families::mend(&mut bytes, length);
    Sheet { bytes, length }
}

// A sheet of a small family with one change.
fn damaged(seed: &mut u64) -> Sheet {
    let family = random::byte(seed) % 8;
    changed(families::make(family, seed), seed)
}

// An input of the kind: a family of sheets, or one of those here.
pub fn input(kind: u8, seed: &mut u64) -> Sheet {
    match kind {
        DAMAGED => damaged(seed),
        RANDOM_BYTES => random_bytes(seed),
        _ => families::make(kind, seed),
    }
}
