// Reading against the judge of bytes, and writing against bytes that are known.
use crate::calls::Reading;
use crate::tally::Tally;
use crate::{calls, states, tally};
use state::State;
use test_inputs::families::ROOM;
use test_oracle::{brute, fields, judge, paired};

// Compares what the reader answers for the bytes with what the judge says of them.
pub fn check(bytes: &[u8], reading: Reading, tally: Tally) -> Tally {
    let state = reading.state;
    let judged = judge::judge(bytes);
    let is_same = (judged.number == reading.number) & (judged.place == reading.place);
    if reading.number != 0 {
        let is_zero = states::same(state, states::zero());
        return tally::expect(tally, tally::READS_REFUSED, is_same & is_zero);
    }
    let sizes = state.sizes;
    let domains = state.domains;
    let leaders = state.leaders;
    let are_fresh = judge::are_fresh(bytes, sizes, domains, leaders);
    let is_read = is_same & are_fresh & (state.n == brute::options(bytes));
    let read = tally::expect(tally, tally::READS, is_read);
    tally::expect(read, tally::SOUND, calls::is_sound(state))
}

// The reader for the paired profile answers what the judge says of the bytes: what the other reader answered, number, place and state, or 31 and the zero
// state.
pub fn is_paired_reading(bytes: &[u8], reading: Reading) -> bool {
    let paired = calls::read_paired(bytes);
    let judged = paired::judge(bytes);
    let is_judged = (judged.number == paired.number) & (judged.place == paired.place);
    if judged.number == 31 {
        return is_judged & (reading.number == 0) & states::same(paired.state, states::zero());
    }
    let is_alike = (reading.number == paired.number) & (reading.place == paired.place);
    is_judged & is_alike & states::same(paired.state, reading.state)
}

// What stands past the end of a written sheet.
pub const UNTOUCHED: u8 = 165;

// The writer, on a buffer of `room` bytes, answers the number and writes these bytes; counted as `k`.
fn check_writing(
    bytes: &[u8],
    state: State,
    version: usize,
    room: usize,
    number: u8,
    k: usize,
    tally: Tally,
) -> Tally {
    let written = calls::write(state, version, [UNTOUCHED; ROOM], room);
    let is_same = fields::is_filled(&written.buffer, bytes, UNTOUCHED);
    let is_right = (written.number == number) & (written.length == bytes.len()) & is_same;
    tally::expect(tally, k, is_right)
}

// Writes into a buffer of `room` bytes: refused, and nothing is written.
pub fn check_unwritten(
    state: State,
    version: usize,
    room: usize,
    number: u8,
    tally: Tally,
) -> Tally {
    check_writing(
        b"",
        state,
        version,
        room,
        number,
        tally::WRITES_REFUSED,
        tally,
    )
}

// The state is refused with this number into all the room there is, and into none.
pub fn check_refused(state: State, version: usize, number: u8, tally: Tally) -> Tally {
    let refused = check_unwritten(state, version, ROOM, number, tally);
    check_unwritten(state, version, 0, number, refused)
}

// The state is written in the version of these bytes, and only where there is room for them. They are a sheet, so there is a byte.
pub fn check_written(bytes: &[u8], state: State, tally: Tally) -> Tally {
    let length = bytes.len();
    let version = brute::byte(bytes, 0) as usize;
    let less = std::num::wrapping_sub_usize(length, 1);
    let ample = check_writing(bytes, state, version, ROOM, 0, tally::WRITES, tally);
    let exact = check_writing(bytes, state, version, length, 0, tally::WRITES, ample);
    let scarce = check_unwritten(state, version, less, 17, exact);
    check_unwritten(state, version, 0, 17, scarce)
}

// The bytes are read as the state.
pub fn check_read_as(bytes: &[u8], state: State, tally: Tally) -> Tally {
    let reading = calls::read(bytes);
    let read = check(bytes, reading, tally);
    tally::hold(read, states::same(reading.state, state))
}
