// A line of text, byte by byte: a letter and numbers (an entry of a list), or numbers alone (a bin). Every function takes anything.
#![tactic(auto)]

ghost use Rattle.std.specs.Prelude.{◌≡◌};
ghost use Rattle.scan.specs.Bytes.{within, one_of, is_letter, kind_of};
ghost use Rattle.scan.specs.Scan.{first_kind, opening, up, faulted, phased, going, digit_on, first_digit, digit, stored, close, separator, end_place, ended, lettered, letter, returned, taken, begin_after, ticked, step};
ghost use Rattle.scan.specs.Line.{miscounted, line_kind, told, finish};

// How many numbers a line may have: the count and sixteen values of a call-off.
pub const CELLS: usize = 17;

// What was seen of a line.
#[derive(Clone, Copy)]
pub struct Scan {
    // The numbers that ended, and zeros past them.
    pub cells: [u32; CELLS],
    // The number that goes on, in phase 1.
    pub value: u32,
    pub count: usize,
    // Where the number of phase 1 begins, or what is wrong; counted from 1.
    pub place: usize,
    // The place of the next byte.
    pub column: usize,
    // The place of the first field; as long as there is none, that of the next byte.
    pub begin: usize,
    // The place of a carriage return, behind which the line must end; 0: there is none.
    pub cr: usize,
    // 0 before any field, 1 in a number, 2 after a separator, 3 after a field and a blank, 4 in a comment or past a fault (the rest of the line does not
    // count), 5 right behind the letter of a kind.
    pub phase: u8,
    // 0, or what is wrong: 101 to 105.
    pub fault: u8,
    // 0 an entry whose letter is to come, 1 D, 2 C, 3 numbers alone.
    pub kind: u8,
}

// A finished line.
#[derive(Clone, Copy)]
pub struct Line {
    // 0, or what is wrong with it: 101 to 106.
    pub fault: u8,
    // Where, counted from 1; 0 where nothing is wrong.
    pub place: usize,
    // The letter that begins it: 0 none, 1 D, 2 C.
    pub kind: u8,
    // Its numbers, and zeros past them.
    pub count: usize,
    pub cells: [u32; CELLS],
}

fn within(byte: u8, low: u8, high: u8) -> bool
    ensures { result ≡ within low high byte }
{
    (low..=high).contains(&byte)
}

fn one_of(byte: u8, a: u8, b: u8) -> bool
    ensures { result ≡ one_of a b byte }
{
    byte == a || byte == b
}

fn is_letter(byte: u8) -> bool
    ensures { result ≡ is_letter byte }
{
    byte.is_ascii_alphabetic()
}

// 1 D, 2 C, in either case; 0 no kind.
fn kind_of(byte: u8) -> u8
    ensures { result ≡ kind_of byte }
{
    if one_of(byte, b'D', b'd') {
        return 1;
    }
    if one_of(byte, b'C', b'c') {
        return 2;
    }
    0
}

fn first_kind(numbers: bool) -> u8
    ensures { result ≡ first_kind numbers }
{
    if numbers {
        return 3;
    }
    0
}

// A line of which nothing was seen: of numbers alone, or an entry.
pub fn opening(numbers: bool) -> Scan
    ensures { result ≡ opening numbers }
{
    Scan {
        cells: [0; CELLS],
        value: 0,
        count: 0,
        place: 0,
        column: 1,
        begin: 1,
        cr: 0,
        phase: 0,
        fault: 0,
        kind: first_kind(numbers),
    }
}

// The next place or line. They are counted up to 4,294,967,295, and stay there.
pub fn up(x: usize) -> usize
    ensures { result ≡ up x }
{
    if x < 4294967295 {
        return x + 1;
    }
    x
}

fn faulted(s: Scan, fault: u8, place: usize) -> Scan
    ensures { result ≡ faulted fault place s }
{
    Scan {
        place,
        phase: 4,
        fault,
        ..s
    }
}

fn phased(s: Scan, phase: u8) -> Scan
    ensures { result ≡ phased phase s }
{
    Scan { phase, ..s }
}

fn going(s: Scan, value: u32, place: usize) -> Scan
    ensures { result ≡ going value place s }
{
    Scan {
        value,
        place,
        phase: 1,
        ..s
    }
}

// A further digit of a number.
fn digit_on(s: Scan, d: u8) -> Scan
    ensures { result ≡ digit_on s d }
{
    let value = s.value as u64 * 10 + d as u64;
    if 4294967295 < value {
        return faulted(s, 102, s.place);
    }
    going(s, value as u32, s.place)
}

// The first digit of a number.
fn first_digit(s: Scan, d: u8) -> Scan
    ensures { result ≡ first_digit s d }
{
    if s.phase == 5 {
        return faulted(s, 101, s.column);
    }
    if s.kind == 0 {
        return faulted(s, 105, s.column);
    }
    if s.count < CELLS {
        return going(s, d as u32, s.column);
    }
    faulted(s, 103, s.column)
}

fn digit(s: Scan, d: u8) -> Scan
    ensures { result ≡ digit s d }
{
    if s.phase == 1 {
        return digit_on(s, d);
    }
    first_digit(s, d)
}

// The number that goes on is kept.
fn stored(s: Scan) -> Scan
    ensures { result ≡ stored s }
{
    let count = s.count;
    if count < CELLS {
        let mut cells = s.cells;
        cells[count] = s.value;
        return Scan {
            cells,
            count: count + 1,
            phase: 3,
            ..s
        };
    }
    faulted(s, 103, s.place)
}

// The field that goes on, if one does, ends.
fn close(s: Scan) -> Scan
    ensures { result ≡ close s }
{
    if s.phase == 1 {
        return stored(s);
    }
    if s.phase == 5 {
        return phased(s, 3);
    }
    s
}

// A comma or a semicolon.
fn separator(s: Scan) -> Scan
    ensures { result ≡ separator s }
{
    let t = close(s);
    if t.phase == 3 {
        return phased(t, 2);
    }
    if t.phase == 4 {
        return t;
    }
    faulted(t, 104, t.column)
}

// Where a line ends that ends here.
fn end_place(s: Scan) -> usize
    ensures { result ≡ end_place s }
{
    if s.cr == 0 {
        return s.column;
    }
    s.cr
}

// The fields end.
fn ended(s: Scan) -> Scan
    ensures { result ≡ ended s }
{
    let t = close(s);
    if t.phase == 2 {
        return faulted(t, 104, end_place(t));
    }
    t
}

// A letter that may begin an entry.
fn lettered(s: Scan, kind: u8) -> Scan
    ensures { result ≡ lettered s kind }
{
    if kind == 0 {
        return faulted(s, 105, s.begin);
    }
    Scan {
        phase: 5,
        kind,
        ..s
    }
}

fn letter(s: Scan, byte: u8) -> Scan
    ensures { result ≡ letter s byte }
{
    if s.phase == 5 {
        return faulted(s, 105, s.begin);
    }
    if s.kind == 0 {
        return lettered(s, kind_of(byte));
    }
    faulted(s, 101, s.column)
}

// A carriage return.
fn returned(s: Scan) -> Scan
    ensures { result ≡ returned s }
{
    Scan { cr: s.column, ..s }
}

// What a byte does where nothing is wrong yet and no comment has begun.
fn taken(s: Scan, byte: u8) -> Scan
    ensures { result ≡ taken s byte }
{
    if within(byte, b'0', b'9') {
        return digit(s, byte - b'0');
    }
    if one_of(byte, b',', b';') {
        return separator(s);
    }
    if one_of(byte, b' ', b'\t') {
        return close(s);
    }
    if is_letter(byte) {
        return letter(s, byte);
    }
    if byte == b'#' {
        return phased(ended(s), 4);
    }
    faulted(s, 101, s.column)
}

// As long as there is no field, the first one may begin at the next byte.
fn begin_after(phase: u8, begin: usize, column: usize) -> usize
    ensures { result ≡ begin_after phase begin column }
{
    if phase == 0 {
        return column;
    }
    begin
}

// The next byte is one further.
fn ticked(s: Scan) -> Scan
    ensures { result ≡ ticked s }
{
    let column = up(s.column);
    let begin = begin_after(s.phase, s.begin, column);
    Scan { column, begin, ..s }
}

// A byte of a line.
pub fn step(s: Scan, byte: u8) -> Scan
    ensures { result ≡ step s byte }
{
    if s.phase == 4 {
        return s;
    }
    if s.cr != 0 {
        return faulted(s, 101, s.cr);
    }
    if byte == b'\r' {
        return returned(s);
    }
    ticked(taken(s, byte))
}

// So many numbers are wrong behind this letter, or alone.
fn miscounted(kind: u8, count: usize) -> bool
    ensures { result ≡ miscounted kind count }
{
    if kind == 1 {
        return count != 3;
    }
    if kind == 2 {
        return count == 0;
    }
    if kind != 3 {
        return false;
    }
    if count == 0 {
        return false;
    }
    count != 3
}

fn line_kind(kind: u8) -> u8
    ensures { result ≡ line_kind kind }
{
    if kind == 3 {
        return 0;
    }
    kind
}

fn told(t: Scan, fault: u8, place: usize) -> Line
    ensures { result ≡ told fault place t }
{
    let cells = t.cells;
    Line {
        fault,
        place,
        kind: line_kind(t.kind),
        count: t.count,
        cells,
    }
}

// The end of a line.
pub fn finish(s: Scan) -> Line
    ensures { result ≡ finish s }
{
    let t = ended(s);
    if t.fault != 0 {
        return told(t, t.fault, t.place);
    }
    if miscounted(t.kind, t.count) {
        return told(t, 106, t.begin);
    }
    told(t, 0, 0)
}
