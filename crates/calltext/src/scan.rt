// Numbers read from text: whatever is no digit and no minus sign stands between them.
ghost use Rattle.std.specs.Prelude.{◌≡◌, ◌≤◌, length};
ghost use Rattle.calltext.specs.Scan.{begins, first_from, with_digit, digits_at, number_from, signed_of, count_of, word_of, byte_of, listed_to, list_from};

// A number, and the place behind it.
#[derive(Clone, Copy)]
pub struct Scanned {
    pub negative: bool,
    pub magnitude: u64,
    pub next: usize,
}

// How much of a list was read, and the place behind it.
#[derive(Clone, Copy)]
pub struct Listed {
    pub length: usize,
    pub next: usize,
}

// A type of which a list can be read: what it makes of a number.
pub trait Readable: Copy {
    ghost use Rattle.calltext.specs.declared.scan.Scanned.{Scanned};

    ghost read_as: { Scanned → Self };

    fn of(scanned: Scanned) -> Self
        ensures { result ≡ read_as scanned };
}

// What does not fit is the least one.
impl Readable for i32 {
    ghost read_as = { signed_of };

    fn of(scanned: Scanned) -> i32 {
        match i32::try_from(scanned.magnitude) {
            Ok(magnitude) => {
                if scanned.negative {
                    -magnitude
                } else {
                    magnitude
                }
            }
            Err(_) => i32::MIN,
        }
    }
}

impl Readable for u64 {
    ghost read_as = { count_of };

    fn of(scanned: Scanned) -> u64 {
        scanned.magnitude
    }
}

// What does not fit is 0.
impl Readable for u32 {
    ghost read_as = { word_of };

    fn of(scanned: Scanned) -> u32 {
        u32::try_from(scanned.magnitude).unwrap_or(0)
    }
}

// What does not fit is 0.
impl Readable for u8 {
    ghost read_as = { byte_of };

    fn of(scanned: Scanned) -> u8 {
        u8::try_from(scanned.magnitude).unwrap_or(0)
    }
}

fn begins(b: u8) -> bool
    ensures { result ≡ begins b }
{
    b.is_ascii_digit() || b == b'-'
}

// The place of the next number, or the end.
pub fn first(file: &[u8], at: usize) -> usize
    ensures { result ≡ first_from file.now at }
{
    for i in at..file.len() {
        if begins(file[i]) {
            return i;
        }
    }
    at.max(file.len())
}

// One digit more, as 64 bits have it.
fn with_digit(n: u64, b: u8) -> u64
    ensures { result ≡ with_digit n b }
{
    if u64::MAX / 10 < n {
        return n;
    }
    (n * 10).wrapping_add(u64::from(b % 16))
}

// The digits from a place on.
fn digits(file: &[u8], at: usize, negative: bool) -> Scanned
    ensures { result ≡ digits_at file.now at negative }
{
    let mut magnitude = 0;
    for next in at..file.len() {
        if !file[next].is_ascii_digit() {
            return Scanned {
                negative,
                magnitude,
                next,
            };
        }
        magnitude = with_digit(magnitude, file[next]);
    }
    Scanned {
        negative,
        magnitude,
        next: at.max(file.len()),
    }
}

// The next number from a place on.
pub fn number(file: &[u8], at: usize) -> Scanned
    ensures { result ≡ number_from file.now at }
{
    let i = first(file, at);
    if i < file.len() && file[i] == b'-' {
        digits(file, i + 1, true)
    } else {
        digits(file, i, false)
    }
}

// A list: its length, then its numbers, as many as there is room for.
pub fn list<T: Readable>(file: &[u8], at: usize, into: &mut [T]) -> Listed
    ensures filled { (into.new, result) ≡ list_from T.read_as file.now at into.old }
    ensures within { result.length ≤ length into.new }
{
    let count = number(file, at);
    let length = into.len().min(count.magnitude as usize);
    let mut next = count.next;
    for element in into[..length].iter_mut() {
        let scanned = number(file, next);
        *element = T::of(scanned);
        next = scanned.next;
    }
    Listed { length, next }
}

// Stored calls, and the place behind what was read of them.
#[derive(Clone, Copy)]
pub struct Stored<'a> {
    pub file: &'a [u8],
    pub at: usize,
}

impl Stored<'_> {
    // The next number.
    pub fn number(&mut self) -> Scanned
        ensures file { self.new.file ≡ self.old.file }
        ensures read { result ≡ number_from self.old.file.now self.old.at }
        ensures place { self.new.at ≡ result.next }
    {
        let scanned = number(self.file, self.at);
        self.at = scanned.next;
        scanned
    }

    // Reads the next list into a buffer, as much of it as there is room for. How much that is.
    pub fn list<T: Readable>(&mut self, into: &mut [T]) -> usize
        ensures file { self.new.file ≡ self.old.file }
        ensures filled { (into.new, listed_to result self.new.at) ≡ list_from T.read_as self.old.file.now self.old.at into.old }
        ensures within { result ≤ length into.new }
    {
        let listed = list(self.file, self.at, into);
        self.at = listed.next;
        listed.length
    }
}
