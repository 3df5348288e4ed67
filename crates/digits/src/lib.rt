// Numbers at the front of a text: decimal, −1 or decimal, and bit patterns in hexadecimal. Each function takes what it wants from the
// front, and answers its value and the rest of the text, or that something else stands there.
#![tactic(auto)]

ghost use Rattle.std.specs.Prelude.{◌≡◌, ◌<◌, ◌≤◌, [], ◌∷◌, MatchOption};
ghost use Rattle.digits.specs.Steps.{after, digit, most, more, count, number, hex_from, then_byte, count_then, number_then, hex_then};
ghost use Rattle.digits.specs.Told.{past_got, value_got};

const MOST: usize = 2147483647;

const HEX_DIGITS: usize = 16;

// The bytes of `word`.
pub fn word<'a>(rest: &'a [u8], word: &[u8]) -> Option<&'a [u8]>
    ensures { past_got result ≡ after word.now rest.now }
{
    rest.strip_prefix(word)
}

// A digit's number, where it is below `base`.
#[tactic(auto, unfolding(crate::specs::Steps::digit))]
fn digit(b: u8, base: usize) -> Option<usize>
    requires { base ≤ 16 }
    ensures { MatchOption result (base ≤ digit b) (λ d. (d ≡ digit b) × (d < base)) }
{
    let d = match b {
        b'0'..=b'9' => b - b'0',
        b'a'..=b'f' => b - b'a' + 10,
        _ => return None,
    };
    let d = d as usize;
    (d < base).then_some(d)
}

// The decimal digits that follow those that made `first`.
fn more(rest: &[u8], first: usize) -> Option<(usize, &[u8])>
    requires { first ≤ most }
    ensures { value_got result ≡ more rest.now first }
{
    let mut value = first;
    let mut rest = rest;
    while let Some((b, next)) = rest.split_first() {
        let Some(d) = digit(*b, 10) else {
            break;
        };
        let longer = 10 * value + d;
        if MOST < longer {
            return None;
        }
        value = longer;
        rest = next;
    }
    Some((value, rest))
}

// A decimal number up to 2147483647, with no leading zero.
pub fn read_count(rest: &[u8]) -> Option<(usize, &[u8])>
    ensures { value_got result ≡ count rest.now }
{
    let (b, rest) = rest.split_first()?;
    let d = digit(*b, 10)?;
    // a first digit of 0 is the whole number
    let whole = d == 0;
    if whole {
        return Some((0, rest));
    }
    more(rest, d)
}

// −1, or a decimal number.
pub fn read_number(rest: &[u8]) -> Option<(i32, &[u8])>
    ensures { value_got result ≡ number rest.now }
{
    if let Some(rest) = word(rest, b"-1") {
        return Some((-1, rest));
    }
    let (n, rest) = read_count(rest)?;
    Some((n as i32, rest))
}

// Sixteen hexadecimal digits.
fn read_hex(rest: &[u8]) -> Option<(u64, &[u8])>
    ensures { value_got result ≡ hex_from 16 rest.now 0 }
{
    let mut value = 0u64;
    let mut rest = rest;
    for _ in 0..HEX_DIGITS {
        let (b, next) = rest.split_first()?;
        let d = digit(*b, 16)?;
        value = 16 * value + d as u64;
        rest = next;
    }
    Some((value, rest))
}

// What was read, where the byte b follows it.
fn then<T: Copy>(read: Option<(T, &[u8])>, b: u8) -> Option<(T, &[u8])>
    ensures { value_got result ≡ then_byte b (value_got read.entry) }
{
    let (value, rest) = read?;
    Some((value, word(rest, &[b])?))
}

// A decimal number and the byte b.
#[tactic(auto, unfolding(crate::specs::Steps::count_then))]
pub fn count_then(rest: &[u8], b: u8) -> Option<(usize, &[u8])>
    ensures { value_got result ≡ count_then b rest.now }
{
    then(read_count(rest), b)
}

// A row's number and the byte b.
#[tactic(auto, unfolding(crate::specs::Steps::number_then))]
pub fn number_then(rest: &[u8], b: u8) -> Option<(i32, &[u8])>
    ensures { value_got result ≡ number_then b rest.now }
{
    then(read_number(rest), b)
}

// A bit pattern and the byte b.
#[tactic(auto, unfolding(crate::specs::Steps::hex_then))]
pub fn hex_then(rest: &[u8], b: u8) -> Option<(u64, &[u8])>
    ensures { value_got result ≡ hex_then b rest.now }
{
    then(read_hex(rest), b)
}
