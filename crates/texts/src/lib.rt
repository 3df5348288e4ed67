// Text put into a lent buffer behind the bytes in use. A `Text`'s methods ask for room for what they put and no more; `put` and
// `put_decimal` ask for nothing, and leave out what does not fit.
#![tactic(auto)]

ghost use Rattle.std.specs.Prelude.{◌≡◌, pos, ◌-ℤ◌};
ghost use Rattle.digits.specs.Written.{decimal, signed};
ghost use Rattle.texts.specs.Appended.{line};
ghost use Rattle.texts.specs.Grows.{HasRoom, Grows};
ghost use Rattle.texts.specs.Put.{put};

// A lent buffer, and how many of its bytes are in use.
#[derive(Drop)]
pub struct Text<'a> {
    pub out: &'a mut [u8],
    pub used: usize,
}

impl<'a> Text<'a> {
    // Puts bytes behind those in use.
    pub fn put_bytes(&mut self, bytes: &[u8])
        requires { HasRoom self.old bytes.now }
        ensures { Grows self.old bytes.now self.new }
    {
        let end = self.used + bytes.len();
        self.out[self.used..end].copy_from_slice(bytes);
        self.used = end;
    }

    // Puts a decimal number.
    pub fn put_number(&mut self, n: u64)
        requires { HasRoom self.old (decimal n) }
        ensures { Grows self.old (decimal n) self.new }
    {
        let mut digits = [0u8; 20];
        let k = io::decimal(n, &mut digits);
        self.put_bytes(&digits[..k]);
    }

    // Puts a word, a number and the end of the line.
    pub fn put_line(&mut self, word: &[u8], n: usize)
        requires { HasRoom self.old (line word.now (decimal n)) }
        ensures { Grows self.old (line word.now (decimal n)) self.new }
    {
        self.put_bytes(word);
        self.put_number(n as u64);
        self.put_bytes(b"\n");
    }

    // Puts the difference of two numbers, with a sign where it is negative.
    pub fn put_difference(&mut self, more: usize, less: usize)
        requires { HasRoom self.old (signed (pos more -ℤ pos less)) }
        ensures { Grows self.old (signed (pos more -ℤ pos less)) self.new }
    {
        if less <= more {
            self.put_number((more - less) as u64);
        } else {
            self.put_bytes(b"-");
            self.put_number((less - more) as u64);
        }
    }
}

// Puts bytes, where they fit.
pub fn put(out: &mut [u8], used: usize, bytes: &[u8]) -> usize
    ensures { (out.new, result) ≡ put bytes.now (out.old, used) }
{
    if out.len() < used {
        return used;
    }
    if out.len() - used < bytes.len() {
        return used;
    }
    let mut text = Text { out, used };
    text.put_bytes(bytes);
    text.used
}

// Puts a decimal number, where it fits.
pub fn put_decimal(out: &mut [u8], used: usize, n: u64) -> usize
    ensures { (out.new, result) ≡ put (decimal n) (out.old, used) }
{
    let mut digits = [0u8; 20];
    let k = io::decimal(n, &mut digits);
    put(out, used, &digits[..k])
}
