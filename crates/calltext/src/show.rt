// What a call says and leaves, put into a lent buffer as lines of text, piece by piece; a piece that does not fit is left out.
#![tactic(auto, unfolding(texts::specs::Put::puts))]

ghost use Rattle.std.specs.Prelude.{◌∷◌, [], List, ℕ};
ghost use Rattle.digits.specs.Written.{decimal};
ghost use Rattle.texts.specs.Put.{signed_pieces};
ghost use Rattle.calltext.specs.Shown.{ended, answered, plain, listed};
ghost use Rattle.calltext.specs.Page.{Puts};

// A lent buffer, and how many of its bytes are in use.
#[derive(Drop)]
pub struct Page<'a> {
    pub out: &'a mut [u8],
    pub used: usize,
}

// A type of which a value can be put: the pieces of text that it makes.
pub trait Showable: Copy {
    ghost pieces: { Self → List (List ℕ) };

    fn put(self, page: &mut Page)
        ensures { Puts (pieces self) page.old page.new };
}

impl Showable for i32 {
    ghost pieces = { signed_pieces };

    fn put(self, page: &mut Page) {
        if self < 0 {
            page.bytes(b"-");
        }
        page.decimal(u64::from(self.unsigned_abs()));
    }
}

impl Showable for u64 {
    ghost pieces = { plain };

    fn put(self, page: &mut Page) {
        page.decimal(self);
    }
}

impl Showable for usize {
    ghost pieces = { plain };

    fn put(self, page: &mut Page) {
        page.decimal(self as u64);
    }
}

impl Showable for u32 {
    ghost pieces = { plain };

    fn put(self, page: &mut Page) {
        page.decimal(u64::from(self));
    }
}

impl Showable for u8 {
    ghost pieces = { plain };

    fn put(self, page: &mut Page) {
        page.decimal(u64::from(self));
    }
}

impl Page<'_> {
    fn bytes(&mut self, bytes: &[u8])
        ensures { Puts (bytes.now ∷ []) self.old self.new }
    {
        self.used = texts::put(self.out, self.used, bytes);
    }

    fn decimal(&mut self, n: u64)
        ensures { Puts (decimal n ∷ []) self.old self.new }
    {
        self.used = texts::put_decimal(self.out, self.used, n);
    }

    pub fn end(&mut self)
        ensures { Puts ended self.old self.new }
    {
        self.bytes(b"\n");
    }

    // The entry's name, and the answer's number.
    pub fn number(&mut self, entry: &[u8], number: u32)
        ensures { Puts (answered entry.now number) self.old self.new }
    {
        self.bytes(entry);
        self.value(b" answer=", number);
    }

    // A name and a value.
    pub fn value<T: Showable>(&mut self, name: &[u8], value: T)
        ensures { Puts (name.now ∷ T.pieces value) self.old self.new }
    {
        self.bytes(name);
        value.put(self);
    }

    // A name and a list on a line, a blank before each of its values.
    pub fn list<T: Showable>(&mut self, name: &[u8], values: &[T])
        ensures { Puts (listed T.pieces name.now values.now) self.old self.new }
    {
        self.bytes(name);
        for value in values {
            self.value(b" ", *value);
        }
        self.end();
    }
}
