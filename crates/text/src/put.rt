// Bytes written into a lent buffer, one after the other: names, numbers, lines. A byte for which there is no room is left out, so that
// nothing here asks for room: `write` asks for it once, for all lines together.
ghost use Rattle.std.specs.Prelude.{◌≡◌, ◌∷◌, []};
ghost use Rattle.text.specs.Put.{push, put, PutDigits};
ghost use Rattle.text.specs.Writer.{so_far};
ghost use Rattle.text.specs.Number.{decimal};
ghost use Rattle.text.specs.Line.{numbers, line, rest};

// A lent buffer, and the place of its next byte. `same` says that the writer still has that buffer.
#[derive(Drop)]
pub struct Writer<'a> {
    pub out: &'a mut [u8],
    pub at: usize,
}

impl<'a> Writer<'a> {
    fn byte(&mut self, b: u8)
        ensures after { so_far self.new ≡ push (so_far self.old) b }
        ensures same { self.new.out.ghost_name ≡ self.old.out.ghost_name }
    {
        let at = self.at;
        if at < self.out.len() {
            self.out[at] = b;
            self.at = at + 1;
        }
    }

    pub fn bytes(&mut self, bytes: &[u8])
        ensures after { so_far self.new ≡ put (so_far self.old) bytes.now }
        ensures same { self.new.out.ghost_name ≡ self.old.out.ghost_name }
    {
        for b in bytes {
            self.byte(*b);
        }
    }

    // The digits of n, highest first. By hand: `write!` promises its bytes only where it answers Ok, and nothing promises that it does.
    fn digits(&mut self, n: u64)
        ensures after { PutDigits (so_far self.old) n (so_far self.new) }
        ensures same { self.new.out.ghost_name ≡ self.old.out.ghost_name }
    {
        if n < 10 {
            self.byte(b'0' + n as u8);
            return;
        }
        self.digits(n / 10);
        self.byte(b'0' + (n % 10) as u8);
    }

    pub fn decimal(&mut self, n: u64)
        ensures after { so_far self.new ≡ put (so_far self.old) (decimal n) }
        ensures same { self.new.out.ghost_name ≡ self.old.out.ghost_name }
    {
        self.digits(n);
    }

    // A tab and a number.
    fn number(&mut self, n: u64)
        ensures after { so_far self.new ≡ put (so_far self.old) (9 ∷ decimal n) }
        ensures same { self.new.out.ghost_name ≡ self.old.out.ghost_name }
    {
        self.byte(b'\t');
        self.decimal(n);
    }

    fn numbers(&mut self, ns: &[u32])
        ensures after { so_far self.new ≡ put (so_far self.old) (numbers ns.now) }
        ensures same { self.new.out.ghost_name ≡ self.old.out.ghost_name }
    {
        for n in ns {
            self.number(u64::from(*n));
        }
    }

    // The numbers of a line and its newline.
    fn rest(&mut self, ns: &[u32])
        ensures after { so_far self.new ≡ put (so_far self.old) (rest ns.now) }
        ensures same { self.new.out.ghost_name ≡ self.old.out.ghost_name }
    {
        self.numbers(ns);
        self.byte(b'\n')
    }

    // A line of a record.
    pub fn record(&mut self, name: &[u8], ns: &[u32])
        ensures after { so_far self.new ≡ put (so_far self.old) (line name.now ns.now) }
        ensures same { self.new.out.ghost_name ≡ self.old.out.ghost_name }
    {
        self.bytes(name);
        self.rest(ns);
    }

    // A line of a record that has a number of its own.
    pub fn numbered(&mut self, name: &[u8], n: u64, ns: &[u32])
        ensures after { so_far self.new ≡ put (so_far self.old) (line name.now (n ∷ ns.now)) }
        ensures same { self.new.out.ghost_name ≡ self.old.out.ghost_name }
    {
        self.bytes(name);
        self.number(n);
        self.rest(ns);
    }

    // A line of two numbers.
    pub fn pair(&mut self, name: &[u8], n: u64, m: u64)
        ensures after { so_far self.new ≡ put (so_far self.old) (line name.now (n ∷ m ∷ [])) }
        ensures same { self.new.out.ghost_name ≡ self.old.out.ghost_name }
    {
        self.bytes(name);
        self.number(n);
        self.number(m);
        self.byte(b'\n');
    }
}
