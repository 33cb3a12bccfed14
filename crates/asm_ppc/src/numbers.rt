// The numbers of a line's operands.
ghost use Rattle.std.specs.Prelude.{◌≡◌, ◌-◌, ◌<◌};
ghost use Rattle.asm_ppc.specs.Reading.{finished, pushed, read as read_of, start, step, with_digit};

/// The last five numbers of a line; `a` is the last one. There is 0 where the line has fewer.
#[derive(Clone, Copy)]
pub struct Numbers {
    pub a: u32,
    pub b: u32,
    pub c: u32,
    pub d: u32,
    pub e: u32,
}

impl Numbers {
    /// The numbers with one more.
    fn push(self, number: u32) -> Numbers
        ensures { result ≡ pushed number self }
    {
        Numbers {
            a: number,
            b: self.a,
            c: self.b,
            d: self.c,
            e: self.d,
        }
    }
}

/// A number that is being read, and those before it.
#[derive(Clone, Copy)]
pub struct Reading {
    pub hexadecimal: bool,
    pub negative: bool,
    pub value: u32,
    pub before: Numbers,
}

impl Reading {
    /// At the first digit of a number.
    fn start(before: Numbers) -> Reading
        ensures { result ≡ start before }
    {
        Reading {
            hexadecimal: false,
            negative: false,
            value: 0,
            before,
        }
    }

    /// One more digit; a value wraps at 32 bits.
    fn with_digit(self, digit: u8) -> Reading
        requires { digit < 16 }
        ensures { result ≡ with_digit digit self }
    {
        let base = if self.hexadecimal { 16 } else { 10 };
        let value = u64::from(self.value) * base + u64::from(digit);
        Reading {
            hexadecimal: self.hexadecimal,
            negative: self.negative,
            value: (value % 0x1_0000_0000) as u32,
            before: self.before,
        }
    }

    /// One more byte. Letters of registers and closing brackets say nothing, and a base register follows on
    /// its displacement as a number of its own.
    fn step(self, byte: u8) -> Reading
        ensures { result ≡ step self byte }
    {
        match byte {
            b',' => Reading::start(self.finish()),
            b'(' => Reading::start(self.finish()),
            b'$' => Reading {
                hexadecimal: true,
                negative: self.negative,
                value: self.value,
                before: self.before,
            },
            b'-' => Reading {
                hexadecimal: self.hexadecimal,
                negative: true,
                value: self.value,
                before: self.before,
            },
            b'0'..=b'9' => self.with_digit(byte - b'0'),
            b'A'..=b'F' => self.with_digit(byte - b'A' + 10),
            _ => self,
        }
    }

    /// The numbers with this one; a negative one is its pattern of sixteen bits.
    fn finish(self) -> Numbers
        ensures { result ≡ finished self }
    {
        let number = if self.negative {
            0x1_0000 - self.value % 0x1_0000
        } else {
            self.value
        };
        self.before.push(number)
    }
}

/// The numbers of a text.
pub fn read(text: &[u8]) -> Numbers
    ensures { result ≡ read_of text.now }
{
    let none = Numbers {
        a: 0,
        b: 0,
        c: 0,
        d: 0,
        e: 0,
    };
    let mut reading = Reading::start(none);
    for b in text {
        reading = reading.step(*b);
    }
    reading.finish()
}
