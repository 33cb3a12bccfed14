// Kinds of bytes.
ghost use Rattle.std.specs.Prelude.{◌≡◌, take};
ghost use Rattle.look_why.specs.Kinds.{has as has_of, is_of};

/// A kind of bytes.
#[derive(Clone, Copy)]
pub enum Kind {
    /// A space or a tab.
    Blank,
    /// A tab.
    Tab,
    /// A letter in upper case.
    Capital,
    Colon,
    Dollar,
    /// What is no decimal digit.
    NoDigit,
    /// What is no hexadecimal digit, in either case.
    NoHexadecimal,
}

impl Kind {
    /// Whether a byte is of the kind.
    pub fn is(self, byte: u8) -> bool
        ensures { result ≡ is_of self byte }
    {
        match self {
            Kind::Blank => byte == b' ' || byte == b'\t',
            Kind::Tab => byte == b'\t',
            Kind::Capital => b'A' <= byte && byte <= b'Z',
            Kind::Colon => byte == b':',
            Kind::Dollar => byte == b'$',
            Kind::NoDigit => !(b'0' <= byte && byte <= b'9'),
            Kind::NoHexadecimal => {
                !((b'0' <= byte && byte <= b'9')
                    || (b'A' <= byte && byte <= b'F')
                    || (b'a' <= byte && byte <= b'f'))
            }
        }
    }

    /// Whether one of some bytes is of the kind.
    pub fn is_in(self, bytes: &[u8]) -> bool
        ensures { result ≡ has_of self bytes.now }
    {
        for byte in bytes {
            if self.is(*byte) {
                return true;
            }
        }
        false
    }

    /// Whether the first of some bytes is of the kind.
    pub fn begins(self, bytes: &[u8]) -> bool
        ensures { result ≡ has_of self (take 1 bytes.now) }
    {
        !bytes.is_empty() && self.is(bytes[0])
    }
}
