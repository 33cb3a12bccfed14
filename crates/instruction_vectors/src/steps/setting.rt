use big_memory::Ram;
use mix_bits::Size;

/// A word `NAME=VALUE` of a line.
#[derive(Clone, Copy)]
pub struct Setting<'a> {
    pub name: &'a str,
    pub value: u32,
}

impl<'a> Setting<'a> {
    /// The setting that a word is, if it is one.
    pub fn read(word: &'a str) -> Option<Setting<'a>> {
        let (name, value) = word.split_once('=')?;
        Some(Setting {
            name,
            value: number(value)?,
        })
    }

    /// The number behind a letter, as in `d7` or `r31`.
    pub fn register(&self, letter: char) -> Option<usize> {
        let digits = self.name.strip_prefix(letter)?;
        match usize::from_str_radix(digits, 10) {
            Ok(number) => Some(number),
            Err(_) => None,
        }
    }

    /// Guards the unit of 16 bytes of the stack at the value where the name is `guard`, else stores the
    /// long where the name is an address.
    pub fn apply(&self, ram: &mut Ram) {
        if self.name == "guard" {
            guard_unit(ram, self.value, true);
        } else {
            self.store(ram);
        }
    }

    /// Ends such a guard.
    pub fn end(&self, ram: &mut Ram) {
        if self.name == "guard" {
            guard_unit(ram, self.value, false);
        }
    }

    /// Stores the long where the name is an address.
    fn store(&self, ram: &mut Ram) {
        if let Some(address) = number(self.name) {
            let _ = ram.store(address, Size::Four, self.value);
        }
    }
}

/// Begins or ends the guard of the unit of 16 bytes at an address of the stack.
fn guard_unit(ram: &mut Ram, at: u32, on: bool) {
    let (floor, len) = (ram.floor(), ram.len());
    if at % 16 == 0 && floor <= at && at < len && len - at >= 16 {
        if on {
            ram.guard(at, at + 16);
        } else {
            ram.unguard(at, at + 16);
        }
    }
}

/// A number in hexadecimal.
pub fn number(text: &str) -> Option<u32> {
    match u32::from_str_radix(text, 16) {
        Ok(number) => Some(number),
        Err(_) => None,
    }
}
