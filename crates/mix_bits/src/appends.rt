//! Appends to a line that has room for them.
ghost use Rattle.std.specs.Prelude.{◌≡◌, ◌⊎◌, ◌+◌, ◌≤◌, ◌++◌, length, decimal};
ghost use Rattle.mix_bits.specs.Text.{hexadecimal};
ghost use Rattle.mix_bits.specs.TextClauses.{most_bytes};

use super::line::Line;

impl Line {
    /// Appends a text.
    pub fn add(&mut self, t: &str)
        requires { length self.old + length t.now ≤ most_bytes }
        ensures text { self.new ≡ self.old ++ t.now }
        ensures grows { length self.new ≡ length self.old + length t.now }
    {
        let _fits = self.text(t);
    }

    /// Appends the lowest 2, 4 or 8 hexadecimal digits of `v`, in upper case.
    pub fn add_hex(&mut self, v: u32, digits: u32)
        requires digits { (digits ≡ 2) ⊎ (digits ≡ 4) ⊎ (digits ≡ 8) }
        requires room { length self.old + digits ≤ most_bytes }
        ensures { self.new ≡ self.old ++ hexadecimal digits v }
    {
        let _fits = self.hex(v, digits);
    }

    /// Appends `v` in decimal, for which ten bytes are enough.
    pub fn add_dec(&mut self, v: u32)
        requires { length self.old + 10 ≤ most_bytes }
        ensures text { self.new ≡ self.old ++ decimal v }
        ensures short { length self.new ≤ length self.old + 10 }
    {
        let _fits = self.dec(v);
    }
}
