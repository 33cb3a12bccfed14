ghost use Rattle.std.specs.Prelude.{◌≡◌, ◌+◌, ◌/◌, ◌%◌, ◌<◌, [], ◌∷◌, ◌++◌};
ghost use Rattle.asm_m68.specs.Code.{IsPadded, kept};
ghost use Rattle.asm_m68.specs.laws.Spelling.{long_words};

/// The words of an instruction: the first `count` ones. Zeros follow.
#[derive(Clone, Copy)]
pub struct Code68 {
    pub count: u32,
    pub words: [u16; 5],
}

impl Code68 {
    /// No words.
    pub(crate) fn empty() -> Code68
        ensures words { kept result ≡ [] }
        ensures count { result.count ≡ 0 }
        ensures padded { IsPadded result }
    {
        Code68 {
            count: 0,
            words: [0; 5],
        }
    }

    /// One more word, the low sixteen bits of a number.
    pub(crate) fn push(self, word: u32) -> Code68
        requires room { self.count < 5 }
        requires padded { IsPadded self }
        ensures words { kept result ≡ kept self ++ ((word % 65536) ∷ []) }
        ensures count { result.count ≡ self.count + 1 }
        ensures padded { IsPadded result }
    {
        let mut words = self.words;
        words[self.count as usize] = (word % 0x1_0000) as u16;
        Code68 {
            count: self.count + 1,
            words,
        }
    }

    /// Two more words, the high one first.
    pub(crate) fn push_long(self, number: u32) -> Code68
        requires room { self.count < 4 }
        requires padded { IsPadded self }
        ensures words { kept result ≡ kept self ++ long_words number }
        ensures count { result.count ≡ self.count + 2 }
        ensures padded { IsPadded result }
    {
        self.push(number / 0x1_0000).push(number)
    }
}
