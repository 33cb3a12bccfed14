ghost use Rattle.std.specs.Prelude.{◌≡◌, ◌-◌, drop, replicate};
ghost use Rattle.args_m68.specs.Arguments.{words_of};

/// The arguments of a call that 68K code makes or gets, at most thirteen.
#[derive(Clone, Copy)]
pub struct Words {
    /// How many there are.
    pub count: u8,
    /// The arguments in the parameters' order, and 0 past the last one.
    pub value: [u32; 13],
}

impl Words {
    ghost use Rattle.std.specs.Prelude.{◌+◌, ◌<◌, [], ◌∷◌, ◌++◌};

    /// No words.
    #[inline(always)]
    pub fn empty() -> Words
        ensures values { words_of result ≡ [] }
        ensures count { result.count ≡ 0 }
        ensures rest { drop result.count result.value ≡ replicate (13 - result.count) 0 }
    {
        Words {
            count: 0,
            value: [0; 13],
        }
    }

    /// Appends a word, for which there is room.
    #[inline(always)]
    pub fn push(&mut self, word: u32)
        requires room { self.old.count < 13 }
        requires rest { drop self.old.count self.old.value ≡ replicate (13 - self.old.count) 0 }
        ensures values { words_of self.new ≡ words_of self.old ++ word ∷ [] }
        ensures count { self.new.count ≡ self.old.count + 1 }
        ensures rest { drop self.new.count self.new.value ≡ replicate (13 - self.new.count) 0 }
    {
        self.value[self.count as usize] = word;
        self.count += 1;
    }
}
