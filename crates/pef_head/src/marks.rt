ghost use Rattle.std.specs.Prelude.{◌≡◌, ℕ, ◌||◌, ◌==◌, false};
ghost use Rattle.pef_head.specs.inner.Marks.{is_marked};

/// Which numbers below 65536 are marked, a bit for each.
#[derive(Drop)]
pub struct Marks {
    words: [u64; 1024],
}

impl Marks {
    /// No number is marked.
    pub fn none() -> Marks
        ensures { (k : ℕ) → is_marked result k ≡ false }
    {
        Marks { words: [0; 1024] }
    }

    #[tactic(auto, unfolding(crate::specs::inner::Marks::is_marked))]
    pub fn is_set(&self, k: u16) -> bool
        ensures { result ≡ is_marked self.now k }
    {
        let word = self.words[k as usize / 64];
        word >> (k % 64) & 1 == 1
    }

    pub fn set(&mut self, k: u16)
        ensures { (i : ℕ) → is_marked self.new i ≡ (is_marked self.old i || k == i) }
    {
        let place = k as usize / 64;
        self.words[place] |= 1 << (k % 64);
    }
}
