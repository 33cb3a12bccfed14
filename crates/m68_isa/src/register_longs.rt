// A register file as longs, in the order in which frames and checkpoints hold it.
ghost use Rattle.std.specs.Prelude.{◌≡◌, ◌<◌, length, slice_index};
ghost use Rattle.m68_isa.specs.Longs.{file_of, longs_of};

use super::registers::{Ccr, Regs68};

impl Regs68 {
    /// Writes the file's eighteen longs: D0 to D7, A0 to A7, the pc, and the bits of the condition codes.
    #[inline(always)]
    #[tactic(auto, using(crate::proofs::Longs::file_back))]
    pub fn put_longs(&self, longs: &mut [u32])
        requires { length longs.old ≡ 18 }
        ensures value { longs.new ≡ longs_of self.now }
        ensures back { file_of longs.new ≡ self.now }
    {
        longs[..8].copy_from_slice(&self.d);
        longs[8..16].copy_from_slice(&self.a);
        longs[16] = self.pc;
        longs[17] = self.ccr.bits();
    }

    /// The register file of eighteen longs. Of the last one the five low bits count.
    #[inline(always)]
    #[tactic(auto, using(crate::proofs::Longs::longs_back))]
    pub fn from_longs(longs: &[u32]) -> Regs68
        requires { length longs.now ≡ 18 }
        ensures value { result ≡ file_of longs.now }
        ensures back { slice_index longs.now 17 < 32 → longs_of result ≡ longs.now }
    {
        let mut d = [0; 8];
        let mut a = [0; 8];
        d.copy_from_slice(&longs[..8]);
        a.copy_from_slice(&longs[8..16]);
        Regs68 {
            d,
            a,
            pc: longs[16],
            ccr: Ccr::from_bits(longs[17]),
        }
    }
}
