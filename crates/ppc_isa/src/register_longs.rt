// A register file as longs, in the order in which frames and checkpoints hold it.
ghost use Rattle.std.specs.Prelude.{◌≡◌, length};
ghost use Rattle.ppc_isa.specs.Longs.{file_of, longs_of};

use super::registers::RegsPpc;

impl RegsPpc {
    /// Writes the file's 37 longs: r0 to r31, CR, LR, CTR, XER and the pc.
    #[inline(always)]
    pub fn put_longs(&self, longs: &mut [u32])
        requires { length longs.old ≡ 37 }
        ensures value { longs.new ≡ longs_of self.now }
        ensures back { file_of longs.new ≡ self.now }
    {
        longs[..32].copy_from_slice(&self.gpr);
        longs[32..].copy_from_slice(&[self.cr, self.lr, self.ctr, self.xer, self.pc]);
    }

    /// The register file of 37 longs.
    #[inline(always)]
    #[tactic(auto, using(crate::proofs::Longs::longs_back))]
    pub fn from_longs(longs: &[u32]) -> RegsPpc
        requires { length longs.now ≡ 37 }
        ensures value { result ≡ file_of longs.now }
        ensures back { longs_of result ≡ longs.now }
    {
        let mut gpr = [0; 32];
        gpr.copy_from_slice(&longs[..32]);
        RegsPpc {
            gpr,
            cr: longs[32],
            lr: longs[33],
            ctr: longs[34],
            xer: longs[35],
            pc: longs[36],
        }
    }
}
