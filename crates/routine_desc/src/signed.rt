// A procInfo word with its signature.
ghost use Rattle.std.specs.Prelude.{◌≡◌, Ok};
ghost use Rattle.proc_info.specs.Signature.{signature_in, signature_of};
ghost use Rattle.proc_info.specs.Views.{signature};

use proc_info::{BadInfo, Sig, read};

/// A procInfo word and its signature: that of the record that was read last, so that a word that comes again is
/// read once.
#[derive(Clone, Copy)]
pub struct Signed {
    pub info: u32,
    pub sig: Sig,
    pub ghost valid: { signature_of info ≡ Ok (signature sig) },
}

impl Signed {
    ghost use Rattle.std.specs.Prelude.{◌≡◌, IfErr, IfOk, Err, true};
    ghost use Rattle.proc_info.specs.Signature.{has_signature, signature_in, signature_of};
    ghost use Rattle.proc_info.specs.Views.{signature};

    /// The word 0.
    #[inline(always)]
    pub fn empty() -> Signed
        ensures { result.info ≡ 0 }
    {
        Signed {
            info: 0,
            sig: Sig::empty(),
        }
    }

    /// The signature of a word, or that of the word 0 where it has none.
    #[inline(always)]
    pub fn of(&self, info: u32) -> Sig
        ensures { signature result ≡ signature_in info }
    {
        if info == self.info {
            self.sig
        } else {
            read_or_empty(info)
        }
    }

    /// Becomes another word, or tells why it has no signature and stays.
    #[inline(always)]
    pub(crate) fn sign(&mut self, info: u32) -> Result<(), BadInfo>
        ensures signed { IfOk result (λ done. has_signature info ≡ true) }
        ensures refused { IfErr result (λ bad. signature_of info ≡ Err bad) }
        ensures becomes { IfOk result (λ done. self.new.info ≡ info) }
        ensures stays { IfErr result (λ bad. self.new ≡ self.old) }
    {
        if info == self.info {
            return Ok(());
        }
        match read(info) {
            Ok(sig) => {
                *self = Signed { info, sig };
                Ok(())
            }
            Err(bad) => Err(bad),
        }
    }
}

/// The signature of a word, or that of the word 0 where it has none.
fn read_or_empty(info: u32) -> Sig
    ensures { signature result ≡ signature_in info }
{
    match read(info) {
        Ok(sig) => sig,
        Err(_) => Sig::empty(),
    }
}
