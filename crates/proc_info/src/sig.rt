ghost use Rattle.std.specs.Prelude.{◌≡◌, ◌≤◌, ◌-◌, take, drop, replicate};
ghost use Rattle.proc_info.specs.inner.Signature.{IsSignature};
ghost use Rattle.proc_info.specs.inner.Nothing.{nothing};

use super::conv::Conv;
use super::param::Param;
use mix_bits::Size;

/// How a procedure is called: the signature of some procInfo word.
#[derive(Clone, Copy)]
pub struct Sig {
    pub conv: Conv,
    pub result: Size,
    /// Register convention: where the result is. D0 to D3 are 0 to 3, A0 to A3 are 4 to 7, D4 to D7 are
    /// 8 to 11, A4 to A6 are 12 to 14, and the condition bits C, V, Z, N, X are 16 to 20. Else 0.
    pub place: u8,
    /// The selector's size in a dispatched convention. Else no size.
    pub selector: Size,
    /// How many parameters there are.
    pub count: u8,
    /// The parameters, and `Param::NONE` past the last one.
    pub params: [Param; 13],
    pub ghost few: { count ≤ 13 },
    pub ghost rest: { drop count params ≡ replicate (13 - count) nothing },
    pub ghost valid: { IsSignature (record { conv = conv; result = result; place = place; selector = selector; params = take count params }) },
}

impl Sig {
    ghost use Rattle.std.specs.Prelude.{◌≡◌, length};
    ghost use Rattle.proc_info.specs.Rules.{KeepsRules};
    ghost use Rattle.proc_info.specs.Signature.{no_parameters};
    ghost use Rattle.proc_info.specs.Views.{params_of, signature};

    /// The signature of the word 0: a Pascal call without parameters and result.
    #[inline(always)]
    pub fn empty() -> Sig
        ensures value { signature result ≡ no_parameters }
        ensures count { result.count ≡ 0 }
    {
        Sig {
            conv: Conv::Pascal,
            result: Size::Zero,
            place: 0,
            selector: Size::Zero,
            count: 0,
            params: [Param::NONE; 13],
        }
    }

    /// The parameters, the first one first.
    pub fn params(&self) -> &[Param]
        ensures list { result.now ≡ params_of self.now }
        ensures count { length result.now ≡ self.now.count }
        ensures rules { KeepsRules (signature self.now) }
    {
        let _sig = *self;
        &self.params[..self.count as usize]
    }
}
