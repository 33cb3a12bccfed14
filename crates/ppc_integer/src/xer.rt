// The fixed-point exception register.
ghost use Rattle.std.specs.Prelude.{◌≡◌, ◌<◌};
ghost use Rattle.ppc_integer.specs.Xer.{ca_of, kept_in_xer, so_of, string_length_of, top_of, with_ca, with_overflow, without_top};

/// SO, the summary of overflows.
#[inline(always)]
pub fn xer_so(xer: u32) -> bool
    ensures { result ≡ so_of xer }
{
    xer / 0x8000_0000 == 1
}

/// CA, the carry.
#[inline(always)]
pub fn xer_ca(xer: u32) -> bool
    ensures { result ≡ ca_of xer }
{
    xer / 0x2000_0000 % 2 == 1
}

/// How many bytes a string of lswx or stswx has.
#[inline(always)]
pub fn xer_string_length(xer: u32) -> u32
    ensures is { result ≡ string_length_of xer }
    ensures below { result < 128 }
{
    xer % 128
}

/// The register with another carry.
#[inline(always)]
pub fn xer_with_ca(xer: u32, on: bool) -> u32
    ensures { result ≡ with_ca xer on }
{
    (xer / 0x4000_0000 * 2 + u32::from(on)) * 0x2000_0000 + xer % 0x2000_0000
}

/// The register with OV, and with SO where OV is set.
#[inline(always)]
pub fn xer_with_overflow(xer: u32, on: bool) -> u32
    ensures { result ≡ with_overflow xer on }
{
    if on {
        0xC000_0000 + xer % 0x4000_0000
    } else {
        xer / 0x8000_0000 * 0x8000_0000 + xer % 0x4000_0000
    }
}

/// The bits that the register has, as mtspr writes and mfspr reads them: SO, OV, CA and the length of
/// a string.
#[inline(always)]
pub fn xer_kept(word: u32) -> u32
    ensures { result ≡ kept_in_xer word }
{
    word / 0x2000_0000 * 0x2000_0000 + word % 128
}

/// The top four bits, as mcrxr moves them.
#[inline(always)]
pub fn xer_top(xer: u32) -> u32
    ensures is { result ≡ top_of xer }
    ensures below { result < 16 }
{
    xer / 0x1000_0000
}

/// The register with its top four bits clear.
#[inline(always)]
pub fn xer_without_top(xer: u32) -> u32
    ensures { result ≡ without_top xer }
{
    xer % 0x1000_0000
}
