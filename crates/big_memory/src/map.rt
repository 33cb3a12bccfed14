ghost use Rattle.std.specs.Prelude.{◌≡◌, ◌≢◌, ℕ, ◌<◌, MatchOption};
ghost use Rattle.big_memory.specs.Map.{exit_gate as exit_gate_of, return_gate as return_gate_of, in_gate_page as is_in_gate_page, is_gate as is_one_of_the_gates, host_code as host_code_of, host_code_at, host_functions, host_vector_at};

use mix_bits::Isa;

/// Where the gate page begins.
pub const GATE_PAGE: u32 = 0x1000;

/// Where the gate page ends.
pub const GATE_PAGE_END: u32 = 0x2000;

/// How many host functions there are.
pub const HOST_FUNCTIONS: u32 = 15;

const EXIT_GATE_68K: u32 = 0x1000;

const RETURN_GATE_68K: u32 = 0x1008;

const EXIT_GATE_PPC: u32 = 0x1010;

const RETURN_GATE_PPC: u32 = 0x1018;

/// Where the transition vector of the first host function is.
const HOST_VECTORS: u32 = 0x1400;

/// The code address of the first host function.
const HOST_CODE: u32 = 0x1800;

/// Where the main program ends.
#[inline(always)]
pub fn exit_gate(set: Isa) -> u32
    ensures { result ≡ exit_gate_of set }
{
    match set {
        Isa::M68 => EXIT_GATE_68K,
        Isa::Ppc => EXIT_GATE_PPC,
    }
}

/// Where a callee returns.
#[inline(always)]
pub fn return_gate(set: Isa) -> u32
    ensures { result ≡ return_gate_of set }
{
    match set {
        Isa::M68 => RETURN_GATE_68K,
        Isa::Ppc => RETURN_GATE_PPC,
    }
}

/// Whether one of the four gates is at this address.
#[inline(always)]
pub fn is_gate(a: u32) -> bool
    ensures { result ≡ is_one_of_the_gates a }
{
    matches!(
        a,
        EXIT_GATE_68K | RETURN_GATE_68K | EXIT_GATE_PPC | RETURN_GATE_PPC
    )
}

/// Whether the gate page has this address.
#[inline(always)]
pub fn in_gate_page(a: u32) -> bool
    ensures { result ≡ is_in_gate_page a }
{
    GATE_PAGE <= a && a < GATE_PAGE_END
}

/// The transition vector's address of a host function, by its number.
pub fn host_vector(k: u32) -> u32
    requires { k < host_functions }
    ensures { result ≡ host_vector_at k }
{
    HOST_VECTORS + 8 * k
}

/// The code address of a host function, by its number.
pub fn host_address(k: u32) -> u32
    requires { k < host_functions }
    ensures { result ≡ host_code_at k }
{
    HOST_CODE + 4 * k
}

/// The number of the host function whose code address this is.
#[inline(always)]
pub fn host_code(a: u32) -> Option<u32>
    ensures is { result ≡ host_code_of a }
    ensures place { MatchOption result ((k : ℕ) → k < host_functions → a ≢ host_code_at k) (λ k. (k < host_functions) × (a ≡ host_code_at k)) }
{
    if HOST_CODE <= a && a < HOST_CODE + 4 * HOST_FUNCTIONS && a % 4 == 0 {
        Some((a - HOST_CODE) / 4)
    } else {
        None
    }
}
