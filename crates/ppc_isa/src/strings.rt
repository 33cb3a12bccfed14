ghost use Rattle.std.specs.Prelude.{◌≡◌, ◌<◌, ◌≤◌, ◌==◌};
ghost use Rattle.std.specs.List.{list_any};
ghost use Rattle.ppc_isa.specs.Operands.{registers_from, string_length as string_length_of, string_registers as string_registers_of};

/// Whether a register is among the `count` registers that a string fills from register `first` on,
/// where register 0 follows on register 31.
#[inline(always)]
#[tactic(auto, using(crate::proofs::Filled::filled_by_distance))]
pub fn is_filled(register: usize, first: usize, count: usize) -> bool
    requires register_in { register < 32 }
    requires first_in { first < 32 }
    ensures { result ≡ list_any (λ r. r == register) (registers_from first count) }
{
    (register + 32 - first) % 32 < count
}

/// How many bytes a string of NB bytes has.
#[inline(always)]
pub fn string_length(nb: u32) -> u32
    requires { nb < 32 }
    ensures is { result ≡ string_length_of nb }
    ensures most { result ≤ 32 }
{
    if nb == 0 { 32 } else { nb }
}

/// How many registers it fills.
#[inline(always)]
pub fn string_registers(nb: u32) -> usize
    requires { nb < 32 }
    ensures is { result ≡ string_registers_of nb }
    ensures most { result ≤ 8 }
{
    ((string_length(nb) + 3) / 4) as usize
}
