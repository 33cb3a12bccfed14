ghost use Rattle.std.specs.Prelude.{◌≡◌, ◌^◌, ◌<◌, ◌≤◌, ◌+◌, IfSome, length, map};
ghost use Rattle.std.specs.List.{position_from};
ghost use Rattle.std.specs.Option.{option_map};
ghost use Rattle.big_memory.specs.Map.{host_functions};
ghost use Rattle.toolbox.specs.NamesClauses.{IsImportIndex};
ghost use Rattle.toolbox.specs.Names.{import_index};
ghost use Rattle.toolbox.specs.inner.Parts.{is_named as is_named_so};

use crate::function::IMPORTS;
use crate::table::Import;

/// The number of the function that a PEF container imports by the name of its library and its own.
pub fn import_index(library: &[u8], name: &[u8]) -> Option<u32>
    ensures is { IsImportIndex library.now name.now result }
    ensures value { result ≡ import_index library.now name.now }
    ensures below { IfSome result (λ k. k < host_functions) }
{
    import_number(library, name)
}

/// The number of the first function that is imported so.
fn import_number(library: &[u8], name: &[u8]) -> Option<u32>
    ensures { result ≡ import_index library.now name.now }
{
    import_from(&IMPORTS, 0, library, name)
}

/// The same among imports, of which the first has the number `at`.
fn import_from(imports: &[Import], at: u32, library: &[u8], name: &[u8]) -> Option<u32>
    requires { at + length imports.now ≤ 2 ^ 16 }
    ensures { result ≡ position_from (is_named_so library.now name.now) at (map (λ i. option_map (λ b. (b.0.now, b.1.now)) i) imports.now) }
{
    match imports {
        [] => None,
        [first, rest @ ..] => {
            if is_named(first, library, name) {
                Some(at)
            } else {
                import_from(rest, at + 1, library, name)
            }
        }
    }
}

/// Whether what a function is imported by is this library and name.
fn is_named(import: &Import, library: &[u8], name: &[u8]) -> bool
    ensures { result ≡ is_named_so library.now name.now (option_map (λ b. (b.0.now, b.1.now)) import.now) }
{
    match import {
        None => false,
        Some((its_library, its_name)) => {
            its_library.as_bytes() == library && its_name.as_bytes() == name
        }
    }
}
