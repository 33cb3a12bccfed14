// Reasons by their numbers.
ghost use Rattle.std.specs.Prelude.{◌≡◌};
ghost use Rattle.fault_words.specs.Reasons.{descriptor_reason as reason_of_descriptor, info_reason as reason_of_info, vector_reason as reason_of_vector};

/// Why a routine descriptor is refused.
pub fn descriptor_reason(code: u32) -> &'static str
    ensures { result.now ≡ reason_of_descriptor code }
{
    match code {
        1 => "a part of it is outside RAM",
        2 => "it does not begin with $AAFE",
        3 => "its version is not 7",
        4 => "a field is not 0 that is reserved",
        5 => "its last record has an index above 63",
        6 => "a record has an ISA that is neither 0, 1 nor 16",
        7 => "a record has flags that are not taken",
        8 => "a record has a procInfo without a signature",
        9 => "its records are not called alike",
        _ => "",
    }
}

/// Why a procInfo word has no signature.
pub fn info_reason(code: u32) -> &'static str
    ensures { result.now ≡ reason_of_info code }
{
    match code {
        1 => "its convention is none of those that there are",
        2 => "bit 31 is set",
        3 => "the place of its result has no name",
        4 => "a size is set behind the first that is 0, or a selector has none",
        5 => "two parameters are in one register",
        _ => "",
    }
}

/// What exception a vector stands for.
pub fn vector_reason(vector: u32) -> &'static str
    ensures { result.now ≡ reason_of_vector vector }
{
    match vector {
        5 => "a division by zero",
        6 => "a chk whose register is below 0 or above its bound",
        7 => "a trapv with V set",
        11 => "a word from $F000 on, which is a coprocessor's",
        _ => "a TRAP instruction",
    }
}
