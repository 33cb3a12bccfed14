ghost use Rattle.std.specs.Prelude.{◌≡◌, ◌≤◌, length};
ghost use Rattle.look_why.specs.Rules.{rule_text};

/// The rule that a refused line breaks.
#[derive(Clone, Copy, Debug, PartialEq, Eq)]
pub enum Rule {
    /// A carriage return stands at its end.
    Return,
    /// A space or a tab stands in front.
    Indented,
    /// Something stands behind what the line may say.
    Behind,
    /// A tab stands in it.
    Tab,
    /// A space stands in it that has no place.
    Spaces,
    /// No line feed ends it.
    Open,
    /// It is empty.
    Empty,
    /// The number or the address is missing.
    Missing,
    /// The name is not in lower case.
    Capitals,
    /// It is no command.
    Command,
    /// The number of steps is 0.
    Zero,
    /// The number of steps has a zero in front.
    Leading,
    /// The number of steps is too large.
    Large,
    /// The number of steps is none.
    Count,
    /// The address has lower-case digits.
    LowerAddress,
    /// The address has not eight digits.
    Length,
    /// The address is none.
    Address,
    /// The address in front is not the line's.
    Elsewhere,
    /// No instruction stands behind the address.
    Nameless,
    /// A comment is not alone in its line.
    Comment,
    /// The other set has the name.
    OtherSet,
    /// A label stands in front.
    Label,
    /// It is a directive of an assembler.
    Directive,
    /// No 68K instruction has the name.
    Name68,
    /// No PowerPC instruction has the name.
    NamePpc,
    /// A register has a percent sign in front.
    Percent,
    /// A number has 0x in front.
    Prefix,
    /// A hexadecimal digit is in lower case.
    LowerDigit,
    /// A register is not in lower case.
    Upper,
    /// A decimal number stands behind #.
    Decimal,
    /// A number has $ in front.
    Dollar,
    /// The operands are none of the name.
    Operands,
}

impl Rule {
    /// The rule in a sentence.
    pub fn text(self) -> &'static str
        ensures is { result.now ≡ rule_text self }
        ensures short { length result.now ≤ 160 }
    {
        match self {
            Rule::Return => {
                "A carriage return stands at its end, as in a DOS text: a line feed alone ends a line."
            }
            Rule::Indented => "It begins with a space or a tab, and nothing may stand in front.",
            Rule::Behind => {
                "Something stands behind it that may not: a space, a comment or another word."
            }
            Rule::Tab => {
                "A tab stands in it: one space stands behind the name, and no other blank."
            }
            Rule::Spaces => {
                "A space stands in it that has no place: there is one behind the name, and no other."
            }
            Rule::Open => "No line feed ends it: each line of a script has one, the last one too.",
            Rule::Empty => "It is empty, and each line of a script is a command.",
            Rule::Missing => {
                "A number or an address is missing: step N, go N, over N, back N, break A, clear A."
            }
            Rule::Capitals => "Its name is not in lower case, as all names are.",
            Rule::Command => {
                "No command has this name: step N, go N, over N, back N, break A, clear A, where."
            }
            Rule::Zero => "The number of steps is 0: it is 1 to 4294967295.",
            Rule::Leading => "The number of steps has a zero in front, which it may not.",
            Rule::Large => "The number of steps is above 4294967295.",
            Rule::Count => {
                "The number of steps is no decimal number: it has digits alone, and no sign."
            }
            Rule::LowerAddress => {
                "The address has a digit in lower case: it is eight upper-case hexadecimal digits."
            }
            Rule::Length => {
                "The address has not eight digits: zeros stand in front, as in 00010000."
            }
            Rule::Address => {
                "The address is none: it is eight upper-case hexadecimal digits alone, without $ or 0x."
            }
            Rule::Elsewhere => {
                "The address in front is not the line's: that is at= and the bytes of the lines before."
            }
            Rule::Nameless => "No instruction stands behind the address in front.",
            Rule::Comment => {
                "A ; stands in it: a comment has a line of its own, which begins with it."
            }
            Rule::OtherSet => {
                "No instruction of this set has this name, but one of the other set has: set= is likely wrong."
            }
            Rule::Label => {
                "A colon stands in its name: there are no labels, and an address in front has eight upper-case digits, a colon and a space."
            }
            Rule::Directive => {
                "It begins with a directive, and there is none but dc.w (68K) and .long (PowerPC)."
            }
            Rule::Name68 => {
                "No 68K instruction has this name: a size belongs to it where the instruction has several, as in move.l and bra.b."
            }
            Rule::NamePpc => {
                "No PowerPC instruction has this name: short forms as li, mr, blr and cmpwi are none."
            }
            Rule::Percent => "A % stands in it: registers have none in front.",
            Rule::Prefix => "0x stands in it: a hexadecimal number has $ in front.",
            Rule::LowerDigit => {
                "A digit behind $ is in lower case: hexadecimal digits are upper-case letters."
            }
            Rule::Upper => {
                "An upper-case letter stands outside of a hexadecimal number: registers are in lower case."
            }
            Rule::Decimal => {
                "A decimal number stands behind #: but for 1 to 8 of addq, subq and shifts, and 0 to 15 of trap, it has $ and full width, as #$0048."
            }
            Rule::Dollar => {
                "A $ stands in it: but for targets of branches and .long, PowerPC numbers are decimal."
            }
            Rule::Operands => {
                "The name is good, but no instruction has these operands here: their number, a kind, a range or width of a number, or the reach of a target is wrong."
            }
        }
    }
}
