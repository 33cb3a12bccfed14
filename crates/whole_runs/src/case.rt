/// A line of standard input that is a case.
#[derive(Clone, Copy)]
pub struct Case<'a> {
    pub name: &'a str,
    pub words: &'a str,
    pub files: &'a str,
    pub input: &'a str,
    pub outside: &'a str,
    /// The steps after which it is cut, kept and continued.
    pub cut: Option<u32>,
}

impl<'a> Case<'a> {
    /// The case `NAME | WORDS | FILES | INPUT | OUTSIDE`. What is left out is empty.
    pub fn read(line: &'a str) -> Case<'a> {
        let mut rest = line;
        Case {
            name: next_field(&mut rest),
            words: next_field(&mut rest),
            files: next_field(&mut rest),
            input: next_field(&mut rest),
            outside: next_field(&mut rest),
            cut: None,
        }
    }
}

/// The text up to the next stroke, behind which the rest goes on.
fn next_field<'a>(rest: &mut &'a str) -> &'a str {
    let (field, others) = rest.split_once('|').unwrap_or((*rest, ""));
    *rest = others;
    field.trim()
}
