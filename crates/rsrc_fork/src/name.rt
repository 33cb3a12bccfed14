/// What names a resource in its fork: its type, four characters as a big-endian number, and its id.
#[derive(Clone, Copy, Debug, PartialEq, Eq, Hash)]
pub struct Name {
    pub kind: u32,
    pub id: i16,
}
