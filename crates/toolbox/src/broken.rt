/// What of the outside failed.
#[derive(Clone, Copy, Debug, PartialEq, Eq)]
pub enum Broken {
    Input,
    Output,
    Trace,
}
