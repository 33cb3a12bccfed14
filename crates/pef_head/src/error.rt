use thiserror::Error;

/// Why a container was not read. A place counts from the first byte of the file.
#[derive(Clone, Copy, Debug, PartialEq, Eq, Error)]
pub enum PefError {
    /// The file has this many bytes, fewer than the header or the section headers need.
    #[error("a file of {0} bytes is too short for a container's headers")]
    Short(u32),
    #[error("the file is no container")]
    Magic,
    #[error("the container is not for PowerPC")]
    Architecture,
    #[error("the container is not of version 1")]
    Version,
    /// The number of a section that cannot be loaded as its header says, or of the first one that is not
    /// there.
    #[error("section {0} cannot be loaded")]
    Section(u32),
    #[error("there is no loader section")]
    NoLoader,
    /// The place of the loader section, of a table in it, or of an entry of a table.
    #[error("what stands at {0} does not fit the loader section")]
    Loader(u32),
    /// The place of a library or a symbol.
    #[error("the name of what stands at {0} has no end")]
    Name(u32),
    #[error("the container has an initialization routine")]
    Init,
}
