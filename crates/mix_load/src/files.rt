use std::marker::Model;

/// The bytes of a file. Contracts see them as a list.
#[derive(Drop)]
pub struct FileBytes {
    bytes: Vec<u8>,
}

impl Model for FileBytes {
    ghost use Rattle.std.specs.Prelude.{List, ℕ};

    ghost Value = { List ℕ };

    ghost view = { λ file. file.bytes.items };
}

impl FileBytes {
    ghost use Rattle.std.specs.Prelude.{◌≡◌};

    /// A file of these bytes.
    pub fn of(bytes: Vec<u8>) -> FileBytes
        ensures { result ≡ bytes.items }
    {
        FileBytes { bytes }
    }

    /// Its bytes.
    pub fn bytes(&self) -> &[u8]
        ensures { result.now ≡ self.now }
    {
        &self.bytes
    }
}

/// The files of a program: a flat file, or a resource fork, a container or both.
#[derive(Drop)]
pub struct Files {
    pub flat: Option<FileBytes>,
    pub rsrc: Option<FileBytes>,
    pub pef: Option<FileBytes>,
}
