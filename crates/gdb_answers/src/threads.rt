ghost use Rattle.std.specs.Prelude.{◌≡◌, ◌++◌, OnOk};
ghost use Rattle.gdb_answers.specs.Stops.{thread_text};

use mix_bits::{Isa, NoMemory};

/// How gdb names a thread.
#[derive(Clone, Copy, Debug, PartialEq, Eq)]
pub enum ThreadName {
    /// The one thread of a gdb that knows no processes.
    Only,
    /// The thread of the process of a set.
    Of(Isa),
}

pub fn append_thread(buffer: &mut Vec<u8>, name: ThreadName) -> Result<(), NoMemory>
    ensures { OnOk result (buffer.new.items ≡ buffer.old.items ++ thread_text name) }
{
    match name {
        ThreadName::Only => buffer.push(b'1')?,
        ThreadName::Of(Isa::M68) => buffer.extend_from_slice(b"p1.1")?,
        ThreadName::Of(Isa::Ppc) => buffer.extend_from_slice(b"p2.2")?,
    }
    Ok(())
}
