use dev_rack::Devices;
use mix_io::{Sink, Source};

/// What lies outside a machine, lent for a run.
#[derive(Drop)]
pub struct Outside<'i, 'o, 't, 'd, I: Source, O: Sink, T: Sink, D: Devices> {
    pub input: &'i mut I,
    pub out: &'o mut O,
    pub trace: &'t mut T,
    pub rack: &'d mut D,
}
