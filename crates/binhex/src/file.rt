ghost use Rattle.std.specs.Prelude.{◌≡◌, ◌^◌, ◌<◌, IfOk, length};
ghost use Rattle.binhex.specs.Forks.{forks_in as forks_within, forks_of};
ghost use Rattle.binhex.specs.OutcomeClauses.{Gives, Says};
ghost use Rattle.binhex.specs.Packing.{bytes_of};
ghost use Rattle.binhex.specs.Text.{symbols_of};

use crate::error::BinHexError;
use crate::expanded::{Expanded, Place};
use crate::fork::Fork;
use crate::packing::bytes;
use crate::parts::{data_fork, refusal, resource_fork};
use crate::text::{numbers, text_of};
use std::alloc::{AllocError, Global};
use std::marker::Model;

/// The forks of a file. Contracts see them by their bytes; kept are the packed ones.
#[derive(Drop)]
pub struct Forks {
    bytes: Expanded,
    data_fork: Place,
    resource_fork: Place,
}

impl Model for Forks {
    ghost use Rattle.binhex.specs.Forks.{ForkBytes, forks_at};
    ghost use Rattle.binhex.specs.inner.Within.{AreForks};

    ghost Value = { ForkBytes };

    ghost view = { λ forks. forks_at forks.bytes };

    ghost invariant = { λ forks. AreForks forks.bytes forks.data_fork forks.resource_fork };
}

impl Forks {
    pub fn data_fork(&self) -> Fork<'_>
        ensures { result ≡ self.now.data_fork }
    {
        Fork::new(&self.bytes, self.data_fork)
    }

    pub fn resource_fork(&self) -> Fork<'_>
        ensures { result ≡ self.now.resource_fork }
    {
        Fork::new(&self.bytes, self.resource_fork)
    }
}

/// Reads a BinHex file.
pub fn read(alloc: Global, file: &[u8]) -> Result<Forks, BinHexError>
    requires { length file.now < 2 ^ 32 }
    ensures { Gives (λ forks. forks) result (forks_of file.now) }
{
    let text = text_of(file)?;
    let packed = packed_bytes(alloc, text)?;
    forks_in(Expanded::new(packed)?)
}

/// The packed bytes in a text.
fn packed_bytes(alloc: Global, text: &[u8]) -> Result<Vec<u8>, AllocError>
    ensures { IfOk result (λ bytes. bytes.items ≡ bytes_of (symbols_of text.now)) }
{
    let symbols = numbers(alloc, text)?;
    bytes(alloc, &symbols)
}

/// The forks in the bytes for which a file stands.
fn forks_in(bytes: Expanded) -> Result<Forks, BinHexError>
    ensures { Says (λ forks. forks) result (forks_within bytes) }
{
    if let Some(error) = refusal(&bytes) {
        return Err(error);
    }
    let data_fork = data_fork(&bytes);
    let resource_fork = resource_fork(&bytes);
    Ok(Forks {
        bytes,
        data_fork,
        resource_fork,
    })
}
