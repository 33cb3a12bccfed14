use crate::error::LookError;
use look_text::Piece;
use mix_bits::NoMemory;
use std::alloc::Global;
use std::collections::BTreeMap;
use std::io::BufRead;

/// Names of routines by their addresses, as `nm` lists them.
#[derive(Drop)]
pub struct Names {
    list: BTreeMap<u32, String>,
}

impl Names {
    /// No names.
    pub fn new(alloc: Global) -> Names {
        Names {
            list: BTreeMap::new(alloc),
        }
    }

    /// The names in `nm`'s output: `ADDRESS KIND NAME`. Other lines are passed over, and of several names of an address
    /// the first counts.
    pub fn read<R: BufRead + Drop>(alloc: Global, reader: R) -> Result<Names, LookError> {
        let mut names = Names::new(alloc);
        for line in reader.lines(alloc) {
            match line {
                Ok(line) => names.add_line(alloc, line.as_str())?,
                Err(error) => return Err(LookError::of_read(error)),
            }
        }
        Ok(names)
    }

    fn add_line(&mut self, alloc: Global, line: &str) -> Result<(), NoMemory> {
        let mut words = line.split_whitespace();
        match (words.next(), words.next(), words.next()) {
            (Some(address), Some(_kind), Some(name)) => self.add(alloc, address, name),
            _ => Ok(()),
        }
    }

    /// Adds the name of an address in hexadecimal digits, if it has 32 bits and no name yet.
    fn add(&mut self, alloc: Global, address: &str, name: &str) -> Result<(), NoMemory> {
        let Ok(address) = u32::from_str_radix(address, 16) else {
            return Ok(());
        };
        if !self.list.contains_key(&address) {
            self.list.insert(address, String::from_str(alloc, name)?)?;
        }
        Ok(())
    }

    /// The name of an address, else its eight hexadecimal digits.
    pub fn name(&self, address: u32) -> Piece {
        match self.list.get(&address) {
            Some(name) => Piece::Text(name.as_str()),
            None => Piece::Long(address),
        }
    }
}
