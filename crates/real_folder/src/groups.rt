use crate::seen::{Inode, Seen};
use std::alloc::{AllocError, Global};
use std::collections::BTreeMap;

/// Which number each file with several names has, from 1 up, for as long as it is kept.
#[derive(Drop)]
pub(crate) struct Groups {
    numbers: BTreeMap<Inode, u32>,
}

impl Groups {
    pub(crate) fn new(alloc: Global) -> Groups {
        Groups {
            numbers: BTreeMap::new(alloc),
        }
    }

    /// The number of a file: that which it had, else the next one. 0 for a file with one name, and where all numbers are given.
    pub(crate) fn number_of(&mut self, file: &Seen) -> Result<u32, AllocError> {
        if file.names < 2 {
            return Ok(0);
        }
        if let Some(number) = self.numbers.get(&file.inode) {
            return Ok(*number);
        }
        let Ok(next) = u32::try_from(self.numbers.len().saturating_add(1)) else {
            return Ok(0);
        };
        self.numbers.insert(file.inode, next)?;
        Ok(next)
    }
}
