//! Values that rows have named.

ghost use Rattle.std.specs.Prelude.{◌≡◌};

use crate::errors::RowError;
use crate::row::Row;
use std::alloc::Global;

/// A thing and its name.
#[derive(Drop)]
struct Entry<T: Drop> {
    name: String,
    thing: T,
}

/// Values by their names.
#[derive(Drop)]
pub struct Named<T: Drop> {
    entries: Vec<Entry<T>>,
}

impl<T: Drop> Named<T> {
    /// Creates an empty list of names.
    pub fn new(alloc: Global) -> Self {
        Named {
            entries: Vec::new(alloc),
        }
    }

    /// Returns the value of a name, the last one if several values have it.
    pub fn get(&self, name: &str) -> Result<&T, RowError> {
        let mut found = Err(RowError::Name);
        for entry in self.entries.as_slice() {
            if entry.name.as_str() == name {
                found = Ok(&entry.thing);
            }
        }
        found
    }

    /// Returns the value whose name is the next field.
    pub fn next(&self, row: &mut Row) -> Result<&T, RowError> {
        self.get(row.word()?)
    }

    /// Adds a named value.
    pub fn put(&mut self, alloc: Global, name: &str, thing: T) -> Result<(), RowError> {
        let name = String::from_str(alloc, name)?;
        self.entries.push(Entry { name, thing })?;
        Ok(())
    }
}
