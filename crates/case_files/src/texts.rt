use std::alloc::{AllocError, Global};

/// Bytes with a name: a file, or the text of a case.
#[derive(Drop)]
pub struct Named {
    pub name: String,
    pub bytes: Vec<u8>,
}

/// The files, and the texts of the cases that were read.
#[derive(Drop)]
pub struct Texts {
    all: Vec<Named>,
}

/// Adds a string of this text.
pub fn push_string(alloc: Global, all: &mut Vec<String>, text: &str) -> Result<(), AllocError> {
    all.push(String::from_str(alloc, text)?)?;
    Ok(())
}

impl Texts {
    /// No texts.
    pub fn new(alloc: Global) -> Texts {
        Texts {
            all: Vec::new(alloc),
        }
    }

    /// Adds a text.
    pub fn add(&mut self, alloc: Global, name: &str, bytes: &[u8]) -> Result<(), AllocError> {
        let name = String::from_str(alloc, name)?;
        let bytes = Vec::from_slice(alloc, bytes)?;
        self.all.push(Named { name, bytes })?;
        Ok(())
    }

    /// The text of this name.
    pub fn find(&self, name: &str) -> Option<&[u8]> {
        let named = self.all.iter().find(|named| named.name.as_str() == name)?;
        Some(named.bytes.as_slice())
    }
}
