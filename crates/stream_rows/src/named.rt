// Bytes as the table writes them.
use anyhow::{Context, Result};
use std::alloc::Global;

/// Bytes with names. Those of a name that stands more than once follow one another.
#[derive(Drop)]
pub struct Named {
    parts: Vec<(String, Vec<u8>)>,
}

impl Named {
    pub fn new(alloc: Global) -> Named {
        Named {
            parts: Vec::new(alloc),
        }
    }

    /// Gives bytes a name.
    pub fn name(&mut self, alloc: Global, name: &str, text: &str) -> Result<()> {
        let bytes = self.bytes(alloc, text)?;
        self.parts.push((name.to_string(alloc)?, bytes))?;
        Ok(())
    }

    /// The bytes that a text stands for.
    pub fn bytes(&self, alloc: Global, text: &str) -> Result<Vec<u8>> {
        let mut bytes = Vec::new(alloc);
        for part in text.split_whitespace() {
            match part.split_once('*') {
                Some((byte, count)) => push_again(alloc, &mut bytes, byte, count)?,
                None => self.push_part(alloc, &mut bytes, part)?,
            }
        }
        Ok(bytes)
    }

    // Pushes the bytes of a name, or of hexadecimal digits.
    fn push_part(&self, alloc: Global, bytes: &mut Vec<u8>, text: &str) -> Result<()> {
        let mut is_named = text == "-";
        for (name, part) in self.parts.iter() {
            if name.as_str() == text {
                is_named = true;
                bytes.extend_from_slice(part.as_slice())?;
            }
        }
        if !is_named {
            bytes.extend_from_slice(
                hex::decode(alloc, text)
                    .context("no name and no bytes")?
                    .as_slice(),
            )?;
        }
        Ok(())
    }
}

// Pushes bytes again and again.
fn push_again(alloc: Global, bytes: &mut Vec<u8>, text: &str, count: &str) -> Result<()> {
    let part = hex::decode(alloc, text).context("no bytes before a *")?;
    for _ in 0..count.parse::<u32>().context("no number behind a *")? {
        bytes.extend_from_slice(part.as_slice())?;
    }
    Ok(())
}
