use crate::line::{number, short};
use anyhow::{Context, Result, bail};
use b3tree::{Cv, Hash, Mode, cv, hash, parent_input, root_hash, rooted, subtree_cv};
use bao_text::{combined, outboard, slice};
use std::alloc::Global;

// How many bytes of a digest tell bytes apart.
const SHORT: usize = 8;

// The most bytes of zeros, or of a subtree, that a line may ask for.
const MOST_BYTES: u64 = 1 << 20;

// How many bytes these are, and the first bytes of their plain hash.
pub fn told(alloc: Global, bytes: &[u8]) -> Result<String> {
    let count = bytes.len();
    let digits = hex::encode(alloc, &hash(&Mode::hash(), bytes).0[..SHORT])?;
    Ok(format!(in alloc; "{count} bytes {digits}")?)
}

#[derive(Drop)]
struct Text {
    name: String,
    bytes: Vec<u8>,
}

// A blob, its mode, the root that is asked for, and the texts that the lines before have made.
#[derive(Drop)]
pub struct Texts {
    pub mode: Mode,
    pub root: Hash,
    blob: Vec<u8>,
    texts: Vec<Text>,
}

// The bytes i mod 251.
fn counted(alloc: Global, len: u64) -> Result<Vec<u8>> {
    let mut bytes = Vec::new(alloc);
    for i in 0..len {
        bytes.push((i % 251) as u8)?;
    }
    Ok(bytes)
}

// The chaining value that the text's first 32 bytes from a place on are.
fn value_at(text: &[u8], at: usize) -> Result<Cv> {
    let part = text.get(at..at.saturating_add(32)).context("a value")?;
    if part.len() != 32 {
        bail!("a value");
    }
    Ok(Cv::from_bytes(part))
}

// The chaining value of the bytes as the subtree whose first chunk has this number.
fn value_of(mode: &Mode, first: u32, bytes: &[u8]) -> Result<Cv> {
    if bytes.len() > MOST_BYTES as usize {
        bail!("fewer bytes");
    }
    Ok(subtree_cv(mode, u64::from(first), bytes))
}

// The chaining value of the parent with the two values that the text begins with.
fn parent_of(mode: &Mode, text: &[u8]) -> Result<Cv> {
    let input = parent_input(mode, &value_at(text, 0)?, &value_at(text, 32)?);
    Ok(Cv(cv(&input)))
}

impl Texts {
    pub fn new(alloc: Global) -> Texts {
        Texts {
            mode: Mode::hash(),
            root: Hash([0; 32]),
            blob: Vec::new(alloc),
            texts: Vec::new(alloc),
        }
    }

    pub fn get(&self, name: &str) -> Result<&[u8]> {
        let found = self.texts.iter().find(|it| it.name.as_str() == name);
        Ok(found.context("a text")?.bytes.as_slice())
    }

    // Sets the blob, whose hash is then the root.
    pub fn set(&mut self, alloc: Global, blob: u64) -> Result<()> {
        self.blob = counted(alloc, blob)?;
        self.root = hash(&self.mode, self.blob.as_slice());
        Ok(())
    }

    // The root that the parent with these two values has.
    pub fn top(&mut self, name: &str) -> Result<()> {
        let text = self.get(name)?;
        let (left, right) = (value_at(text, 0)?, value_at(text, 32)?);
        self.root = root_hash(&rooted(&parent_input(&self.mode, &left, &right)));
        Ok(())
    }

    // The bytes of these texts, one after another.
    fn joined(&self, alloc: Global, names: &[&str]) -> Result<Vec<u8>> {
        let mut bytes = Vec::new(alloc);
        for name in names {
            bytes.extend_from_slice(self.get(name)?)?;
        }
        Ok(bytes)
    }

    // The bytes of a text that is made so.
    fn made(&self, alloc: Global, name: &str, given: &[&str]) -> Result<Vec<u8>> {
        let (mode, blob) = (&self.mode, self.blob.as_slice());
        Ok(match (name, given) {
            ("combined", []) => combined(alloc, mode, blob)?.1,
            ("outboard", []) => outboard(alloc, mode, blob)?.1,
            ("slice", [start, len]) => slice(alloc, mode, blob, number(start)?, number(len)?)?.1,
            ("copy", []) => blob.to_vec(alloc)?,
            ("value", [chunk]) => {
                let value = value_of(mode, short(chunk)?, blob)?;
                value.to_bytes().as_slice().to_vec(alloc)?
            }
            ("parent", [pair]) => {
                let value = parent_of(mode, self.get(pair)?)?;
                value.to_bytes().as_slice().to_vec(alloc)?
            }
            ("zeros", [count]) => vec![in alloc; 0u8; number(count)?.min(MOST_BYTES) as usize]?,
            ("length", [length]) => number(length)?.to_le_bytes().as_slice().to_vec(alloc)?,
            ("joined", names) => self.joined(alloc, names)?,
            _ => bail!("a command"),
        })
    }

    // Changes the bytes of a text.
    fn change(alloc: Global, name: &str, word: &str, bytes: &mut Vec<u8>) -> Result<bool> {
        match name {
            "keep" => bytes.truncate(number(word)? as usize),
            "drop" => {
                let rest = bytes
                    .as_slice()
                    .get(number(word)? as usize..)
                    .context("a rest")?;
                *bytes = rest.to_vec(alloc)?;
            }
            "flip" => {
                let byte = bytes.as_mut_slice().get_mut(number(word)? as usize);
                *byte.context("a byte")? ^= 1;
            }
            "append" => bytes.extend_from_slice(hex::decode(alloc, word)?.as_slice())?,
            "claim" => bytes
                .as_mut_slice()
                .get_mut(..8)
                .context("a length")?
                .copy_from_slice(&number(word)?.to_le_bytes()),
            _ => return Ok(false),
        }
        Ok(true)
    }

    // Changes a text that is there, and tells it, where the name is of a change.
    fn changed(
        &mut self,
        alloc: Global,
        name: &str,
        called: &str,
        given: &[&str],
    ) -> Result<Option<String>> {
        let [word] = given else {
            return Ok(None);
        };
        let found = self.texts.iter_mut().find(|it| it.name.as_str() == called);
        let Some(text) = found else {
            return Ok(None);
        };
        if Texts::change(alloc, name, word, &mut text.bytes)? {
            Ok(Some(told(alloc, text.bytes.as_slice())?))
        } else {
            Ok(None)
        }
    }

    // Keeps a text in the place of one with its name.
    fn keep(&mut self, alloc: Global, called: &str, bytes: Vec<u8>) -> Result<()> {
        self.texts.retain(|it| it.name.as_str() != called);
        let name = String::from_str(alloc, called)?;
        self.texts.push(Text { name, bytes })?;
        Ok(())
    }

    // A new text, which is told.
    fn renew(&mut self, alloc: Global, name: &str, called: &str, given: &[&str]) -> Result<String> {
        let bytes = self.made(alloc, name, given)?;
        let said = told(alloc, bytes.as_slice())?;
        self.keep(alloc, called, bytes)?;
        Ok(said)
    }

    // Makes or changes a text, and tells it.
    pub fn make(&mut self, alloc: Global, name: &str, words: &[&str]) -> Result<String> {
        let (called, given) = words.split_first().context("a name")?;
        match self.changed(alloc, name, called, given)? {
            Some(said) => Ok(said),
            None => self.renew(alloc, name, called, given),
        }
    }
}
