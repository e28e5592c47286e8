use crate::changes::{change, flip};
use crate::faults::faults;
use crate::held::{Held, audited, piece_of};
use crate::line::{digest, mode, one, three, two};
use crate::source::{Dealing, read};
use crate::verdict::{Form, verdict, verdict_until};
use crate::writing::written;
use anyhow::{Context, Result, bail};
use b3tree::{CHUNK_LEN, Hash, Hasher, Mode, hash, xof, xof_fits};
use bao_bind::{Verdict, audit};
use bao_check::{Checked, bare_fits, check_bare, check_outboard};
use bao_text::{Node, Nodes, combined, cut_slice, encoded_len, outboard, outboard_len, slice};
use std::alloc::Global;
use std::io::ErrorKind;
use std::thread::Threads;

// How many bytes of a digest tell texts apart.
const SHORT: usize = 8;

// The most bytes of output that a line may ask for.
const MOST_OUTPUT: u64 = 1 << 16;

// What the lines before have made.
#[derive(Drop)]
pub struct Scene {
    mode: Mode,
    blob: Vec<u8>,
    text: Vec<u8>,
    outline: Vec<u8>,
    root: Hash,
    form: Form,
    // The pieces that are audited together.
    held: Vec<Held>,
}

// How many bytes these are, and the first bytes of their plain hash.
fn told(alloc: Global, bytes: &[u8]) -> Result<String> {
    let count = bytes.len();
    let digits = hex::encode(alloc, &hash(&Mode::hash(), bytes).0[..SHORT])?;
    Ok(format!(in alloc; "{count} bytes {digits}")?)
}

// The same of bytes that may not be there.
fn told_if(alloc: Global, bytes: Option<&[u8]>) -> Result<String> {
    match bytes {
        Some(bytes) => told(alloc, bytes),
        None => Ok(String::from_str(alloc, "none")?),
    }
}

// The bytes i mod 251.
fn counted(alloc: Global, len: u64) -> Result<Vec<u8>> {
    let mut bytes = Vec::new(alloc);
    for i in 0..len {
        bytes.push((i % 251) as u8)?;
    }
    Ok(bytes)
}

impl Scene {
    pub fn new(alloc: Global) -> Scene {
        Scene {
            mode: Mode::hash(),
            blob: Vec::new(alloc),
            text: Vec::new(alloc),
            outline: Vec::new(alloc),
            root: Hash([0; 32]),
            form: Form::Combined,
            held: Vec::new(alloc),
        }
    }

    // Does what a line says, and answers the reply, a line or several.
    pub fn reply<R: Threads + Sync>(
        &mut self,
        rt: &R,
        alloc: Global,
        line: &str,
    ) -> Result<String> {
        if line.is_empty() || line.starts_with('#') {
            return Ok(String::new(alloc));
        }
        let (name, words) = line.split_once(' ').unwrap_or((line, ""));
        if change(alloc, name, words, &mut self.text)? {
            return told(alloc, self.text.as_slice());
        }
        match name {
            "mode" | "blob" | "bytes" | "root" | "outline" => self.set(alloc, name, words),
            "combined" | "outboard" | "slice" => self.make(alloc, name, words),
            "cut" | "part" => self.take(alloc, name, words),
            "hash" | "pieces" | "output" | "sizes" => self.figures(alloc, name, words),
            "check" | "cuts" | "flips" => self.check(alloc, name, words),
            "fails" => self.fails(alloc),
            "write" => self.write(alloc, words),
            "source" => self.source(rt, alloc, words),
            "faults" => faults(alloc),
            "leaf" => self.leaf(alloc, words),
            "nodes" if !words.is_empty() => self.nodes(alloc, words),
            "chunk" | "parent" | "parents" | "nodes" | "audit" => self.ask(alloc, name, words),
            "hold" | "release" | "audit_all" => self.hold(alloc, name),
            _ => bail!("a command"),
        }
    }

    fn set(&mut self, alloc: Global, name: &str, words: &str) -> Result<String> {
        match name {
            "mode" => self.mode = mode(words)?,
            "blob" => self.blob = counted(alloc, one(alloc, words)?)?,
            "bytes" => self.blob = hex::decode(alloc, words)?,
            "outline" => self.outline = self.text.clone()?,
            _ if words == "blob" => self.root = hash(&self.mode, self.blob.as_slice()),
            _ => self.root = Hash(digest(words)?),
        }
        Ok(String::new(alloc))
    }

    // Makes a text of the blob, whose hash is then the root.
    fn make(&mut self, alloc: Global, name: &str, words: &str) -> Result<String> {
        let blob = self.blob.as_slice();
        let (root, text) = match name {
            "combined" => combined(alloc, &self.mode, blob)?,
            "outboard" => outboard(alloc, &self.mode, blob)?,
            _ => {
                let (start, len) = two(alloc, words)?;
                slice(alloc, &self.mode, blob, start, len)?
            }
        };
        self.root = root;
        self.text = text;
        let digits = hex::encode(alloc, self.root.0)?;
        let said = told(alloc, self.text.as_slice())?;
        Ok(format!(in alloc; "{digits}\n{said}")?)
    }

    // Cuts a slice out of the text, or takes chunks of the blob as they are.
    fn take(&mut self, alloc: Global, name: &str, words: &str) -> Result<String> {
        let (start, len) = two(alloc, words)?;
        if name == "cut" {
            self.text = cut_slice(alloc, self.text.as_slice(), start, len)?;
        } else {
            let size = CHUNK_LEN as u64;
            let blob = self.blob.as_slice();
            let first = start.saturating_mul(size).min(blob.len() as u64) as usize;
            let count = len.saturating_mul(size).min((blob.len() - first) as u64) as usize;
            self.text = blob[first..first + count].to_vec(alloc)?;
        }
        told(alloc, self.text.as_slice())
    }

    fn figures(&self, alloc: Global, name: &str, words: &str) -> Result<String> {
        match name {
            "hash" => Ok(hex::encode(alloc, hash(&self.mode, self.blob.as_slice()).0)?),
            "pieces" => {
                let size = one(alloc, words)?.clamp(1, 1 << 20) as usize;
                let mut hasher = Hasher::new(&self.mode);
                for piece in self.blob.as_slice().chunks(size) {
                    hasher.update(piece)?;
                }
                Ok(hex::encode(alloc, hasher.finalize().0)?)
            }
            "output" => {
                let (at, len) = two(alloc, words)?;
                if len > MOST_OUTPUT || !xof_fits(at, len) {
                    bail!("a range of output");
                }
                let mut output = vec![in alloc; 0u8; len as usize]?;
                xof(&self.mode, self.blob.as_slice(), at, output.as_mut_slice());
                Ok(hex::encode(alloc, output.as_slice())?)
            }
            _ => {
                let len = one(alloc, words)?;
                let (whole, without) = (encoded_len(len), outboard_len(len));
                Ok(format!(in alloc; "combined {whole}, outboard {without}")?)
            }
        }
    }

    // The nodes of a slice of a blob of so many bytes.
    fn nodes(&self, alloc: Global, words: &str) -> Result<String> {
        let (length, start, len) = three(alloc, words)?;
        listed(alloc, bao_text::nodes(length, start, len))
    }

    fn check(&mut self, alloc: Global, name: &str, words: &str) -> Result<String> {
        match name {
            "check" => {
                self.form = Form::read(alloc, words)?;
                self.verdict_of(alloc, self.text.as_slice())
            }
            "cuts" => self.cuts(alloc),
            _ => self.flips(alloc),
        }
    }

    fn verdict_of(&self, alloc: Global, text: &[u8]) -> Result<String> {
        let outline = self.outline.as_slice();
        verdict(alloc, &self.mode, &self.root, self.form, outline, text)
    }

    // The verdicts on the text cut after each number of bytes.
    fn cuts(&self, alloc: Global) -> Result<String> {
        let mut runs = Runs::new(alloc);
        let text = self.text.as_slice();
        for len in 0..text.len() {
            runs.add(self.verdict_of(alloc, &text[..len])?)?;
        }
        runs.end()
    }

    // The verdicts on the text with the lowest bit of each byte changed.
    fn flips(&self, alloc: Global) -> Result<String> {
        let mut runs = Runs::new(alloc);
        let mut text = self.text.clone()?;
        for at in 0..text.len() {
            flip(text.as_mut_slice(), at)?;
            runs.add(self.verdict_of(alloc, text.as_slice())?)?;
            flip(text.as_mut_slice(), at)?;
        }
        runs.end()
    }

    // The verdicts on the text through a reader that fails after each number of bytes, by each of two faults.
    fn fails(&self, alloc: Global) -> Result<String> {
        let mut runs = Runs::new(alloc);
        let text = self.text.as_slice();
        let (mode, root) = (&self.mode, &self.root);
        for kind in [ErrorKind::TimedOut, ErrorKind::Interrupted] {
            for until in 0..text.len() {
                runs.add(verdict_until(alloc, mode, root, self.form, text, until, kind)?)?;
            }
        }
        runs.end()
    }

    // Writes the blob's combined encoding, so many bytes a call, to a writer that fails by each of three faults after so many
    // bytes.
    fn write(&self, alloc: Global, words: &str) -> Result<String> {
        let (most, full) = two(alloc, words)?;
        let (blob, most) = (self.blob.as_slice(), most as usize);
        let mut said = String::new(alloc);
        for end in [
            Some(ErrorKind::BrokenPipe),
            Some(ErrorKind::Interrupted),
            None,
        ] {
            let (reply, held) = written(alloc, &self.mode, blob, most, full as usize, end)?;
            let bytes = told(alloc, held.as_slice())?;
            write!(said, "{reply}: {bytes}\n")?;
        }
        Ok(said)
    }

    // The blob read by position, by so many threads, so many bytes a call, from a source that fails from a place on and is said to
    // have so many bytes.
    fn source<R: Threads + Sync>(&self, rt: &R, alloc: Global, words: &str) -> Result<String> {
        let (workers, rest) = words.split_once(' ').context("threads")?;
        let (most, fails, size) = three(alloc, rest)?;
        let source = Dealing {
            bytes: self.blob.as_slice(),
            most: most as usize,
            fails,
        };
        let workers = one(alloc, workers)? as usize;
        let mut said = String::new(alloc);
        for (reply, text) in read(rt, alloc, &self.mode, &source, size, workers)? {
            let bytes = told(alloc, text.as_slice())?;
            write!(said, "{reply}: {bytes}\n")?;
        }
        Ok(said)
    }

    // The piece that the text was checked as.
    fn piece(&self, alloc: Global) -> Result<Checked<'_>> {
        piece_of(
            alloc,
            &self.mode,
            &self.root,
            self.form,
            self.text.as_slice(),
        )
    }

    // Holds that piece beside those before, or none any more; or audits all that are held against the blob.
    fn hold(&mut self, alloc: Global, name: &str) -> Result<String> {
        match name {
            "hold" => {
                let text = self.text.clone()?;
                self.held
                    .push(Held::new(self.mode, self.root, self.form, text))?;
            }
            "release" => self.held.clear(),
            _ => return audited(alloc, self.blob.as_slice(), self.held.as_slice()),
        }
        Ok(String::new(alloc))
    }

    fn leaf(&self, alloc: Global, words: &str) -> Result<String> {
        let text = self.text.as_slice();
        let outline = check_outboard(alloc, &self.mode, &self.root, text)?;
        match outline.leaf(one(alloc, words)?) {
            Some(value) => Ok(hex::encode(alloc, value.to_bytes())?),
            None => Ok(String::from_str(alloc, "none")?),
        }
    }

    fn ask(&self, alloc: Global, name: &str, words: &str) -> Result<String> {
        let blob = self.blob.as_slice();
        let Form::Bare { first, count } = self.form else {
            return asked(alloc, blob, &self.piece(alloc)?, name, words);
        };
        let outline = check_outboard(alloc, &self.mode, &self.root, self.outline.as_slice())?;
        if !bare_fits(&outline, first, count) {
            bail!("chunks of the outline");
        }
        let piece = check_bare(&outline, first, count, self.text.as_slice())?;
        asked(alloc, blob, &piece, name, words)
    }
}

// What a piece says of a chunk or of parents, or of the blob.
fn asked(
    alloc: Global,
    blob: &[u8],
    piece: &Checked<'_>,
    name: &str,
    words: &str,
) -> Result<String> {
    match name {
        "chunk" => told_if(alloc, piece.chunk(one(alloc, words)?)),
        "parent" => told_if(alloc, piece.parent(one(alloc, words)?)),
        "parents" => parents(alloc, piece, one(alloc, words)?),
        "nodes" => listed(alloc, piece.nodes()),
        _ => match audit(blob, piece) {
            Ok(Verdict::Agrees) => Ok(String::from_str(alloc, "agrees")?),
            Ok(Verdict::Collision { .. }) => Ok(String::from_str(alloc, "collision")?),
            Err(fault) => Ok(format!(in alloc; "{fault}")?),
        },
    }
}

// Nodes, a line each, and how many they are.
fn listed(alloc: Global, nodes: Nodes) -> Result<String> {
    let mut said = String::new(alloc);
    let mut count = 0u64;
    for node in nodes {
        match node {
            Node::Parent(m) => write!(said, "parent {m}\n")?,
            Node::Chunk(number) => write!(said, "chunk {number}\n")?,
        }
        count = count.saturating_add(1);
    }
    write!(said, "{count} nodes\n")?;
    Ok(said)
}

// The parents of the piece whose right parts begin before chunk `end`.
fn parents(alloc: Global, piece: &Checked<'_>, end: u64) -> Result<String> {
    let mut said = String::new(alloc);
    for m in 0..end {
        if let Some(bytes) = piece.parent(m) {
            let told = told(alloc, bytes)?;
            write!(said, "{m}: {told}\n")?;
        }
    }
    if said.is_empty() {
        return told_if(alloc, None);
    }
    Ok(said)
}

// Replies, of which equal ones that follow one another are told once.
#[derive(Drop)]
struct Runs {
    said: String,
    last: Option<String>,
    first: u64,
    count: u64,
}

impl Runs {
    fn new(alloc: Global) -> Runs {
        Runs {
            said: String::new(alloc),
            last: None,
            first: 0,
            count: 0,
        }
    }

    fn add(&mut self, reply: String) -> Result<()> {
        let is_same = match &self.last {
            Some(last) => last.as_str() == reply.as_str(),
            None => false,
        };
        if !is_same {
            self.tell()?;
            self.first = self.count;
            self.last = Some(reply);
        }
        self.count = self.count.saturating_add(1);
        Ok(())
    }

    fn tell(&mut self) -> Result<()> {
        if let Some(last) = &self.last {
            let (first, after) = (self.first, self.count.saturating_sub(1));
            write!(self.said, "{first} to {after}: {last}\n")?;
        }
        Ok(())
    }

    fn end(mut self) -> Result<String> {
        self.tell()?;
        let Runs {
            said,
            last: _,
            first: _,
            count: _,
        } = self;
        Ok(said)
    }
}
