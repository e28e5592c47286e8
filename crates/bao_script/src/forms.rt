ghost use Rattle.std.specs.Prelude.{map, codes, IfOk, IsTrue, ◌↔◌};
ghost use Rattle.bao_script.specs.Forms.{IsLine, IsReading, NamesFile};
ghost use Rattle.bao_script.specs.Words.{line_words};

use crate::line::Line;
use crate::words::{number_8, number_32, number_64, split_words};
use std::alloc::{AllocError, Global};

fn claim(words: &[&str]) -> Option<Line>
    ensures { IsReading (codes "claim") (map (λ word. word.now) words.now) result }
{
    let [seat, group, want] = words else {
        return None;
    };
    Some(Line::Claim {
        seat: number_32(seat)?,
        group: number_32(group)?,
        want: number_64(want)?,
    })
}

fn hash(words: &[&str]) -> Option<Line>
    ensures { IsReading (codes "hash") (map (λ word. word.now) words.now) result }
{
    let [seat, file, start, len] = words else {
        return None;
    };
    Some(Line::Hash {
        seat: number_32(seat)?,
        file: number_64(file)? as usize,
        start: number_64(start)?,
        len: number_64(len)?,
    })
}

fn write(words: &[&str]) -> Option<Line>
    ensures { IsReading (codes "write") (map (λ word. word.now) words.now) result }
{
    let [seat, chunk, word] = words else {
        return None;
    };
    Some(Line::Write {
        seat: number_32(seat)?,
        chunk: number_32(chunk)?,
        word: number_8(word)?,
    })
}

fn fill(words: &[&str]) -> Option<Line>
    ensures { IsReading (codes "fill") (map (λ word. word.now) words.now) result }
{
    let [seat, chunk] = words else {
        return None;
    };
    Some(Line::Fill {
        seat: number_32(seat)?,
        chunk: number_32(chunk)?,
    })
}

fn publish(words: &[&str]) -> Option<Line>
    ensures { IsReading (codes "publish") (map (λ word. word.now) words.now) result }
{
    let [seat, group] = words else {
        return None;
    };
    Some(Line::Publish {
        seat: number_32(seat)?,
        group: number_32(group)?,
    })
}

fn give(words: &[&str]) -> Option<Line>
    ensures { IsReading (codes "give") (map (λ word. word.now) words.now) result }
{
    let [seat, group, mask] = words else {
        return None;
    };
    Some(Line::Give {
        seat: number_32(seat)?,
        group: number_32(group)?,
        mask: number_64(mask)?,
    })
}

fn load(words: &[&str]) -> Option<Line>
    ensures { IsReading (codes "load") (map (λ word. word.now) words.now) result }
{
    let [seat, at, len] = words else {
        return None;
    };
    Some(Line::Load {
        seat: number_32(seat)?,
        at: number_64(at)?,
        len: number_32(len)?,
    })
}

fn settle(words: &[&str]) -> Option<Line>
    ensures { IsReading (codes "settle") (map (λ word. word.now) words.now) result }
{
    let [seat] = words else {
        return None;
    };
    Some(Line::Settle {
        seat: number_32(seat)?,
    })
}

fn length(words: &[&str]) -> Option<Line>
    ensures { IsReading (codes "length") (map (λ word. word.now) words.now) result }
{
    let [seat] = words else {
        return None;
    };
    Some(Line::Length {
        seat: number_32(seat)?,
    })
}

// The line of this name with the numbers that the words write.
fn form(name: &str, words: &[&str]) -> Option<Line>
    ensures { IsReading name.now (map (λ word. word.now) words.now) result }
{
    match name {
        "claim" => claim(words),
        "hash" => hash(words),
        "write" => write(words),
        "fill" => fill(words),
        "publish" => publish(words),
        "give" => give(words),
        "load" => load(words),
        "settle" => settle(words),
        "length" => length(words),
        _ => None,
    }
}

// Whether the line names one of so many files, if it names one.
fn names_file(line: &Line, files: usize) -> bool
    ensures { IsTrue result ↔ NamesFile files line.now }
{
    match *line {
        Line::Hash { file, .. } => file < files,
        _ => true,
    }
}

// What the words of a line say.
fn line_of(words: &[&str], files: usize) -> Option<Line>
    ensures { IsLine files (map (λ word. word.now) words.now) result }
{
    let (name, numbers) = words.split_first()?;
    let line = form(name, numbers)?;
    if names_file(&line, files) {
        Some(line)
    } else {
        None
    }
}

// What a line says, where it has a form.
pub fn read_line(alloc: Global, line: &[u8], files: usize) -> Result<Option<Line>, AllocError>
    ensures { IfOk result (IsLine files (line_words line.now)) }
{
    let Ok(text) = str::from_utf8(line) else {
        return Ok(None);
    };
    let words = split_words(alloc, text)?;
    Ok(line_of(words.as_slice(), files))
}
