ghost use Rattle.std.specs.Prelude.{◌≡◌, ◌++◌, IfOk, OnOk, codes, string_bytes};
ghost use Rattle.bao_script.specs.Replies.{bytes_text, held_line, length_reply_text, reply_line, reply_text, settling_text};

use std::alloc::{AllocError, Global};
use std::fmt::Write;
use store_core::{Reply, Settling};

fn bytes_text(alloc: Global, bytes: &[u8]) -> Result<String, AllocError>
    ensures { IfOk result (λ text. string_bytes text ≡ bytes_text bytes.now) }
{
    if bytes.is_empty() {
        return String::from_str(alloc, "bytes");
    }
    let digits = hex::encode(alloc, bytes)?;
    format!(in alloc; "bytes {digits}")
}

fn settling_text(answer: Settling) -> &'static str
    ensures { result.now ≡ settling_text answer }
{
    match answer {
        Settling::Settled => "settled",
        Settling::Known => "known",
        Settling::Differs => "differs",
        Settling::OtherRoot => "otherroot",
        Settling::TooLarge => "toolarge",
    }
}

fn length_text(alloc: Global, length: Option<u64>) -> Result<String, AllocError>
    ensures { IfOk result (λ text. string_bytes text ≡ length_reply_text length) }
{
    match length {
        Some(length) => format!(in alloc; "length {length}"),
        None => String::from_str(alloc, "length none"),
    }
}

// The words of a reply.
fn reply_text(alloc: Global, reply: &Reply) -> Result<String, AllocError>
    ensures { IfOk result (λ text. string_bytes text ≡ reply_text reply.now) }
{
    match reply {
        Reply::Granted(mask) => format!(in alloc; "granted {mask}"),
        Reply::Committed(mask) => format!(in alloc; "committed {mask}"),
        Reply::Given(mask) => format!(in alloc; "given {mask}"),
        Reply::Bytes(bytes) => bytes_text(alloc, bytes.as_slice()),
        Reply::NotHeld(position) => format!(in alloc; "missing {position}"),
        Reply::Settling(answer) => String::from_str(alloc, settling_text(*answer)),
        Reply::LengthIs(length) => length_text(alloc, *length),
    }
}

// Adds the line of a reply to the line with this number.
pub fn push_reply(
    alloc: Global,
    out: &mut String,
    number: u64,
    reply: &Reply,
) -> Result<(), AllocError>
    ensures { OnOk result (string_bytes out.new ≡ string_bytes out.old ++ reply_line number reply.now) }
{
    let text = reply_text(alloc, reply)?;
    writeln!(out, "{number} {text}")
}

// Adds the line of how many chunks are held.
pub fn push_held(out: &mut String, count: u64) -> Result<(), AllocError>
    ensures { OnOk result (string_bytes out.new ≡ string_bytes out.old ++ held_line count) }
{
    writeln!(out, "held {count}")
}
