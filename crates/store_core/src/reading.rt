ghost use Rattle.std.specs.Prelude.{◌≡◌, ◌+◌, ◌^◌, ◌<◌, ◌≤◌, length};

use crate::micro::{ReadBytes, Reply};
use crate::store::Store;
use bao_check::GROUP_BYTES;
use std::alloc::{AllocError, Global};

// A read under way: its first position, its length, and the bytes that it has so far.
#[derive(Drop)]
pub(crate) struct Reading {
    at: u64,
    len: u32,
    bytes: Vec<u8>,
    ghost within: { length bytes.items ≤ len },
    ghost fits: { at + length bytes.items < 2 ^ 64 },
}

impl Reading {
    ghost use Rattle.std.specs.Prelude.{◌*◌, ◌/◌, ◌↔◌, nat_le, ◌==◌, ◌||◌, option_map, Some, None, if◌then◌else◌, IfOk, IsTrue};
    ghost use Rattle.store_core.specs.Machine.{is_whole, position, read_of};
    ghost use Rattle.store_core.specs.Schedules.{end_reply};
    ghost use Rattle.store_core.specs.ScheduleRuns.{carried_on, reading_of};
    ghost use Rattle.store_core.specs.States.{read_bytes};
    ghost use Rattle.store_core.specs.Stores.{fixed_of, state_of};

    // The read under way, or one that begins.
    pub(crate) fn begun(alloc: Global, reading: Option<Reading>, at: u64, len: u32) -> Reading
        ensures { reading_of result ≡ read_of (option_map reading_of reading) at len }
    {
        match reading {
            Some(reading) => reading,
            None => Reading {
                at,
                len,
                bytes: Vec::new(alloc),
            },
        }
    }

    // Whether it has this first position and length.
    pub(crate) fn is_of(&self, at: u64, len: u32) -> bool
        ensures { IsTrue result ↔ ((self.now.at ≡ at) × (self.now.len ≡ len)) }
    {
        self.at == at && self.len == len
    }

    // The position where it goes on.
    pub(crate) fn position(&self) -> u64
        ensures { result ≡ position (reading_of self.now) }
    {
        self.at + self.bytes.len() as u64
    }

    // The bytes from position `at` on, at most `len`, up to the first that isn't held.
    fn held_bytes(alloc: Global, store: &Store, at: u64, len: usize) -> Result<Vec<u8>, AllocError>
        ensures value { IfOk result (λ bytes. bytes.items ≡ read_bytes (state_of store.now) at len) }
        ensures within { IfOk result (λ bytes. length bytes.items ≤ len) }
    {
        let mut out = vec![in alloc; 0u8; len]?;
        match store.read(at, out.as_mut_slice()) {
            Ok(()) => Ok(out),
            Err(missing) => {
                out.truncate((missing.0 - at) as usize);
                Ok(out)
            }
        }
    }

    // The read after a load: with the bytes of one group, up to the first that isn't held.
    pub(crate) fn carry_on(self, alloc: Global, store: &Store) -> Result<Reading, AllocError>
        ensures { IfOk result (λ after. reading_of after ≡ carried_on (fixed_of store.now) (state_of store.now) (reading_of self)) }
    {
        let from = self.position();
        if from >= store.byte_capacity() {
            return Ok(self);
        }
        let Reading { at, len, mut bytes } = self;
        let room = u64::from(len) - bytes.len() as u64;
        let count = room.min(GROUP_BYTES - from % GROUP_BYTES) as usize;
        let more = Reading::held_bytes(alloc, store, from, count)?;
        bytes.extend_from_slice(more.as_slice())?;
        Ok(Reading { at, len, bytes })
    }

    // Whether a load from position `from` on was its last: it has all its bytes, or stopped within the group, or reached
    // the end of what the store has room for.
    pub(crate) fn is_over(&self, store: &Store, from: u64) -> bool
        ensures { let r = reading_of self.now in result ≡ (is_whole r || ((position r / 65536 == from / 65536) || nat_le (1024 * (fixed_of store.now).capacity) (position r))) }
    {
        let end = self.position();
        self.bytes.len() == self.len as usize
            || end / GROUP_BYTES == from / GROUP_BYTES
            || end >= store.byte_capacity()
    }

    // What it answers at its end: its bytes if it has all, or else the position that isn't held.
    fn reply(self) -> Reply
        ensures { result ≡ end_reply (reading_of self) }
    {
        if self.bytes.len() == self.len as usize {
            Reply::Bytes(ReadBytes::new(self.bytes))
        } else {
            Reply::NotHeld(self.position())
        }
    }

    // What its load answers, and the read that goes on.
    pub(crate) fn outcome(self, is_last: bool) -> (Option<Reply>, Option<Reading>)
        ensures reply { result.0 ≡ (if is_last then Some (end_reply (reading_of self)) else None) }
        ensures reading { option_map reading_of result.1 ≡ (if is_last then None else Some (reading_of self)) }
    {
        if is_last {
            (Some(self.reply()), None)
        } else {
            (None, Some(self))
        }
    }
}
