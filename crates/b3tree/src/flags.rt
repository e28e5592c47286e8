// The flags of a compression (BLAKE3 paper, 2.2, Table 3).

pub(crate) const CHUNK_START: u32 = 1;

pub(crate) const CHUNK_END: u32 = 2;

pub(crate) const PARENT: u32 = 4;

pub(crate) const ROOT: u32 = 8;

pub(crate) const KEYED_HASH: u32 = 16;

pub(crate) const DERIVE_KEY_CONTEXT: u32 = 32;

pub(crate) const DERIVE_KEY_MATERIAL: u32 = 64;
