// The statuses that are no fault of a library, and the faults that functions here name. 0 is success.

/// More than 2^64 - 1 bytes. Number 201.
pub(crate) const TOO_LONG: u32 = 201;

/// Out of memory for an encoding. Number 401.
pub(crate) const TEXT_MEMORY: u32 = 401;

/// A collision: two different inputs with the same chaining value. Number 602.
pub(crate) const COLLISION: u32 = 602;

/// Out of memory for a store. Number 801.
pub(crate) const STORE_MEMORY: u32 = 801;

/// There is no such group. Number 803.
pub(crate) const NO_GROUP: u32 = 803;

/// The outline is of another root or mode than the store. Number 804.
pub(crate) const OTHER_ROOT: u32 = 804;

/// The length is above the capacity, or the store's first chunk isn't the blob's. Number 805.
pub(crate) const TOO_LARGE: u32 = 805;

/// Out of memory for a seat. Number 806.
pub(crate) const SPLIT_MEMORY: u32 = 806;

/// The encoding claims another length than the recorded one, or none is recorded. Number 807.
pub(crate) const OTHER_LENGTH: u32 = 807;

/// Out of memory for a slice. Number 810.
pub(crate) const SERVE_MEMORY: u32 = 810;

/// No length is recorded, or a byte isn't held. Number 901.
pub(crate) const UNFINISHED: u32 = 901;

/// The hash of the bytes isn't the root. Number 902.
pub(crate) const NOT_THE_ROOT: u32 = 902;

/// The caller's buffer is too small. Number 1201.
pub(crate) const ROOM: u32 = 1201;

/// The handle is empty, or of another kind. Number 1202.
pub(crate) const NO_HANDLE: u32 = 1202;

/// Out of memory for what a handle owns. Number 1203.
pub(crate) const NO_MEMORY: u32 = 1203;

/// A byte of the range isn't held. Number 1204.
pub(crate) const MISSING: u32 = 1204;

/// The encoding doesn't have the last chunk of its length. Number 1205.
pub(crate) const NO_TAIL: u32 = 1205;

/// Another length is recorded. Number 1206.
pub(crate) const DIFFERS: u32 = 1206;

/// The context isn't UTF-8. Number 1207.
pub(crate) const NOT_UTF8: u32 = 1207;

/// The output asked for ends above 2^64 - 1. Number 1208.
pub(crate) const PAST_OUTPUT: u32 = 1208;

/// The blob doesn't have so many chunks there. Number 1210.
pub(crate) const NO_CHUNKS: u32 = 1210;

/// The seats' stores differ in root, mode, capacity or first chunk. Number 1211.
pub(crate) const OTHER_STORE: u32 = 1211;

/// A check in pieces has to take the next node first. Number 1212.
pub(crate) const OTHER_SIZE: u32 = 1212;

/// The mode's kind is unknown. Number 1213.
pub(crate) const NO_MODE: u32 = 1213;

/// The plan has no such holder. Number 1214.
pub(crate) const NO_HOLDER: u32 = 1214;

/// No such request is under way. Number 1215.
pub(crate) const NO_REQUEST: u32 = 1215;

/// The bytes aren't a subtree. Number 1216.
pub(crate) const NO_SUBTREE: u32 = 1216;
