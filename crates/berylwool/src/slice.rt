use crate::mode::BwMode;

/// A slice of a blob, as C names it: the slice (`start`, `len`) of the blob whose hash in `mode` is `root`.
#[repr(C)]
#[derive(Clone, Copy)]
pub struct BwSlice {
    pub mode: BwMode,
    pub root: [u8; 32],
    pub start: u64,
    pub len: u64,
}
