/// The inputs of one compression (BLAKE3 paper, 2.2).
#[derive(Clone, Copy, Debug, PartialEq, Eq)]
pub struct Input {
    /// The input chaining value: 8 words.
    pub h: [u32; 8],
    /// The message block: 16 words.
    pub m: [u32; 16],
    /// The counter: the index of a chunk, or of a block of extended output.
    pub t: u64,
    /// The number of message bytes in the block, 0 to 64.
    pub b: u32,
    /// The flags.
    pub d: u32,
}
