/// A line of a script. In a mask of a group's chunks, bit j stands for chunk 64 * group + j.
#[derive(Clone, Copy, Debug, PartialEq, Eq)]
pub enum Line {
    /// `claim S G MASK`: seat S claims the mask's chunks of group G.
    Claim {
        seat: u32,
        group: u32,
        want: u64,
    },
    /// `hash S F START LEN`: the slice of LEN bytes from byte START on of file F (from 0) becomes the current
    /// slice of seat S.
    Hash {
        seat: u32,
        file: usize,
        start: u64,
        len: u64,
    },
    /// `write S C W`: seat S writes word W of the cell of chunk C.
    Write {
        seat: u32,
        chunk: u32,
        word: u8,
    },
    /// `fill S C`: seat S writes words 0 to 128 of the cell of chunk C, in order.
    Fill {
        seat: u32,
        chunk: u32,
    },
    /// `publish S G`: seat S commits its chunks of group G.
    Publish {
        seat: u32,
        group: u32,
    },
    /// `give S G MASK`: seat S gives up its claims to the mask's chunks of group G.
    Give {
        seat: u32,
        group: u32,
        mask: u64,
    },
    /// `load S AT LEN`: seat S loads one held word for its read of LEN bytes from offset AT on.
    Load {
        seat: u32,
        at: u64,
        len: u32,
    },
    /// `settle S`: seat S settles the length by its current slice.
    Settle {
        seat: u32,
    },
    /// `length S`: seat S asks for the length.
    Length {
        seat: u32,
    },
}
