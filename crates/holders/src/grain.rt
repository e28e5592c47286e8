/// The smallest range that holders are asked for.
#[derive(Clone, Copy, Debug, PartialEq, Eq)]
pub enum Grain {
    /// A group of 64 chunks: a damaged chunk costs a holder's whole group.
    Group,
    /// A chunk: if groups are missing after they were asked for, each of their chunks is asked for separately.
    Chunk,
}
