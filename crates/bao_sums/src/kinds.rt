/// What a file says of itself.
#[derive(Clone, Copy, Debug, PartialEq, Eq)]
pub struct Seen {
    /// How many bytes it has.
    pub size: u64,
    /// The length that its first eight bytes claim, if it has as many, as those of an encoding do.
    pub claim: Option<u64>,
}
