/// The maximum number of bytes in a name. specs/ repeats it, so that the proofs compare the two.
pub const NAME_LIMIT: usize = 64;
