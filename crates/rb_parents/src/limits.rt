/// The maximum number of names in a trail. specs/ repeats it, so that the proofs compare the two.
pub const TRAIL_LIMIT: usize = 32;
