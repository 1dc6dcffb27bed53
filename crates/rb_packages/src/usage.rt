/// The files that an application stores, in total.
#[derive(Clone, Copy, PartialEq, Eq)]
pub struct Usage {
    /// The total length of its bundles' files, saturating.
    pub bytes: u64,
    pub bundles: u64,
}

impl Usage {
    pub(crate) const NONE: Usage = Usage {
        bytes: 0,
        bundles: 0,
    };
}
