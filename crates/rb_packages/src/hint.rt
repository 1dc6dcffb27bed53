/// The indices where a lookup looks first: that of an application, and that of a bundle there. A
/// wrong hint costs time and changes no answer.
#[derive(Clone, Copy, PartialEq, Eq)]
pub struct BundleHint {
    pub app: usize,
    pub bundle: usize,
}

impl BundleHint {
    /// A hint where no bundle can be.
    pub const NONE: BundleHint = BundleHint {
        app: usize::MAX,
        bundle: usize::MAX,
    };
}
