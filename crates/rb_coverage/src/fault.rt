use rb_parents::TrailFault;

/// The reasons why the bundles of a module can't be compared.
#[derive(Clone, Copy)]
pub enum CoverageFault {
    /// No bundle is the root's.
    NoRoot,
    /// The bundle at this index has no trail.
    Trail(usize, TrailFault),
    Memory,
}
