/// The maximum number of bundles of an application.
pub const BUNDLE_LIMIT: usize = 4096;
