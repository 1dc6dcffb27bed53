use rb_handle::BundleHandle;

/// A change in a C program's memory: the locale of a bundle, and the prepared bundle that is to be
/// there, or none if the one with the locale is to be removed.
#[repr(C)]
#[derive(Drop)]
pub struct Edit<'a> {
    pub locale: &'a [u8],
    pub bundle: BundleHandle,
}
