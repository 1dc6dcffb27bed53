use rb_packages::AppShelf;
use rb_parents::Parents;

/// The bundles that an application's lookups read: its own and those of ICUDATA, with the explicit
/// parents.
#[derive(Clone, Copy)]
pub struct AppShelves<'a> {
    pub own: AppShelf<'a>,
    pub icudata: AppShelf<'a>,
    pub parents: &'a Parents,
}
