use rb_messages::Categories;

/// The plural categories of a text's language, if it is known.
#[derive(Clone, Copy)]
pub(crate) struct Language {
    pub(crate) cardinal: Option<Categories>,
    pub(crate) ordinal: Option<Categories>,
}

impl Language {
    /// Returns the language of a locale. The root's texts are in no known language.
    pub(crate) fn of(locale: &[u8]) -> Language {
        match str::from_utf8(locale) {
            Ok(name) if name != "root" => Language {
                cardinal: Categories::cardinal(name),
                ordinal: Categories::ordinal(name),
            },
            _ => Language::unknown(),
        }
    }

    pub(crate) fn unknown() -> Language {
        Language {
            cardinal: None,
            ordinal: None,
        }
    }
}
