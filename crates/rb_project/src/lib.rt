//! The project that a command runs in: its settings in `resb.toml`, its modules, and the texts in its folders.
#![tactic(auto)]

mod check;
mod fault;
mod first_settings;
mod keys;
mod modules;
mod names;
mod pattern;
mod place;
mod project;
mod settings;
mod sides;
mod texts;
mod walk;

pub use first_settings::init;
pub use modules::{ModuleTexts, Modules};
pub use pattern::matches;
pub use project::{Project, open_project};
pub use settings::Section;
pub use sides::sides_of;
pub use texts::{Text, names_of, root_of, texts_of};
