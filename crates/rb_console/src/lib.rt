//! Shares among the commands of `resb`, over any runtime, the console, files that are read and
//! written, the bundles that arguments name, errors and statuses, and explicit parents.
#![tactic(auto)]

mod cldr;
mod console;
mod contents;
mod error;
mod files;
mod folders;
mod given;
mod json_text;
mod many;
mod older;
mod output;
mod parents;
mod printing;
mod progress;
mod reading;
mod replacing;
mod shown_bytes;

pub use console::{Cause, Console, Hint, ShownChar, ShownName};
pub use contents::{Refusal, made_of_each};
pub use error::{CommandError, StartError, allocated, ended, finish, not_started_on, started};
pub use files::{cannot_read_on, printed, read_at_most, read_file, refused_on};
pub use folders::{folder_of, in_folder, is_folder, read_names};
pub use given::{Form, Given, all_given, is_text, read_given, stem};
pub use json_text::JsonText;
pub use many::{each, failed};
pub use output::{
    Decision, Output, Wanted, are_same_file, id_of, output_of, resolved, write_output,
};
pub use parents::{bytes_of, parents_of};
pub use printing::{Escapes, EscapingWriter, Printing, print_bytes};
pub use reading::{accepted, read_input_at_most, read_text};
pub use replacing::replace_text;
pub use shown_bytes::ShownBytes;
