//! Writes the replies of an engine as lines of JSON, and counts their bytes.
#![tactic(auto)]

mod extended;
mod limit;
mod line;
mod reply;

pub use extended::{
    Detail, file_is_above, put_file, put_refusal, put_sizes, put_stored, put_text, put_tree_line,
    sizes_are_above, text_is_above, tree_is_above,
};
pub use limit::{found_is_above, found_len, reply_is_above};
pub use line::ReplyLine;
pub use rb_json::item_text;
pub use reply::{put_error, put_found_line, put_look, put_reply, put_usage};
