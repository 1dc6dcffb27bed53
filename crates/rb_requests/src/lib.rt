//! Requests and replies by the line: reads a line as a request, writes the line that answers it,
//! and loops over an input. Exports the public items of rb_engine too.
#![tactic(auto)]

mod ahead;
mod answer;
mod ask;
mod bounded_buffer;
mod change_list;
mod changes;
mod device;
mod export;
mod extended;
mod extended_ask;
mod extended_texts;
mod judged;
pub mod laws;
mod limits;
mod lines;
mod long_line;
mod lookups;
mod member;
mod member_store;
mod number;
mod protocol;
mod reading;
mod release;
mod stream;
mod texts;
mod tree_reply;
mod words;

pub use ask::LineRequest;
pub use changes::{handle, put};
pub use device::{Failed, Feed, ReadFeed, Run, Sink, WriteSink};
pub use limits::{LINE_LIMIT, Limited, Limits, Refusal};
pub use lines::{ServeFault, Served, serve, serve_extended, serve_limited};
pub use lookups::look;
pub use rb_engine::{
    App, AppFault, BUNDLE_LIMIT, BundleSource, Change, Engine, LookFault, NameList, Payload, Reply,
    Request, StartFault,
};
pub use rb_replies::item_text;
