ghost use Rattle.std.specs.Prelude.{◌≡◌};
ghost use Rattle.rb_requests.specs.Words.{refusal_word};

use rb_tree::variant_name;

/// The most bytes of a line, without its line feed.
pub const LINE_LIMIT: usize = 268_435_456;

/// The limits under which lines are served; `None` means no limit.
#[derive(Clone, Copy, PartialEq, Eq)]
pub struct Limits {
    /// The most bytes of one bundle's file, and of a payload before it is read.
    pub bundle_bytes: Option<u64>,
    /// The most bytes of all files of an application.
    pub app_bytes: Option<u64>,
    /// The most applications with bundles; all applications share this limit.
    pub apps: Option<u64>,
    /// The most steps of a lookup.
    pub steps: Option<u64>,
    /// The bytes of a line; a longer one is skipped. Values above `LINE_LIMIT` count as that.
    pub line_bytes: Option<u64>,
    /// The bytes of the line of a found item or of names, with its line feed.
    pub reply_bytes: Option<u64>,
    /// The server continues if memory runs out for a line that has changed nothing.
    pub keep_serving: bool,
}

impl Limits {
    /// No limits.
    pub const NONE: Limits = Limits {
        bundle_bytes: None,
        app_bytes: None,
        apps: None,
        steps: None,
        line_bytes: None,
        reply_bytes: None,
        keep_serving: false,
    };
}

/// The limit that rejects a call.
#[derive(Clone, Copy, Debug, PartialEq, Eq)]
pub enum Refusal {
    BundleTooLong,
    OverQuota,
    TooManyApps,
    TooManySteps,
}

impl Refusal {
    /// Returns the code, which is the variant's name.
    pub fn word(self) -> &'static str
        ensures { result.now ≡ refusal_word self }
    {
        variant_name!(self: Refusal { BundleTooLong, OverQuota, TooManyApps, TooManySteps })
    }
}

/// The engine's answer, or a limit's rejection.
#[derive(Drop)]
pub enum Limited<T> {
    Answer(T),
    Refused(Refusal),
}
