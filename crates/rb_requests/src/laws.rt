ghost use Rattle.rb_engine.specs.History.{AsksOne, AnswersOwn, IsIsolated};
ghost use Rattle.rb_requests.specs.History.{IsIsolatedWithin, IsWithinQuota};
ghost use Rattle.rb_requests.specs.ExtendedIsolation.{AreExtendedIsolated, LeavesAlone, RepliesAlike};
ghost use Rattle.rb_requests.specs.Isolation.{AreLinesIsolated, AreLinesIsolatedWithin};

/// Proves that under limits too applications are isolated, and none exceeds its limit on bytes.
pub fn limited()
    // The outcome of a call depends only on the caller's calls, and on which of them ran out of
    // memory or were one application too many.
    ensures isolated { IsIsolatedWithin }
    ensures quota { IsWithinQuota }
{
    rb_engine::laws::isolated();
}

/// Proves that applications are isolated: each is answered from its own bundles, those of ICUDATA
/// and the explicit parents, whatever the others ask, and so are the lines of a text.
pub fn isolated()
    // A call asks one thing, since a payload stands for at most one tree.
    ensures one { AsksOne }
    // Each answer, except out of memory, depends on what the caller itself asked before.
    ensures own { AnswersOwn }
    // The answers to an application depend only on its own calls and on which of them ran out of
    // memory.
    ensures alone { IsIsolated }
    // The replies to an application's lines depend only on these lines.
    ensures lines { AreLinesIsolated }
    // Under limits too, questions for usage included, except for `Memory` and `TooManyApps`.
    ensures within { AreLinesIsolatedWithin }
{
    rb_engine::laws::isolated();
}

/// Proves that applications are isolated with extended requests too: which replies the definitions
/// allow to an application's lines depends only on its own bundles, those of ICUDATA and the
/// explicit parents. Bytes that they leave open, such as the layout of a text, aren't covered.
pub fn extended_isolated()
    // States that are the same to an application allow the same replies to its line.
    ensures alike { RepliesAlike }
    // A line of another application leaves it its files.
    ensures alone { LeavesAlone }
    // The replies to an application's lines are replies that it could get if there were no others.
    ensures lines { AreExtendedIsolated }
{}
