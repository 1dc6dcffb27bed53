ghost use Rattle.std.specs.Prelude.{◌≡◌, None};
ghost use Rattle.rb_engine.specs.Ask.{LooksUp};
ghost use Rattle.rb_engine.specs.LookResponse.{look_response};
ghost use Rattle.rb_views.specs.Seen.{tree_seen};
ghost use Rattle.rb_requests.specs.Steps.{Answers, CallComesTo};
ghost use Rattle.rb_requests.specs.Outcomes.{look_outcome};

use crate::limits::{Limited, Limits, Refusal};
use rb_engine::{Engine, LookFault};
use rb_fallback::Found;
use rb_views::Item;

/// Looks up like `Engine::look`, or returns `TooManySteps`, whatever the lookup would find. Invalid
/// names and paths are reported first. Allocates nothing.
pub fn look<'a>(
    engine: &'a Engine,
    limits: &Limits,
    app: &[u8],
    locale: &[u8],
    path: &[u8],
) -> Limited<Result<Found<Item<'a>>, LookFault>>
    ensures { CallComesTo limits.now engine.now (LooksUp app.now locale.now path.now)
        (look_outcome tree_seen result) engine.now }
{
    let Some(steps) = limits.steps else {
        return Limited::Answer(look_unlimited(engine, limits, app, locale, path));
    };
    match engine.look_within(app, locale, path, steps) {
        Ok(found) => Limited::Answer(found),
        Err(_) => Limited::Refused(Refusal::TooManySteps),
    }
}

/// Looks up where no limit is on steps.
#[inline(always)]
pub(crate) fn look_unlimited<'a>(
    engine: &'a Engine,
    limits: &Limits,
    app: &[u8],
    locale: &[u8],
    path: &[u8],
) -> Result<Found<Item<'a>>, LookFault>
    requires { limits.now.steps ≡ None }
    ensures { CallComesTo limits.now engine.now (LooksUp app.now locale.now path.now)
        (Answers (look_response tree_seen result)) engine.now }
{
    engine.look(app, locale, path)
}
