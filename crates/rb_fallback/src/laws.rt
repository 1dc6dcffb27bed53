ghost use Rattle.rb_fallback.specs.Steps.{HasFewSteps};

/// Proves that a lookup takes at most 4,202,496 steps: 256 levels of 32 names, each with a step for
/// the bundle and at most 512 for segments.
pub fn a_lookup_takes_few_steps()
    ensures { HasFewSteps }
{}
