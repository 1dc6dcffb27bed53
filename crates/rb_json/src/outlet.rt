ghost use Rattle.std.specs.Prelude.{List, ℕ};

/// Takes the bytes of a text in their order, and writes, stores or counts them. No call fails: an
/// outlet that can't take more remembers that, and its own type reports it at the end.
pub trait Outlet {
    ghost use Rattle.std.specs.Prelude.{[], ◌++◌};
    ghost use Rattle.rb_json.specs.Outlet.{Skips};

    /// Between two states the outlet took these bytes and no others.
    ghost takes: { Self → Self → List ℕ → Type 0 };

    /// Takes bytes.
    fn put(&mut self, bytes: &[u8])
        ensures { takes self.old self.new bytes.now };

    /// Returns true if the outlet needs no more of a text with at least this many bytes left. The
    /// caller may then stop: the outlet is as if it had taken them.
    fn skips(&mut self, least: u64) -> bool
        ensures { Skips (takes self.old self.new) least result };

    /// An outlet that doesn't change took nothing.
    ghost nothing: { (x : Self) → takes x x [] };

    /// Texts that were taken one after another were taken together.
    ghost joined: { (x y z : Self) (first second : List ℕ)
        → takes x y first → takes y z second → takes x z (first ++ second) };
}
