ghost use Rattle.std.specs.Prelude.{◌≡◌, ◌+◌, ℕ, List, [], ◌∷◌, ◌++◌, Option, IfSome, option_map, max};
ghost use Rattle.cc_world.specs.Told.{Tells};

/// What tells the moment and rests. Moments are milliseconds since the clock was made.
pub trait Clock {
    /// The answers of `now` so far. A clock may stop telling them, and then never does again.
    ghost given: { Self → Option (List ℕ) };

    /// How often `rest` was called so far. A clock may stop telling it, and then never does again.
    ghost rests: { Self → Option ℕ };

    /// The moment that it shows. A clock that does not tell it says None, and then always does.
    ghost at: { Self → Option ℕ };

    /// The moment, which is the one shown where that is told.
    fn now(&mut self) -> u64
        ensures given { Tells (given self.old) (given self.new) (λ was is. is ≡ was ++ result ∷ []) }
        ensures rests { Tells (rests self.old) (rests self.new) (λ was is. is ≡ was) }
        ensures at { at self.new ≡ at self.old }
        ensures shown { IfSome (at self.old) (λ moment. result ≡ moment) };

    /// Rests until this moment. One that has passed is no rest, but counts as one.
    fn rest(&mut self, until: u64)
        ensures given { Tells (given self.old) (given self.new) (λ was is. is ≡ was) }
        ensures rests { Tells (rests self.old) (rests self.new) (λ was is. is ≡ was + 1) }
        ensures at { at self.new ≡ option_map (λ moment. max moment until) (at self.old) };
}
