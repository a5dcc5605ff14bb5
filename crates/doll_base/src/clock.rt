//! Clocks.

ghost use Rattle.std.specs.Prelude.{◌∷◌, [], ℕ, List, Option};
ghost use Rattle.doll_base.specs.Streams.{Appended};

/// Tells the time.
pub trait Clock {
    /// The readings that the clock gave so far, where it tells them.
    ghost readings: { Self → Option (List ℕ) };

    /// The time, in microseconds.
    fn now(&mut self) -> u64
        ensures { Appended (readings self.old) (readings self.new) (result ∷ []) };
}
