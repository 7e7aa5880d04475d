//! Marks of messages: the trait that they implement, and the marks of one clone run alone.
ghost use Rattle.std.specs.Prelude.{◌≡◌, Option, Some};

/// The marks of a pending message: the clones that it is for.
pub trait Marks: Copy {
    ghost union: { Self → Self → Self };

    ghost common: { Self → Self → Option Self };

    /// The union of the two.
    fn join(self, other: Self) -> Self
        ensures { result ≡ union self other };

    /// The intersection of the two, or None if it is empty.
    fn meet(self, other: Self) -> Option<Self>
        ensures { result ≡ common self other };
}

/// One clone alone needs no marks.
impl Marks for () {
    ghost union = { λ a b. tt };

    ghost common = { λ a b. Some tt };

    fn join(self, _other: ()) {}

    fn meet(self, _other: ()) -> Option<()> {
        Some(())
    }
}
