ghost use Rattle.std.specs.Prelude.{◌≡◌, Bool, true};

/// What can wait in a line: a value with a key by which it is looked up.
pub trait Element {
    /// The type of the keys.
    type Key: Copy + PartialEq;

    // The key of an element.
    ghost key_of: { Self → Self.Key };

    // Whether two keys are the same.
    ghost same: { Self.Key → Self.Key → Bool };

    /// The element's key.
    fn key(&self) -> Self::Key
        ensures { result ≡ key_of self.now };

    // `==` on keys answers that.
    ghost tells: { (a b : Self.Key) (r : Bool) → (r ≡ Self.Key.PartialEq.eq a b) → r ≡ same a b };

    // Keys that are the same are equal.
    ghost exact: { (a b : Self.Key) → same a b ≡ true → a ≡ b };

    // A key is the same as itself.
    ghost itself: { (a : Self.Key) → same a a ≡ true };
}
