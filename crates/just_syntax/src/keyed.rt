// Values that have keys.

ghost use Rattle.std.specs.Prelude.{List, ℕ, ◌≡◌};

/// A value that has a key.
pub trait Keyed {
    /// The bytes of the key.
    ghost key_text: { Self → List ℕ };

    /// The key.
    fn key(&self) -> &str
        ensures { result.now ≡ key_text self.now };
}
