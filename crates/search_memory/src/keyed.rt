ghost use Rattle.std.specs.Prelude.{◌≡◌, List, ℕ};

/// What is found again by a key.
pub trait Keyed: Drop {
    ghost key: { Self → List ℕ };

    fn key(&self) -> &[u8]
        ensures { result.now ≡ key self.now };
}
