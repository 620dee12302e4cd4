//! Halves of the components.
ghost use Rattle.std.specs.Prelude.{◌≡◌, ◌≤◌};
ghost use Rattle.config_packed.specs.Shares.{half};

/// How many of so many components are in the first half.
pub fn half(count: usize) -> usize
    ensures half { result ≡ half count }
    ensures within { result ≤ count }
{
    count - count / 2
}
