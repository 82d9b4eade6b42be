// A test as a number.
ghost use Rattle.std.specs.Prelude.{◌≡◌, ◌≤◌};
ghost use Rattle.laws.specs.Search.{bit};

// 1 where a test holds, and 0 where it does not.
pub fn bit(test: bool) -> usize
    ensures { (result ≡ bit test) × (result ≤ 1) }
{
    usize::from(test)
}
