// The search for the lowest of some numbers.
ghost use Rattle.std.specs.Prelude.{◌≡◌, ℕ, ◌<◌, Bool};
ghost use Rattle.model.specs.Plant.{lowest};
ghost use Rattle.plant.specs.Searches.{Gives};

// The lowest of the numbers below `n` that passes the test, if one does.
pub fn lowest<F: Fn(usize) -> bool>(n: usize, test: F) -> Option<usize>
    requires { (p : ℕ) → p < n → F.pre test p }
    ensures { (f : ℕ → Bool) → Gives (F.post test) n f → result ≡ lowest f 0 n }
{
    (0..n).find(
        |&p|
            requires { F.pre test p }
            ensures { F.post test p result }
        { test(p) },
    )
}
