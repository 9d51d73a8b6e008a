// The greatest common divisor.
ghost use Rattle.rules.specs.Divisors.{GreatestDivisor};

// The greatest number that divides both, by Euclid's remainders; 0 where both are 0.
pub fn gcd(a: u32, e: u32) -> u32
    ensures { GreatestDivisor a e result }
{
    let mut larger = a;
    let mut smaller = e;
    'remainders: while smaller > 0 {
        let remainder = larger % smaller;
        larger = smaller;
        smaller = remainder;
    }
    larger
}
