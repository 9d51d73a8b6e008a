// The front of an array, filled from a slice.
ghost use Rattle.std.specs.Prelude.{◌≡◌, ℕ, ◌<◌, ◌≤◌, length, map, take, slice_index_or};
ghost use Rattle.std.specs.Fn.{FnReturnsAt};

use std::array;

// What `value` gives for each item in turn, and `spare` beyond them.
pub fn front<T, U: Copy, const N: usize, F: Fn(&T) -> U>(items: &[T], spare: U, value: F) -> [U; N]
    requires { F.IsAlwaysCallable value }
    ensures { (f : T → U) → ((x : T) (u : U) → FnReturnsAt F.Fn value x u → u ≡ f x) → (p : ℕ) → slice_index_or result p spare ≡ slice_index_or (map f (take N items.now)) p spare }
{
    array::from_fn(
        |p|
            requires { F.IsAlwaysCallable value }
            ensures here { (d : T) → p < length items.entry.now → FnReturnsAt F.Fn value (slice_index_or items.entry.now p d) result }
            ensures beyond { length items.entry.now ≤ p → result ≡ spare }
        {
            // Kept: with `map_or(spare, |item| value(item))` search found no proof of what this closure ensures.
            match items.get(p) {
                Some(item) => value(item),
                None => spare
            }
        },
    )
}
