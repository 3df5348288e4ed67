// Stretches of a lent array: filled with one element, or laid over from another array.
#![tactic(auto)]

ghost use Rattle.std.specs.Prelude.{◌≡◌, ◌≤◌, length, replicate};
ghost use Rattle.laws.specs.Stretches.{over, filled};

// Puts x everywhere.
fn fill_all<T: Copy>(s: &mut [T], x: T)
    ensures { s.new ≡ replicate (length s.old) x }
{
    for y in s.iter_mut() {
        *y = x;
    }
}

// Puts x from `from` up to `to`.
pub fn fill<T: Copy>(s: &mut [T], x: T, from: usize, to: usize)
    requires ordered { from ≤ to }
    requires lent { to ≤ length s.old }
    ensures { s.new ≡ filled x from to s.old }
{
    fill_all(&mut s[from..to], x);
}

// Lays the first n of `from` over `to`.
pub fn copy<T: Copy>(from: &[T], to: &mut [T], n: usize)
    requires there { n ≤ length from.now }
    requires room { n ≤ length to.old }
    ensures { to.new ≡ over n from.now to.old }
{
    // by a loop: `copy_from_slice` becomes a call of memmove, which the archive for C would want from outside
    for i in 0..n {
        to[i] = from[i];
    }
}
