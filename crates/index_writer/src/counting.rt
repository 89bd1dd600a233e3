// Clauses that pass a test: how many, and whether there is one. `any`, and `map`, `filter` and `count`
// over the range were tried: a build took 6 % more instructions.
ghost use Rattle.std.specs.Prelude.{◌≡◌, Bool, ℕ, ◌≤◌, ◌<◌};
ghost use Rattle.indexing.specs.Upto.{count_to, any_to};

// How many of the numbers below n pass a test.
pub fn count_if<F: Fn(usize) -> bool>(n: usize, passes: F) -> usize
    requires { (i : ℕ) → i < n → F.pre passes i }
    ensures value { (t : ℕ → Bool) → ((i : ℕ) (b : Bool) → i < n → F.post passes i b → b ≡ t i) → result ≡ count_to t n }
    ensures upper_bound { result ≤ n }
{
    let mut k = 0;
    for i in 0..n {
        if passes(i) {
            k += 1;
        }
    }
    k
}

// Whether one of the numbers below n passes a test.
pub fn any_if<F: Fn(usize) -> bool>(n: usize, passes: F) -> bool
    requires { (i : ℕ) → i < n → F.pre passes i }
    ensures { (t : ℕ → Bool) → ((i : ℕ) (b : Bool) → i < n → F.post passes i b → b ≡ t i) → result ≡ any_to t n }
{
    for i in 0..n {
        if passes(i) {
            return true;
        }
    }
    false
}
