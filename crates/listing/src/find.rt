// Finding the number that has so many before it.
ghost use Rattle.listing.specs.Finding.{Sought, Within};
ghost use Rattle.std.specs.Prelude.{◌≡◌, ℕ, Bool, true};

// The number below a limit that passes a test and has so many such numbers below it, or how many there are where they are too few.
pub(crate) fn find_passing<F: Fn(usize) -> bool>(
    limit: usize,
    index: usize,
    passes: F,
) -> Result<usize, usize>
    requires { F.IsAlwaysCallable passes }
    ensures within { Within limit index result }
    ensures sought { (p : ℕ → Bool) → ((n : ℕ) (b : Bool) → F.post passes n b → b ≡ p n) → Sought (λ n. p n ≡ true) limit index result }
{
    let mut before = 0;
    // One pass answers both the number and the count; a chain with `nth` would go over the numbers again to count them.
    for number in 0..limit {
        if passes(number) {
            if before == index {
                return Ok(number);
            }
            before += 1;
        }
    }
    Err(before)
}
