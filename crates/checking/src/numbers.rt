// Whether numbers differ: each is compared with all after it, at most 523,776 comparisons for 1,024 numbers.
ghost use Rattle.std.specs.Prelude.{◌≡◌};
ghost use Rattle.readback.specs.Saved.{all_differ};

// Whether numbers differ.
#[tactic(auto, using(crate::proofs::Differing::differ_found, crate::proofs::Differing::differ_next))]
pub(crate) fn all_differ(numbers: &[u32]) -> bool
    ensures { result ≡ all_differ numbers.now }
{
    for (i, number) in numbers.iter().enumerate() {
        if numbers[i + 1..].contains(number) {
            return false;
        }
    }
    true
}
