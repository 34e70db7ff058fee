// What the heard derivations weigh.
ghost use Rattle.std.specs.Prelude.{List, ℕ};
ghost use Rattle.weighing.specs.Inner.Sums.{SumsSought, SummedAs};

// Where each of them ends becomes its weight together with those of the ones before it.
pub fn fill(firsts: &[u64], ends: &mut [u64])
    requires { (l : List (ℕ × ℕ)) × SumsSought l firsts.now ends.old }
    ensures { (l : List (ℕ × ℕ)) → SumsSought l firsts.now ends.old → SummedAs l ends.old ends.new }
{
    let mut sum: u64 = 0;
    for (i, first) in firsts.iter().enumerate() {
        sum += ends[i] - *first;
        ends[i] = sum;
    }
}
