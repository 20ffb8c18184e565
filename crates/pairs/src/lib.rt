// Two-byte characters: where a front of a headword may end.
#![tactic(auto)]

ghost use Rattle.std.specs.Prelude.{◌≡◌, false, ◌≤◌, length, take};
ghost use Rattle.spec.specs.Pairs.{is_lead, second_behind, whole_front};

// Whether a byte begins a pair, unless it is the second of one.
#[tactic(auto, unfolding(spec::specs::Pairs::is_lead))]
fn is_lead(b: u8) -> bool
    ensures { result ≡ is_lead b }
{
    matches!(b, 0x81..=0x9F | 0xE0..=0xFC)
}

// Whether a byte at `n` is the second of a pair of `s`: an odd number of lead bytes stand right before it. Behind a letter one
// byte is looked at, and never one twice.
fn is_second(s: &[u8], n: usize) -> bool
    requires { n ≤ length s.now }
    ensures { result ≡ second_behind false (take n s.now) }
{
    let leads = s[..n].iter().rev().take_while(|b| is_lead(**b)).count();
    leads % 2 == 1
}

// The largest front of at most `n` bytes of `s` that ends inside no pair.
pub fn whole_front(s: &[u8], n: usize) -> usize
    requires { n ≤ length s.now }
    ensures value { result ≡ whole_front s.now n }
    ensures upper_bound { result ≤ n }
{
    if n < s.len() && is_second(s, n) {
        return n - 1;
    }
    n
}
