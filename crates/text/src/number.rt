// A field's bytes read as a decimal number: None where they are none, or one above 2^64 - 1.
ghost use Rattle.std.specs.Prelude.{◌≡◌, Some};
ghost use Rattle.text.specs.Number.{add_digit, number_from, number};

fn add_digit(v: u64, c: u8) -> Option<u64>
    ensures { result ≡ add_digit v c }
{
    if !c.is_ascii_digit() {
        return None;
    }
    v.checked_mul(10)?.checked_add(u64::from(c - b'0'))
}

fn digits_of(s: &[u8]) -> Option<u64>
    ensures { result ≡ number_from (Some 0) s.now }
{
    let mut n = 0;
    for c in s {
        n = add_digit(n, *c)?;
    }
    Some(n)
}

// Not empty, and no leading zero.
#[tactic(auto, using(crate::proofs::Numbers::number_empty, crate::proofs::Numbers::number_zero))]
pub fn number(s: &[u8]) -> Option<u64>
    ensures { result ≡ number s.now }
{
    let [first, ..] = s else {
        return None;
    };
    if *first == b'0' && 1 < s.len() {
        return None;
    }
    digits_of(s)
}
