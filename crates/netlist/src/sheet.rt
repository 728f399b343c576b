// The refusal sheet: each refusal has a number there, and a place (a gate, a node) stands beside it, or 0.
ghost use Rattle.std.specs.Prelude.{◌≡◌, ℕ};
ghost use Rattle.netlist.specs.Sheet.{told};

pub trait OnSheet: Copy {
    ghost number_of: { Self → ℕ };

    ghost place_of: { Self → ℕ };

    fn number(self) -> u64
        ensures { result ≡ number_of self };

    fn place(self) -> usize
        ensures { result ≡ place_of self };
}

// An answer's number on the sheet; 0 is no refusal.
pub fn number<T: Copy, R: OnSheet>(answer: Result<T, R>) -> u64
    ensures { result ≡ told R.number_of answer }
{
    match answer {
        Ok(_) => 0,
        Err(refusal) => refusal.number(),
    }
}

// The place that stands beside it.
pub fn place<T: Copy, R: OnSheet>(answer: Result<T, R>) -> usize
    ensures { result ≡ told R.place_of answer }
{
    match answer {
        Ok(_) => 0,
        Err(refusal) => refusal.place(),
    }
}
