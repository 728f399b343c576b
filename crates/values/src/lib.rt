// Word values, and the evaluator that works them out for every node of a table.
#![tactic(auto)]

ghost use Rattle.std.specs.Prelude.{◌≡◌};
ghost use Rattle.values.specs.declared.Refusal.TheVariants.{Table};

pub mod value; // a word from the words of its operands
pub mod slot; // a slot of a node: words, choices and memories
pub mod layout; // where the slots of a table's nodes begin
pub mod input; // refusal 13
pub mod eval; // the evaluator

use table::Fault;

// Why the word evaluator works nothing out. (The gate evaluator has no table, and its own refusals.)
#[derive(Clone, Copy, Debug, PartialEq, Eq)]
pub enum Refusal {
    Table(Fault),
    ValueRoom,
    Input(usize),
}

impl From<Fault> for Refusal {
    ghost from_gives = { λ f r. r ≡ Table f };

    fn from(f: Fault) -> Refusal {
        Refusal::Table(f)
    }
}
