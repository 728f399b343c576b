// The gate evaluator: one byte a gate, 0 or 1; free gates are given, the others are worked out. Gates and values are two parameters, and values
// bytes, as C lends them.
ghost use Rattle.std.specs.Prelude.{◌≡◌, ℕ, ◌+◌, ◌≤◌, ◌<◌, length};
ghost use Rattle.loops.specs.Loop.{found, iter};
ghost use Rattle.netlist.specs.Record.{Room, records};
ghost use Rattle.netlist.specs.Eval.{truth, gate_value, eval_step, out_of_range, run, eval_sound, eval_gates};

use crate::check::Refusal;
use crate::record::Gate;
use crate::{check, record};

fn truth_at(values: &[u8], i: u32) -> bool
    ensures { result ≡ truth values.now i }
{
    values.get(i as usize) == Some(&1)
}

impl Gate {
    // What this gate's kind says of its operands' values.
    #[tactic(auto, unfolding(crate::specs::Eval::gate_value))]
    fn value_over(self, values: &[u8]) -> u8
        ensures { result ≡ gate_value self values.now }
    {
        let x = truth_at(values, self.x);
        let y = truth_at(values, self.y);
        let z = truth_at(values, self.z);
        Gate::value(self.kind, x, y, z) as u8
    }
}

// One turn of eval_all.
#[tactic(auto, unfolding(crate::specs::Eval::eval_step, loops::specs::Loop::pick))]
fn eval_step(gates: &[u32], i: usize, values: &mut [u8])
    requires { Room gates.now (i + 1) × (i < length values.old) }
    ensures { values.new ≡ eval_step gates.now i values.old }
{
    let gate = record::gate_at(gates, i);
    if !Gate::is_free(gate.kind) {
        values[i] = gate.value_over(values);
    }
}

#[tactic(auto, unfolding(crate::specs::Eval::out_of_range))]
fn input_bad(gates: &[u32], values: &[u8], i: usize) -> bool
    requires { Room gates.now (i + 1) × (i < length values.now) }
    ensures { result ≡ out_of_range gates.now values.now i }
{
    Gate::is_free(record::gate_at(gates, i).kind) && 2 <= values[i]
}

// n stands beside the values: over values[..n] the two parts would have to be put together again, since what lies beyond is promised too.
#[tactic(auto, using(loops::proofs::Loop::for_loop))]
fn eval_all(gates: &[u32], values: &mut [u8], n: usize)
    requires { Room gates.now n × (n ≤ length values.old) }
    ensures { values.new ≡ iter n (eval_step gates.now) values.old }
{
    for i in 0..n {
        eval_step(gates, i, values);
    }
}

// A list without fault: 12, then 13, then the values.
#[tactic(auto, using(crate::proofs::Paths::sound_room))]
fn eval_sound(gates: &[u32], values: &mut [u8]) -> Result<(), Refusal>
    ensures { run result values.new ≡ eval_sound gates.now values.old }
{
    let n = record::count(gates);
    if values.len() < n {
        return Err(Refusal::ValueRoom);
    }
    match (0..n).find(|&i| input_bad(gates, values, i)) {
        Some(i) => Err(Refusal::Input(i)),
        None => {
            eval_all(gates, values, n);
            Ok(())
        }
    }
}

#[tactic(auto, unfolding(crate::specs::Eval::eval_gates, loops::specs::Loop::pick))]
pub fn eval_gates(gates: &[u32], values: &mut [u8]) -> Result<(), Refusal>
    ensures { run result values.new ≡ eval_gates gates.now values.old }
{
    check::check_gates(gates)?;
    eval_sound(gates, values)
}
