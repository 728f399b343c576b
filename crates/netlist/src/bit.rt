// A bit is the number of a gate. Gates 0 and 1 are the two constants, so a bit that is one of them is known. Where words, division
// and nodes need a constant bit they write 0 or 1, as their definitions do.
ghost use Rattle.std.specs.Prelude.{◌≡◌, ℕ, ◌<◌};
ghost use Rattle.loops.specs.Loop.{bit};
ghost use Rattle.netlist.specs.Bit.{known_of, is_known};

use crate::record::Gate;

impl Gate {
    // The bit that is known to have a value.
    pub fn known(value: bool) -> u32
        ensures { result ≡ bit value }
    {
        value as u32
    }

    // The bit that gate n makes.
    pub fn unknown(n: usize) -> u32
        requires { n < 4294967296 }
        ensures { result ≡ n }
    {
        n as u32
    }

    pub fn is_known(bit: u32) -> bool
        ensures { result ≡ is_known bit }
    {
        bit < 2
    }

    // The value that is known of a bit; none where it is not known. One test parts the known from the unknown, which most bits are: each operation on
    // bits asks this of its operands, and with a match over 0, 1 and the rest a 64-bit divu takes about a fifth longer.
    #[tactic(auto, unfolding(crate::specs::Bit::known_of, loops::specs::Loop::pick))]
    pub fn of(bit: u32) -> Option<bool>
        ensures { result ≡ known_of bit }
    {
        if bit < 2 { Some(bit == 1) } else { None }
    }
}
