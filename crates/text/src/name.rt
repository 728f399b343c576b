// The names of kinds.
ghost use Rattle.std.specs.Prelude.{◌≡◌};
ghost use Rattle.text.specs.Name.{kind};

// By their numbers, from 1.
const KINDS: [&[u8]; 24] = [
    b"const", b"input", b"state", b"not", b"bad", b"and", b"ext", b"eq", b"add", b"ite", b"sub",
    b"ult", b"mul", b"divu", b"rem", b"read", b"write", b"or", b"div", b"sll", b"srl", b"next",
    b"comment", b"sext",
];

// The number of the kind of this name.
pub fn kind(name: &[u8]) -> Option<u64>
    ensures { result ≡ kind name.now }
{
    let place = KINDS.iter().position(|k| *k == name)?;
    Some(place as u64 + 1)
}
