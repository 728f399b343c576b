// What `--help` prints.
use std::io;
use std::io::Print;

// An Ok has written all of it.
pub fn help(rt: &HostRuntime) -> io::Result<()> {
    rt.write_all(
        b"ramstitcher lowers a BTOR2 model, written as a table of nodes, to gates.

    ramstitcher < model.tsv > gates.tsv

It reads lines of fields parted by one tab; numbers are decimal:
    word W                       first: how wide words and addresses are
    addr A                       up to 64: the addresses that memory has
    node N KIND WIDTH A B C IMM  up to 512, numbered from 1
KIND is const input state not bad and or ext sext eq add ite sub ult mul divu
rem sll srl read write; A B C are earlier nodes, or 0; IMM is a const's number;
WIDTH 0 is memory; ext and sext widen A to WIDTH, by zeros or by its top bit;
a divu by 0 is all ones, a rem by 0 is A.
It prints all that the bad nodes lean on:
    gate G KIND X Y Z            0 false, 1 true, 2 bit Y of input X, 3 not,
        4 and, 5 nand, 6 or, 7 (not X) and Y, 8 and 9 carry and sum of X + Y,
        10 and 11 of X + Y + Z, 12 and 13 bit Y of quotient, remainder X
    bits N G G ...               the bits of node N, lowest first
    constraint G V               gate G has to be V
    done GATES CONSTRAINTS       last: the list is whole
or one line, refused NUMBER NODE (NODE is 0 where no single node is at fault):
 1 SIZE            a line not of these forms, too many lines, W not 1 to 64
 2 ADDRESS         an address twice, or too large for W bits
 3 KIND            no such kind
 4 NOT LOWERED     a kind without gates here: div next comment
 5 OPERAND         missing or not an earlier node; not 0 where none belongs
 6 SORT            widths, or words and memories, that do not fit together
 7 GATE ROOM       may need more than 4,096 gates
 8 BIT ROOM        the nodes have more than 16,384 bits together
 9 CONSTRAINT ROOM may need more than 8,192 constraints
11 GATE LIST       to an evaluator: what is given is no gate list
12 VALUE ROOM      to an evaluator: too few places for the values
13 INPUT           to an evaluator: a given value is out of range
14 NOTHING ASKED   no bad node, so no question: were lines lost on the way?
Where the last line is neither done nor refused there is no answer: standard
error says what failed. The exit status is 0 even then, so test that line. A
pipe that is closed before all is written ends it by a signal, SIGPIPE.
",
    )
}
