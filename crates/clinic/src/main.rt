// Cases a to j of document 01, in order, through the compiled engine: a line for each, with what the calls answer,
// what the book has afterwards and whether it is sound. A volume's LBNs are written as letters: `AB--` changes LBN 0
// and 1 to blocks of A and of B.

#![tactic(auto)]

mod calls;
mod facts;

use calls::Clinic;
use samples::Turn;
use std::io;

fn a_to_d(rt: &impl Print, clinic: &mut Clinic) -> io::Result<()> {
    clinic.backup(rt, 'a', Turn { volume: 0, day: 5 }, b"AB--")?;
    clinic.backup(rt, 'b', Turn { volume: 1, day: 6 }, b"---A")?;
    clinic.backup(rt, 'c', Turn { volume: 0, day: 8 }, b"C---")?;
    clinic.backup(rt, 'd', Turn { volume: 1, day: 9 }, b"---B")?;
    clinic.page(rt)
}

fn e_to_g(rt: &impl Print, clinic: &mut Clinic) -> io::Result<()> {
    clinic.collect(rt, 'e', 18)?;
    clinic.read(rt, 0, 1, 0, b'A')?;
    print!(rt; "f.")?;
    clinic.read(rt, 1, 1, 3, b'A')?;
    clinic.collect(rt, 'g', 19)?;
    clinic.read(rt, 0, 1, 0, b'A')
}

fn h_to_j(rt: &impl Print, clinic: &mut Clinic) -> io::Result<()> {
    let last = Turn { volume: 1, day: 21 };
    clinic.backup(rt, 'h', Turn { volume: 0, day: 20 }, b"--DE")?;
    clinic.backup(rt, 'i', last, b"F---")?;
    clinic.forged(rt, 'j', last, b"B---", b"F---")
}

fn main(rt: HostRuntime) -> io::Result<()> {
    let mut clinic = Clinic::new();
    clinic.start(&rt)?;
    a_to_d(&rt, &mut clinic)?;
    e_to_g(&rt, &mut clinic)?;
    h_to_j(&rt, &mut clinic)
}
