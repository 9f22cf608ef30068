// Reads a recording of two wires from standard input, of any length, and prints a line for each transfer that it shows.
#![tactic(auto)]

use reader::line::RefusedText;
use reader::read::Recording;
use reader::transfer::Transfer;
use rows::row::Row;
use std::io::{self, BufWriter, Read, Write};

fn main(rt: HostRuntime) -> anyhow::Result<()> {
    let mut samples = Vec::new(rt.alloc());
    rt.stdin().read_to_end(&mut samples)?;
    let recording = match Recording::new(&samples) {
        Ok(recording) => recording,
        Err(refusal) => {
            rt.println(RefusedText(refusal))?;
            return Ok(());
        }
    };
    let blank = Transfer {
        first: 0,
        last: 0,
        address: 0,
        ninths: 0,
        clean: false,
    };
    let mut transfers = vec![in rt.alloc(); blank; recording.count()]?;
    {
        let mut row = Row::new(&mut transfers);
        recording.read(&mut row)?;
    }
    let mut out = BufWriter::new(rt.alloc(), io::writer(&rt))?;
    for &transfer in &transfers {
        writeln!(out, "{transfer}")?;
    }
    out.flush()?;
    Ok(())
}
