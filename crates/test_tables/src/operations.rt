//! Operations on tables, one a line: on cuts, rows of edges, needs and versions. The modules say how the lines are written. A number n
//! as a name stands for the name of 32 bytes n.

ghost use Rattle.std.specs.Prelude.{◌≡◌, ◌<◌};

mod cuts;
mod deps;
mod edges;
mod numbers;
mod versions;

use anyhow::{Result, anyhow};
use cuts::CutCases;
use deps::DepCases;
use edges::EdgeCases;
use pj_pmap::{Memory, Steps};
use pj_scan::Scan;
use std::alloc::Global;
use std::io::Write;
use std::marker::Brand;
use std::sync::ledger::{Blank, Ledger};
use versions::VersionCases;

/// The tables.
#[derive(Drop)]
struct Tables {
    cuts: CutCases,
    edges: EdgeCases,
    deps: DepCases,
    versions: VersionCases,
}

impl Tables {
    fn empty(alloc: Global) -> Tables {
        Tables {
            cuts: CutCases::empty(),
            edges: EdgeCases::empty(),
            deps: DepCases::empty(alloc),
            versions: VersionCases::empty(),
        }
    }

    /// Carries out the operation of this line, of which the first letter of its word says the table.
    fn answer<L: Ledger>(
        &mut self,
        alloc: Global,
        word: &[u8],
        line: &mut Scan,
        steps: &mut Steps<L>,
        out: &mut Vec<u8>,
    ) -> Result<(), Memory> {
        match word {
            [b'c', rest @ ..] => self.cuts.answer(alloc, rest, line, steps, out),
            [b'e', rest @ ..] => self.edges.answer(alloc, rest, line, steps, out),
            [b'd', rest @ ..] => self.deps.answer(alloc, rest, line, steps, out),
            [b'v', rest @ ..] => self.versions.answer(alloc, rest, line, steps, out),
            _ => Ok(()),
        }
    }
}

/// The answers to all lines.
fn answers<L: Ledger>(alloc: Global, input: &[u8], blank: Blank) -> Result<Vec<u8>, Memory>
    requires name { blank.name ≡ L.name }
    requires parts { blank.parts ≡ L.parts }
    requires some { 0 < blank.parts }
{
    let mut steps = Steps::<L>::new(blank);
    let mut scan = Scan::new(input);
    let mut out = Vec::new(alloc);
    let mut tables = Tables::empty(alloc);
    for _ in 0..input.len() {
        let Some(word) = scan.word() else {
            break;
        };
        tables.answer(alloc, word, &mut scan, &mut steps, &mut out)?;
        let Some(_) = scan.line() else {
            break;
        };
    }
    Ok(out)
}

/// Carries out the operations, and writes what each answers.
pub fn play(rt: &HostRuntime, input: &[u8]) -> Result<()> {
    let Ok(out) = answers::<Brand>(rt.alloc(), input, Blank::new(1)) else {
        return Err(anyhow!("out of memory"));
    };
    rt.stdout().write_all(&out)?;
    Ok(())
}
