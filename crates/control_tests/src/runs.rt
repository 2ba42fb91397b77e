//! Sources that are run: how each ends, and where.

use input_codings::Coding;
use main_control::{Ending, FaultKind, Stomach};
use shipping::PageShipper;
use std::alloc::Global;
use std::test::Fail;
use ts_base::NoMemory;
use ts_outside::{FileName, MemFile, MemFiles, MemSink};

/// How a source ends: its fault, or its spent budget, with the line.
#[derive(Clone, Copy, Debug, PartialEq, Eq)]
pub(crate) enum Met {
    End,
    Fault(FaultKind, u32),
    Budget(u32),
    Read,
    Other,
}

struct Row {
    source: &'static [u8],
    budget: u32,
    // the number of the call on files that fails
    fails: u64,
    met: Met,
}

const ROWS: [Row; 15] = [
    Row {
        source: b"\\end",
        budget: 1,
        fails: 99,
        met: Met::End,
    },
    Row {
        source: b"{\\relax\\par \\begingroup\n\n\\end",
        budget: 1,
        fails: 99,
        met: Met::End,
    },
    Row {
        source: b"",
        budget: 1,
        fails: 99,
        met: Met::Fault(FaultKind::NoEnd, 0),
    },
    Row {
        source: b"{}\n\n}",
        budget: 1,
        fails: 99,
        met: Met::Fault(FaultKind::GroupEnd, 3),
    },
    Row {
        source: b"\\begingroup}",
        budget: 1,
        fails: 99,
        met: Met::Fault(FaultKind::GroupEnd, 1),
    },
    Row {
        source: b"{\\endgroup",
        budget: 1,
        fails: 99,
        met: Met::Fault(FaultKind::GroupEnd, 1),
    },
    Row {
        source: b"$\\end",
        budget: 1,
        fails: 99,
        met: Met::Fault(FaultKind::LeftOut, 1),
    },
    Row {
        source: b"\\endcsname",
        budget: 1,
        fails: 99,
        met: Met::Fault(FaultKind::CsnameEnd, 1),
    },
    Row {
        source: b"\\x",
        budget: 1,
        fails: 99,
        met: Met::Fault(FaultKind::Undefined, 1),
    },
    Row {
        source: b"\\relax\n\\hbox a",
        budget: 1,
        fails: 99,
        met: Met::Fault(FaultKind::NotBuilt, 2),
    },
    Row {
        source: b"\\iftrue\\fi\\end",
        budget: 1,
        fails: 99,
        met: Met::Budget(1),
    },
    Row {
        source: b"\\noexpand\\x\\end",
        budget: 1,
        fails: 99,
        met: Met::End,
    },
    Row {
        source: b"\\iftrue\\fi\\end",
        budget: 2,
        fails: 99,
        met: Met::End,
    },
    Row {
        source: b"\\end",
        budget: 1,
        fails: 0,
        met: Met::Read,
    },
    Row {
        source: b"\\end",
        budget: 1,
        fails: 3,
        met: Met::Read,
    },
];

/// Returns how a run ended.
pub(crate) fn how_it_ended(ending: Ending) -> Met {
    match ending {
        Ending::Ended => Met::End,
        Ending::Fault(fault) => Met::Fault(fault.kind, fault.place.line),
        Ending::Budget(place) => Met::Budget(place.line),
        Ending::ReadFault => Met::Read,
        Ending::SinkFault | Ending::NoMemory => Met::Other,
    }
}

/// Runs a source that is read byte by byte, with so many units; one call on the files fails.
pub(crate) fn run(alloc: Global, source: &[u8], budget: u32, fails: u64) -> Result<Met, NoMemory> {
    let name = FileName::new(alloc, b"a.tex").or(Err(NoMemory))?;
    let file = MemFile {
        name: name.same_copy(),
        bytes: source.to_vec(alloc)?,
    };
    let cuts = vec![in alloc; 1]?;
    let fails = vec![in alloc; fails]?;
    let mut files = MemFiles::new(alloc, vec![in alloc; file]?, cuts, fails);
    let mut sink = MemSink::new(alloc, Vec::new(alloc), Vec::new(alloc));
    let mut shipper = PageShipper::new(alloc, &mut sink);
    let ending = Stomach::run(alloc, &mut files, &mut shipper, &name, Coding::Euc, budget);
    Ok(how_it_ended(ending))
}

#[test]
fn sources_end_as_they_mean(rt: HostRuntime) -> Result<(), Fail> {
    let alloc = rt.alloc();
    for row in &ROWS {
        let met = run(alloc, row.source, row.budget, row.fails).or(Err("memory"))?;
        assert_eq!(rt; met, row.met);
    }
    Ok(())
}
