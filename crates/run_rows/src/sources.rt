//! Sources that fail, or never end.

use crate::play::{PLAIN, ends};
use my_frame::{MemSink, NoMemory, Source, SourceStep};
use my_link::MemWorld;
use std::alloc::Global;
use std::test::Fail;

// A source whose every read fails.
#[derive(Drop)]
struct Broken {
    faults: u64,
}

impl Source for Broken {
    ghost use Rattle.std.specs.Prelude.{None};

    ghost seen = { λ s. record { left = None; faults = s.faults; ends = 0 } };

    fn read(&mut self, _buf: &mut [u8]) -> SourceStep {
        self.faults = self.faults.saturating_add(1);
        SourceStep::Failed
    }
}

// A source that never ends.
#[derive(Drop)]
struct Endless;

impl Source for Endless {
    ghost use Rattle.std.specs.Prelude.{None};

    ghost seen = { λ _. record { left = None; faults = 0; ends = 0 } };

    fn read(&mut self, buf: &mut [u8]) -> SourceStep {
        SourceStep::Got(buf.len())
    }
}

fn code_of<S: Source>(alloc: Global, src: &mut S) -> Result<u8, NoMemory> {
    let mut out = MemSink::new(alloc, 0)?;
    let mut world = MemWorld::new(alloc);
    let report = ends(alloc, PLAIN, src, &mut out, &mut world)?;
    let code = report.status.code();
    drop(report);
    Ok(code)
}

#[test]
fn sources_without_an_end(rt: HostRuntime) -> Result<(), Fail> {
    let alloc = rt.alloc();
    assert!(rt;
        code_of(alloc, &mut Broken { faults: 0 })? == 4 && code_of(alloc, &mut Endless)? == 7
    );
    Ok(())
}
