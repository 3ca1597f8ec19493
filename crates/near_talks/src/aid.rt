//! An aid that tells the texts of a row.

use crate::words::blob_of;
use my_frame::{NoMemory, SourceStep, Text};
use my_link::{AfterConnect, AfterStep, Aid, GlobalHandler, Opening};
use std::alloc::Global;

/// What follows a login: texts, separated by ` then `, of which `reject` is a refusal; then nothing does.
#[derive(Drop)]
pub struct Script<'a> {
    pub texts: &'a str,
}

impl GlobalHandler for Script<'_> {
    ghost use Rattle.std.specs.Prelude.{[], Some};

    ghost file = { λ a. record { left = Some []; faults = 0 } };

    fn open_file(&mut self, _name: &[u8]) -> Opening {
        Opening::Absent
    }

    fn read(&mut self, _buf: &mut [u8]) -> SourceStep {
        SourceStep::End
    }
}

impl AfterConnect for Script<'_> {
    ghost use Rattle.std.specs.Prelude.{None};

    ghost texts = { λ a. None };

    fn next(&mut self, alloc: Global, _n: u64) -> Result<AfterStep, NoMemory> {
        let (text, later) = self.texts.split_once(" then ").unwrap_or((self.texts, ""));
        self.texts = later;
        match text {
            "" => Ok(AfterStep::Done),
            "reject" => Ok(AfterStep::Refuse(Text::from_str(alloc, "rejected")?)),
            _ => Ok(AfterStep::Query(blob_of(alloc, text))),
        }
    }
}

impl Aid for Script<'_> {}
