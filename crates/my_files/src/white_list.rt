//! Files of a list.
ghost use Rattle.std.specs.Prelude.{◌≡◌, ◌<◌, IfSome, None, false, is_some, length, map, string_bytes};
ghost use Rattle.std.specs.Str.Lossy.{utf8_lossy};
ghost use Rattle.my_frame.specs.Sources.{Gave};
ghost use Rattle.my_link.specs.Aid.{CountsOpening, CountsRead};
ghost use Rattle.my_files.specs.Lending.{CountsEnd, CountsUnlisted, IsNamed, OpensListed, ReadsOpened};
ghost use Rattle.my_files.specs.Lending.{is_listed, is_opened};

use crate::opens::Opens;
use my_frame::{Source, SourceStep, StdSource};
use my_link::{GlobalHandler, Opening};
use std::alloc::Global;
use std::io::Read;

/// The files of a list of names, which a server may ask for.
///
/// A server's name is read as text, with U+FFFD in place of what is no UTF-8, and compared byte by byte: `./a.csv`
/// isn't `a.csv`. A name that the list doesn't have is handed to no file system.
#[derive(Drop)]
pub struct WhiteListFsHandler<O: Opens> {
    alloc: Global,
    files: O,
    list: Vec<String>,
    opened: Option<StdSource<O::File>>,
    faults: u64,
    ends: u64,
    unlisted: u64,
}

// Whether the list has this name.
fn has_name(list: &[String], name: &str) -> bool
    ensures { result ≡ is_listed name.now (map string_bytes list.now) }
{
    list.iter().any(|text| text.as_str() == name)
}

// Reads the file, if one is open; else that fails.
fn step_of<F: Read>(opened: &mut Option<StdSource<F>>, buf: &mut [u8]) -> SourceStep
    requires { 0 < length buf.old }
    ensures bytes { Gave None buf.new None result }
    ensures opened { is_some opened.new ≡ is_some opened.old }
    ensures none { is_some opened.old ≡ false → result ≡ SourceStep.Failed }
{
    match opened {
        Some(source) => source.read(buf),
        None => SourceStep::Failed,
    }
}

impl<O: Opens> WhiteListFsHandler<O> {
    /// What lends the files of these names, of which none is open yet.
    pub fn new(alloc: Global, files: O, list: Vec<String>) -> WhiteListFsHandler<O>
        ensures files { result.files ≡ files }
        ensures list { result.list ≡ list }
        ensures closed { result.opened ≡ None }
        ensures faults { result.faults ≡ 0 }
        ensures ends { result.ends ≡ 0 }
        ensures unlisted { result.unlisted ≡ 0 }
    {
        WhiteListFsHandler {
            alloc,
            files,
            list,
            opened: None,
            faults: 0,
            ends: 0,
            unlisted: 0,
        }
    }

    // Opens the file of this name where the list has it, and counts nothing.
    fn find(&mut self, name: &[u8]) -> Opening
        ensures listed { OpensListed (is_listed (utf8_lossy name.now) (map string_bytes self.old.list.items))
            (utf8_lossy name.now) (O.asked self.old.files) result (O.asked self.new.files) }
        ensures opened { is_some self.new.opened ≡ is_opened result }
        ensures file { IfSome self.new.opened (λ s. IsNamed (O.name_of s.inner) (utf8_lossy name.now)) }
        ensures kept { self.new ≡ record self.old { files = self.new.files; opened = self.new.opened } }
    {
        self.opened = None;
        let Ok(text) = String::from_utf8_lossy(self.alloc, name) else {
            return Opening::Failed;
        };
        if !has_name(self.list.as_slice(), text.as_str()) {
            return Opening::NotListed;
        }
        match self.files.open(text.as_str()) {
            Ok(file) => {
                self.opened = Some(StdSource::new(file));
                Opening::Opened
            }
            Err(_) => Opening::Failed,
        }
    }

    /// Opens the file of this name, in place of the one that is open, which is closed in any case. It returns
    /// `NotListed` where the list doesn't have it, and `Failed` where the file can't be opened, or where memory for the
    /// name's text ran out.
    pub fn open(&mut self, name: &[u8]) -> Opening
        ensures listed { OpensListed (is_listed (utf8_lossy name.now) (map string_bytes self.old.list.items))
            (utf8_lossy name.now) (O.asked self.old.files) result (O.asked self.new.files) }
        ensures opened { is_some self.new.opened ≡ is_opened result }
        ensures file { IfSome self.new.opened (λ s. IsNamed (O.name_of s.inner) (utf8_lossy name.now)) }
        ensures faults { CountsOpening self.old.faults self.new.faults result }
        ensures unlisted { CountsUnlisted self.old.unlisted self.new.unlisted result }
        ensures ends { self.new.ends ≡ self.old.ends }
        ensures list { self.new.list ≡ self.old.list }
    {
        let step = self.find(name);
        match step {
            Opening::Failed => self.faults = self.faults.saturating_add(1),
            Opening::NotListed => self.unlisted = self.unlisted.saturating_add(1),
            Opening::Opened | Opening::Absent => {}
        }
        step
    }

    /// Reads the open file into a buffer that is not empty. The file is closed at its end and where a read fails;
    /// without an open file a read fails.
    pub fn read_piece(&mut self, buf: &mut [u8]) -> SourceStep
        requires { 0 < length buf.old }
        ensures bytes { Gave None buf.new None result }
        ensures opened { ReadsOpened (is_some self.old.opened) result (is_some self.new.opened) }
        ensures faults { CountsRead self.old.faults self.new.faults result }
        ensures ends { CountsEnd self.old.ends self.new.ends result }
        ensures unlisted { self.new.unlisted ≡ self.old.unlisted }
        ensures files { self.new.files ≡ self.old.files }
        ensures list { self.new.list ≡ self.old.list }
    {
        let step = step_of(&mut self.opened, buf);
        match step {
            SourceStep::Got(_) => {}
            SourceStep::End => {
                self.opened = None;
                self.ends = self.ends.saturating_add(1);
            }
            SourceStep::Failed => {
                self.opened = None;
                self.faults = self.faults.saturating_add(1);
            }
        }
        step
    }

    /// The number of openings and reads that failed; it stays at its greatest value.
    pub fn faults(&self) -> u64
        ensures { result ≡ self.now.faults }
    {
        self.faults
    }

    /// The number of reads that returned the end; it stays at its greatest value.
    pub fn ends(&self) -> u64
        ensures { result ≡ self.now.ends }
    {
        self.ends
    }

    /// The number of requests for what isn't listed; it stays at its greatest value.
    pub fn unlisted(&self) -> u64
        ensures { result ≡ self.now.unlisted }
    {
        self.unlisted
    }
}

impl<O: Opens> GlobalHandler for WhiteListFsHandler<O> {
    ghost file = { λ h. record { left = None; faults = h.faults } };

    fn open_file(&mut self, name: &[u8]) -> Opening {
        self.open(name)
    }

    fn read(&mut self, buf: &mut [u8]) -> SourceStep {
        self.read_piece(buf)
    }
}
