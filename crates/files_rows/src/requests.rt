//! Requests, and the words that say what they do, each after a space.

use my_files::{Opens, SystemFiles, WhiteListFsHandler};
use my_frame::SourceStep;
use my_link::{GlobalHandler, Opening};
use std::alloc::{AllocError, Global};
use std::fmt::Write;
use std::io::Read;
use std::rt::Files;
use std::test::Fail;
use std::{env, fs, io, process};

// A file that gives one byte, and then fails.
#[derive(Drop)]
struct Torn {
    is_read: bool,
}

impl Read for Torn {
    fn read(&mut self, buf: &mut [u8]) -> io::Result<usize> {
        if self.is_read || buf.is_empty() {
            return Err(io::Error::from(io::ErrorKind::Other));
        }
        self.is_read = true;
        buf[0] = b'a';
        Ok(1)
    }
}

// A file system of such files.
#[derive(Drop)]
struct TornFiles;

impl Opens for TornFiles {
    ghost use Rattle.std.specs.Prelude.{None};

    type File = Torn;

    ghost asked = { λ s. None };

    ghost name_of = { λ f. None };

    fn open(&mut self, _name: &str) -> io::Result<Torn> {
        Ok(Torn { is_read: false })
    }
}

// These names, parted by commas, each after this text.
fn list_of(alloc: Global, before: &str, names: &str) -> Result<Vec<String>, AllocError> {
    let mut list = Vec::new(alloc);
    for name in names.split(',') {
        list.push(format!(in alloc; "{before}{name}")?)?;
    }
    Ok(list)
}

// Without memory a word lacks, and so the row fails.
fn note(words: &mut String, word: &str) {
    let _ = write!(words, " {word}");
}

// Notes reads of four bytes, as far as the first that gives none.
fn note_reads<H: GlobalHandler>(alloc: Global, words: &mut String, handler: &mut H) {
    let mut buf = *b"....";
    for _ in 0..9 {
        match handler.read(&mut buf) {
            SourceStep::Got(count) => {
                if let Ok(digits) = hex::encode(alloc, &buf[..count]) {
                    note(words, digits.as_str());
                }
            }
            SourceStep::End => return note(words, "end"),
            SourceStep::Failed => return note(words, "fail"),
        }
    }
}

// Notes what a request for this name does, the reads after it, and the counts of faults, ends and unlisted names.
fn note_request<O: Opens>(
    alloc: Global,
    words: &mut String,
    handler: &mut WhiteListFsHandler<O>,
    name: &[u8],
) {
    match handler.open_file(name) {
        Opening::Opened => note(words, "opened"),
        Opening::NotListed => note(words, "unlisted"),
        Opening::Absent => note(words, "absent"),
        Opening::Failed => note(words, "failed"),
    }
    note_reads(alloc, words, handler);
    let (faults, ends, unlisted) = (handler.faults(), handler.ends(), handler.unlisted());
    let _ = write!(words, " {faults} {ends} {unlisted}");
}

// Requests for names in a folder: the digits of each, and what it does. The folder has a.csv, b.csv and a folder `sub`;
// a.csv, absent and sub are listed. The requests: a.csv, absent, sub, b.csv, ./a.csv, sub/../b.csv, one that isn't
// UTF-8, a.csv.
const ROWS: &str = "\
612e637376 = opened 312c610a 322c620a 33 end 0 1 0
616273656e74 = failed fail 2 1 0
737562 = opened fail 3 1 0
622e637376 = unlisted fail 4 1 1
2e2f612e637376 = unlisted fail 5 1 2
7375622f2e2e2f622e637376 = unlisted fail 6 1 3
ff2e637376 = unlisted fail 7 1 4
612e637376 = opened 312c610a 322c620a 33 end 7 2 4
";

// Makes the files of a folder whose path ends with a slash.
fn fill<R: Files + AllocGlobal>(rt: &R, folder: &str) -> io::Result<()> {
    for name in ["a.csv", "b.csv"] {
        let path = format!(in rt.alloc(); "{folder}{name}")?;
        fs::write(rt, path.as_str(), "1,a\n2,b\n3")?;
    }
    fs::create_dir(rt, format!(in rt.alloc(); "{folder}sub")?.as_str())
}

// Whether each row holds in this folder.
fn hold_in<R: Files + AllocGlobal>(rt: &R, folder: &str) -> io::Result<bool> {
    let alloc = rt.alloc();
    let list = list_of(alloc, folder, "a.csv,absent,sub")?;
    let mut handler = WhiteListFsHandler::new(alloc, SystemFiles::new(rt), list);
    let mut hold = true;
    for row in ROWS.lines() {
        let (digits, found) = row.split_once(" =").unwrap_or((row, ""));
        let mut name = Vec::from_slice(alloc, folder.as_bytes())?;
        if let Ok(bytes) = hex::decode(alloc, digits) {
            name.extend_from_slice(bytes.as_slice())?;
        }
        let mut words = String::new(alloc);
        note_request(alloc, &mut words, &mut handler, name.as_slice());
        hold = hold && words.as_str() == found;
    }
    Ok(hold)
}

#[test]
fn files_of_a_folder(rt: HostRuntime) -> Result<(), Fail> {
    let id = process::id(rt.process());
    let folder = format!(in rt.alloc(); "{}/files_rows.{id}/", env::temp_dir(&rt)?.display())?;
    fs::create_dir(&rt, folder.as_str())?;
    let filled = fill(&rt, folder.as_str());
    let hold = hold_in(&rt, folder.as_str());
    fs::remove_dir_all(&rt, folder.as_str())?;
    filled?;
    assert!(rt; hold?);
    Ok(())
}

#[test]
fn a_file_that_fails(rt: HostRuntime) -> Result<(), Fail> {
    let alloc = rt.alloc();
    let list = list_of(alloc, "", "a.csv,b.csv")?;
    let mut handler = WhiteListFsHandler::new(alloc, TornFiles, list);
    let mut words = String::new(alloc);
    note_request(alloc, &mut words, &mut handler, b"b.csv");
    note_request(alloc, &mut words, &mut handler, b"");
    assert_eq!(rt; words.as_str(), " opened 61 fail 1 0 0 unlisted fail 2 0 1");
    Ok(())
}
