//! The real disk and a real output.

use itoa::Buffer;
use run_ports::{DiskShelf, LoadError, Shelf, Sink, TermSink};
use std::alloc::Global;
use std::cell::Cell;
use std::fmt::Display;
use std::io::{self, Error, ErrorKind};
use std::rt::Files;
use std::{fs, process};

/// A folder of this process's own.
fn folder_of(alloc: Global, process: u32) -> Option<String> {
    let mut name = String::from_str(alloc, "/tmp/veskudyr_type_tests_").ok()?;
    name.push_str(Buffer::new().format(process)).ok()?;
    Some(name)
}

fn name_in(alloc: Global, folder: &str, rest: &str) -> Option<String> {
    let mut name = String::from_str(alloc, folder).ok()?;
    name.push_str(rest).ok()?;
    Some(name)
}

/// Ten thousand bytes that no power of two repeats.
fn bytes(alloc: Global) -> Option<Vec<u8>> {
    (0..10_000_u32).map(|i| (i % 251) as u8).collect(alloc).ok()
}

/// What is saved is loaded again, up to the limit.
fn keeps_a_file<R: Files + Drop>(
    shelf: &mut DiskShelf<R>,
    alloc: Global,
    name: &str,
) -> Option<bool> {
    shelf.save(name, bytes(alloc)?).ok()?;
    let loaded = shelf.load(alloc, name, 10_000) == Ok(bytes(alloc)?);
    let long = shelf.load(alloc, name, 9_999) == Err(LoadError::TooLong);
    let endless = shelf.load(alloc, "/dev/zero", 100) == Err(LoadError::TooLong);
    Some(loaded && long && endless && shelf.faults() == 0 && shelf.longs() == 2)
}

/// What isn't there and what has no name fails, each time counted.
fn counts_faults<R: Files + Drop>(
    shelf: &mut DiskShelf<R>,
    alloc: Global,
    name: &str,
) -> Option<bool> {
    let missing = shelf.load(alloc, name, 100) == Err(LoadError::Failed);
    let unsaved = shelf.save(name, bytes(alloc)?).is_err();
    let unnamed = shelf.load(alloc, "", 100) == Err(LoadError::Failed);
    Some(missing && unsaved && unnamed && shelf.faults() == 3 && shelf.longs() == 2)
}

fn disk_keeps<R: Files + Drop>(rt: R, alloc: Global, folder: &str) -> Option<bool> {
    let file = name_in(alloc, folder, "/file")?;
    let nowhere = name_in(alloc, folder, "/none/file")?;
    let mut shelf = DiskShelf::new(rt);
    let kept = keeps_a_file(&mut shelf, alloc, file.as_str())?;
    let counted = counts_faults(&mut shelf, alloc, nowhere.as_str())?;
    Some(kept && counted)
}

#[test]
fn disk_shelf_keeps_files(rt: HostRuntime) -> io::Result<()> {
    let folder = folder_of(rt.alloc(), process::id(rt.process()));
    let folder = folder.ok_or(Error::from(ErrorKind::OutOfMemory))?;
    fs::create_dir(&rt, folder.as_str())?;
    let kept = disk_keeps(rt.clone()?, rt.alloc(), folder.as_str());
    fs::remove_dir_all(&rt, folder.as_str())?;
    assert_eq!(rt; kept, Some(true));
    Ok(())
}

/// An output of bounded length that knows how much it took.
#[derive(Drop)]
struct Tape {
    len: Cell<usize>,
    end: usize,
}

impl Print for Tape {
    fn print<D: Display + Drop>(&self, _value: D) -> io::Result<()> {
        Err(Error::from(ErrorKind::Unsupported))
    }

    fn println<D: Display + Drop>(&self, _value: D) -> io::Result<()> {
        Err(Error::from(ErrorKind::Unsupported))
    }

    fn write_all(&self, bytes: &[u8]) -> io::Result<()> {
        let len = self.len.get().saturating_add(bytes.len());
        if len > self.end {
            return Err(Error::from(ErrorKind::StorageFull));
        }
        self.len.set(len);
        Ok(())
    }
}

const TEXT: &[u8] = b"0 anna 2 ok\n1 anna 3 ok\n2 anna 4 changed 1\ndone 3\n";

#[test]
fn term_sink_writes_all_and_counts_what_fails(rt: HostRuntime) {
    assert!(rt; TermSink::new(&rt).put(TEXT).is_ok());
    let tape = Tape {
        len: Cell::new(0),
        end: 60,
    };
    let mut sink = TermSink::new(&tape);
    assert!(rt; sink.put(TEXT).is_ok());
    assert_eq!(rt; (tape.len.get(), sink.faults()), (50, 0));
    assert!(rt; sink.put(TEXT).is_err());
    assert_eq!(rt; (tape.len.get(), sink.faults()), (50, 1));
}
