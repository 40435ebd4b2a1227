ghost use Rattle.std.specs.Prelude.{◌≡◌, ◌≢◌, ℕ, ◌<◌, ◌≤◌, List, None, length, IfOk, IsErr, OnOk, OnErr};
ghost use Rattle.std.specs.BTreeMap.{get_by_text};
ghost use Rattle.std.specs.Io.{ReadsAtMost};
ghost use Rattle.std.specs.Io.KnownBytes.{ReadConsumes, WriteAppends};
ghost use Rattle.edge_io.specs.Sources.{left_of_source, left_of_name, IsOpened, HoldsNames};

use crate::edge::{Desk, DeskFailed, Sink, SinkFailed};
use base_types::OutOfMemory;
use std::alloc::Global;
use std::collections::BTreeMap;
use std::io::{Input, Print, Read, Write};
use std::rt::Files;
use std::{fs, io};

/// The name under which a desk of files has the standard input.
pub const STANDARD_INPUT: &str = "-";

// Where a name is read from. What has ended is closed: a process may have so many files open.
#[derive(Drop)]
enum Source<F, I> {
    Unopened,
    File(F),
    Input(I),
    Ended,
}

/// Files by their paths, and the standard input. What is left of a name is told while it is open, as far as its reader
/// tells it; the system's readers tell nothing.
#[derive(Drop)]
pub struct FileDesk<'a, R: Files + Input> {
    rt: &'a R,
    sources: BTreeMap<String, Source<R::File, R::Reader>>,
    faults: u64,
}

impl<'a, R: Files + Input> FileDesk<'a, R> {
    /// A desk of these names, each of which is opened at its first read, and closed at its end.
    pub fn new(alloc: Global, rt: &'a R, names: &[String]) -> Result<FileDesk<'a, R>, OutOfMemory>
        ensures faults { IfOk result (λ desk. desk.faults ≡ 0) }
        ensures names { IfOk result (λ desk. HoldsNames names.now desk.sources) }
    {
        let mut sources = BTreeMap::new(alloc);
        for name in names {
            sources.insert(name.clone()?, Source::Unopened)?;
        }
        Ok(FileDesk {
            rt,
            sources,
            faults: 0,
        })
    }
}

// What a reader gives of what it has left.
fn read_reader<S: Read>(reader: &mut S, into: &mut [u8]) -> Result<usize, DeskFailed>
    ensures bound { ReadsAtMost result into.new }
    ensures bytes { ReadConsumes (S.remaining reader.old) (S.remaining reader.new) result into.new }
{
    match reader.read(into) {
        Ok(count) => Ok(count),
        Err(_) => Err(DeskFailed),
    }
}

fn open_source<R: Files + Input>(rt: &R, name: &str) -> io::Result<Source<R::File, R::Reader>>
    ensures { IfOk result (IsOpened name.now Source.Unopened) }
{
    if name == STANDARD_INPUT {
        return Ok(Source::Input(rt.reader()));
    }
    Ok(Source::File(fs::open(rt, name)?))
}

// Opens what wasn't opened yet.
fn open_unopened<R: Files + Input>(
    rt: &R,
    source: &mut Source<R::File, R::Reader>,
    name: &str,
) -> Result<(), DeskFailed>
    ensures opened { OnOk result (IsOpened name.now source.old source.new) }
    ensures failed { OnErr result (source.new ≡ source.old) }
{
    if let Source::Unopened = source {
        match open_source(rt, name) {
            Ok(opened) => *source = opened,
            Err(_) => return Err(DeskFailed),
        }
    }
    Ok(())
}

fn read_opened<F: Read, I: Read>(
    source: &mut Source<F, I>,
    into: &mut [u8],
) -> Result<usize, DeskFailed>
    ensures bound { ReadsAtMost result into.new }
    ensures bytes { ReadConsumes (left_of_source F.remaining I.remaining source.old)
        (left_of_source F.remaining I.remaining source.new) result into.new }
{
    match source {
        Source::Unopened | Source::Ended => Ok(0),
        Source::File(file) => read_reader(file, into),
        Source::Input(input) => read_reader(input, into),
    }
}

fn read_source<R: Files + Input>(
    rt: &R,
    source: &mut Source<R::File, R::Reader>,
    name: &str,
    into: &mut [u8],
) -> Result<usize, DeskFailed>
    ensures bound { ReadsAtMost result into.new }
    ensures bytes { ReadConsumes (left_of_source R.File.remaining R.Reader.remaining source.old)
        (left_of_source R.File.remaining R.Reader.remaining source.new) result into.new }
    ensures ended { IfOk result (λ n. n ≡ 0 → 0 < length into.new → source.new ≡ Source.Ended) }
{
    open_unopened(rt, source, name)?;
    let count = read_opened(source, into)?;
    if count == 0 && !into.is_empty() {
        *source = Source::Ended;
    }
    Ok(count)
}

fn read_named<R: Files + Input>(
    rt: &R,
    sources: &mut BTreeMap<String, Source<R::File, R::Reader>>,
    name: &str,
    into: &mut [u8],
) -> Result<usize, DeskFailed>
    ensures bound { ReadsAtMost result into.new }
    ensures bytes { ReadConsumes (left_of_name R.File.remaining R.Reader.remaining sources.old
        name.now) (left_of_name R.File.remaining R.Reader.remaining sources.new name.now)
        result into.new }
    ensures others { (other : List ℕ) → other ≢ name.now → left_of_name R.File.remaining
        R.Reader.remaining sources.new other ≡ left_of_name R.File.remaining R.Reader.remaining
        sources.old other }
    ensures unknown { get_by_text sources.old name.now ≡ None → IsErr result }
{
    match sources.get_mut(name) {
        Some(source) => read_source(rt, source, name, into),
        None => Err(DeskFailed),
    }
}

impl<'a, R: Files + Input> Desk for FileDesk<'a, R> {
    ghost use Rattle.edge_io.specs.Sources.{left_of_name};

    ghost left = { λ desk name. left_of_name R.File.remaining R.Reader.remaining desk.sources name };

    ghost faults = { λ desk. desk.faults };

    fn read(&mut self, name: &str, into: &mut [u8]) -> Result<usize, DeskFailed> {
        match read_named(self.rt, &mut self.sources, name, into) {
            Ok(count) => Ok(count),
            Err(DeskFailed) => {
                self.faults = self.faults.saturating_add(1);
                Err(DeskFailed)
            }
        }
    }
}

/// The standard output. It tells no content.
#[derive(Drop)]
pub struct StdSink<'a, R: Print> {
    rt: &'a R,
    faults: u64,
}

impl<'a, R: Print> StdSink<'a, R> {
    pub fn new(rt: &'a R) -> StdSink<'a, R>
        ensures { result.faults ≡ 0 }
    {
        StdSink { rt, faults: 0 }
    }
}

// Writes bytes of the front of a piece to a writer, and says how many: at least one.
fn write_some<W: Write>(to: &mut W, piece: &[u8]) -> Result<usize, SinkFailed>
    ensures bound { IfOk result (λ n. (0 < n) × (n ≤ length piece.now)) }
    ensures bytes { WriteAppends (W.contents to.old) (W.contents to.new) result piece.now }
{
    match to.write(piece) {
        Ok(count) if count > 0 => Ok(count),
        _ => Err(SinkFailed),
    }
}

impl<'a, R: Print> Sink for StdSink<'a, R> {
    ghost written = { λ _. None };

    ghost faults = { λ sink. sink.faults };

    fn write(&mut self, piece: &[u8]) -> Result<usize, SinkFailed> {
        match write_some(&mut io::writer(self.rt), piece) {
            Ok(count) => Ok(count),
            Err(SinkFailed) => {
                self.faults = self.faults.saturating_add(1);
                Err(SinkFailed)
            }
        }
    }
}

#[cfg(test)]
mod tests {
    use super::*;
    use std::env;
    use std::test::Fail;

    #[test]
    fn reads_a_file_and_counts_faults(rt: HostRuntime) -> Result<(), Fail> {
        let alloc = rt.alloc();
        let folder = env::temp_dir(&rt)?;
        let path = format!(in alloc; "{}/kubepast-edge-io-test", folder.as_path().display())?;
        fs::write(&rt, path.as_str(), "told")?;
        let mut names = Vec::new(alloc);
        names.push(path.clone()?)?;
        let mut desk = FileDesk::new(alloc, &rt, &names)?;
        let mut into = [0u8; 8];
        assert_eq!(rt; desk.read(&path, &mut into), Ok(4));
        assert_eq!(rt; &into[..4], b"told".as_slice());
        assert_eq!(rt; desk.read(&path, &mut into), Ok(0));
        assert_eq!(rt; desk.read(&path, &mut into), Ok(0));
        assert_eq!(rt; desk.read("another", &mut into), Err(DeskFailed));
        assert_eq!(rt; desk.faults, 1);
        fs::remove_file(&rt, path.as_str())?;
        Ok(())
    }

    #[test]
    fn writes_standard_output(rt: HostRuntime) -> Result<(), Fail> {
        let mut sink = StdSink::new(&rt);
        assert_eq!(rt; sink.write(b"kubepast\n"), Ok(9));
        assert_eq!(rt; sink.faults, 0);
        Ok(())
    }
}
