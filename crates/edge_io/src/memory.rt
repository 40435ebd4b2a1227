ghost use Rattle.std.specs.Prelude.{◌≡◌, ◌≢◌, ℕ, ◌<◌, ◌≤◌, List, Some, length, IfOk};
ghost use Rattle.std.specs.Io.{ReadsAtMost};
ghost use Rattle.std.specs.Io.KnownBytes.{ReadConsumes, WriteAppends};
ghost use Rattle.edge_io.specs.Faults.{HasCause};
ghost use Rattle.edge_io.specs.Files.{left_of};
ghost use Rattle.edge_io.specs.MemoryDesk.{ReadsInTurn, ReadsSteadily};
ghost use Rattle.edge_io.specs.MemorySink.{WritesInTurn};

use crate::edge::{Desk, DeskFailed, Sink, SinkFailed};
use crate::files::{InputFiles, OpenFile, give_named, open_files};
use base_types::OutOfMemory;
use std::alloc::Global;
use std::marker::Model;

/// How many bytes a memory sink has room for.
pub const SINK_ROOM: usize = 67_108_864;

/// Files in memory, whose bytes are told. The calls of the numbers in `failing`, from 1, fail.
#[derive(Drop)]
pub struct MemoryDesk {
    files: Vec<OpenFile>,
    cut: usize,
    failing: Vec<u64>,
    calls: u64,
    faults: u64,
}

impl Model for MemoryDesk {
    ghost use Rattle.std.specs.Prelude.{◌<◌};
    ghost use Rattle.edge_io.specs.MemoryDesk.{DeskState};

    ghost Value = { DeskState };

    ghost view = { λ d. record {
      files = d.files.items;
      cut = d.cut;
      failing = d.failing.items;
      calls =
          d.calls;
      faults = d.faults;
    } };

    ghost invariant = { λ d. 0 < d.cut };
}

impl MemoryDesk {
    ghost use Rattle.edge_io.specs.MemoryDesk.{new_desk};

    /// A desk of these files, of which a read gives at most `cut` bytes.
    pub fn new(
        alloc: Global,
        files: InputFiles,
        cut: usize,
        failing: &[u64],
    ) -> Result<MemoryDesk, OutOfMemory>
        requires { 0 < cut }
        ensures { IfOk result (λ desk. desk ≡ new_desk files cut failing.now) }
    {
        Ok(MemoryDesk {
            files: open_files(alloc, files)?,
            cut,
            failing: failing.to_vec(alloc)?,
            calls: 0,
            faults: 0,
        })
    }
}

impl Desk for MemoryDesk {
    ghost left = { λ desk name. Some (left_of desk.files name) };

    ghost faults = { λ desk. desk.faults };

    fn read(&mut self, name: &str, into: &mut [u8]) -> Result<usize, DeskFailed>
        requires { 0 < length into.old }
        ensures bound { ReadsAtMost result into.new }
        ensures bytes { ReadConsumes (Some (left_of self.old.files name.now))
            (Some (left_of self.new.files name.now)) result into.new }
        ensures others { (other : List ℕ) → other ≢ name.now
            → left_of self.new.files other ≡ left_of self.old.files other }
        ensures cause { HasCause self.old.faults self.new.faults result }
        ensures counted { ReadsInTurn self.old self.new result }
    {
        self.calls = self.calls.saturating_add(1);
        if self.failing.contains(&self.calls) {
            self.faults = self.faults.saturating_add(1);
            return Err(DeskFailed);
        }
        Ok(give_named(&mut self.files, name, self.cut, into))
    }
}

/// Files in memory, whose bytes are told and of which no read fails.
#[derive(Drop)]
pub struct SteadyDesk {
    files: Vec<OpenFile>,
    cut: usize,
}

impl Model for SteadyDesk {
    ghost use Rattle.std.specs.Prelude.{◌<◌};
    ghost use Rattle.edge_io.specs.MemoryDesk.{SteadyState};

    ghost Value = { SteadyState };

    ghost view = { λ d. record { files = d.files.items; cut = d.cut } };

    ghost invariant = { λ d. 0 < d.cut };
}

impl SteadyDesk {
    ghost use Rattle.edge_io.specs.MemoryDesk.{new_steady};

    /// A desk of these files, of which a read gives at most `cut` bytes.
    pub fn new(alloc: Global, files: InputFiles, cut: usize) -> Result<SteadyDesk, OutOfMemory>
        requires { 0 < cut }
        ensures { IfOk result (λ desk. desk ≡ new_steady files cut) }
    {
        Ok(SteadyDesk {
            files: open_files(alloc, files)?,
            cut,
        })
    }
}

impl Desk for SteadyDesk {
    ghost left = { λ desk name. Some (left_of desk.files name) };

    ghost faults = { λ _. 0 };

    fn read(&mut self, name: &str, into: &mut [u8]) -> Result<usize, DeskFailed>
        requires { 0 < length into.old }
        ensures bound { ReadsAtMost result into.new }
        ensures bytes { ReadConsumes (Some (left_of self.old.files name.now))
            (Some (left_of self.new.files name.now)) result into.new }
        ensures others { (other : List ℕ) → other ≢ name.now
            → left_of self.new.files other ≡ left_of self.old.files other }
        ensures cause { HasCause 0 0 result }
        ensures steady { ReadsSteadily self.old self.new result }
    {
        Ok(give_named(&mut self.files, name, self.cut, into))
    }
}

/// A sink in memory, whose bytes are told. The calls of the numbers in `failing`, from 1, fail, and
/// so does a call once no room is left.
#[derive(Drop)]
pub struct MemorySink {
    bytes: Vec<u8>,
    cut: usize,
    failing: Vec<u64>,
    calls: u64,
    faults: u64,
}

impl Model for MemorySink {
    ghost use Rattle.std.specs.Prelude.{◌<◌, ◌≤◌, vec_len, vec_capacity};
    ghost use Rattle.edge_io.specs.declared.memory.TheConstants.{SINK_ROOM};
    ghost use Rattle.edge_io.specs.MemorySink.{SinkState};

    ghost Value = { SinkState };

    ghost view = { λ s. record {
      bytes = s.bytes.items;
      cut = s.cut;
      failing = s.failing.items;
      calls =
          s.calls;
      faults = s.faults;
    } };

    ghost invariant = { λ s. (0 < s.cut) × (SINK_ROOM ≤ vec_capacity s.bytes)
        × (vec_len s.bytes ≤ SINK_ROOM) };
}

impl MemorySink {
    ghost use Rattle.edge_io.specs.MemorySink.{new_sink};

    /// A sink with room for 64 MiB, of which a write takes at most `cut` bytes.
    pub fn new(alloc: Global, cut: usize, failing: &[u64]) -> Result<MemorySink, OutOfMemory>
        requires { 0 < cut }
        ensures { IfOk result (λ sink. sink ≡ new_sink cut failing.now) }
    {
        Ok(MemorySink {
            bytes: Vec::with_capacity(alloc, SINK_ROOM)?,
            cut,
            failing: failing.to_vec(alloc)?,
            calls: 0,
            faults: 0,
        })
    }

    /// The bytes written so far.
    pub fn written(&self) -> &[u8]
        ensures { result.now ≡ self.now.bytes }
    {
        self.bytes.as_slice()
    }
}

impl Sink for MemorySink {
    ghost written = { λ sink. Some sink.bytes };

    ghost faults = { λ sink. sink.faults };

    fn write(&mut self, piece: &[u8]) -> Result<usize, SinkFailed>
        requires { 0 < length piece.now }
        ensures bound { IfOk result (λ n. (0 < n) × (n ≤ length piece.now)) }
        ensures bytes { WriteAppends (Some self.old.bytes) (Some self.new.bytes) result piece.now }
        ensures cause { HasCause self.old.faults self.new.faults result }
        ensures counted { WritesInTurn self.old self.new result }
    {
        self.calls = self.calls.saturating_add(1);
        if self.failing.contains(&self.calls) {
            self.faults = self.faults.saturating_add(1);
            return Err(SinkFailed);
        }
        let room = SINK_ROOM - self.bytes.len();
        if room == 0 {
            self.faults = self.faults.saturating_add(1);
            return Err(SinkFailed);
        }
        let count = piece.len().min(self.cut).min(room);
        match self.bytes.extend_from_slice(&piece[..count]) {
            Ok(()) => Ok(count),
            Err(_) => unreachable!(),
        }
    }
}
