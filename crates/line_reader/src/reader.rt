ghost use Rattle.std.specs.Prelude.{◌≡◌, ℕ, ◌↔◌, ◌++◌, ◌≤◌, ◌<◌, IfOk, IfErr, OnOk, OnErr, IsTrue, Err, length};
ghost use Rattle.std.specs.Prelude.{drop, false, true, vec_len, vec_capacity, [], ◌≢◌, IfSome, IfNone};
ghost use Rattle.line_reader.specs.Lines.{lines_from, rest_of, closing_of};
ghost use Rattle.line_reader.specs.Reading.{new_reading, HasWaiting, Gives, IsTooLong};
ghost use Rattle.line_reader.specs.Search.{Skips, IsLineAt, HasNoNewline};

use crate::line::{Line, LineFault};
use crate::search::{LONGEST_LINE, NEWLINE, Place, find_line, next_number};
use base_types::{Bytes, OutOfMemory};
use std::alloc::Global;
use std::marker::Model;

/// A piece that a reader is fed has at most so many bytes.
pub const LONGEST_PIECE: usize = 65_536;

/// Takes a log in pieces and gives its lines. It keeps no line that it gave.
#[derive(Drop)]
pub struct LineReader {
    bytes: Vec<u8>,
    // The bytes before this index were given or skipped.
    start: usize,
    // So many bytes from there on have no newline.
    scanned: usize,
    number: u64,
    ended: bool,
}

impl Model for LineReader {
    ghost use Rattle.line_reader.specs.Reading.{Reading};

    ghost Value = { Reading };

    ghost use Rattle.line_reader.specs.Held.{reading_of, IsHeld};

    ghost view = { reading_of };

    ghost invariant = { IsHeld };
}

impl LineReader {
    ghost use Rattle.line_reader.specs.Reading.{given_line};

    pub fn new(alloc: Global) -> Result<LineReader, OutOfMemory>
        ensures { IfOk result (λ reader. reader ≡ new_reading) }
    {
        Ok(LineReader {
            bytes: Vec::with_capacity(alloc, 1)?,
            start: 0,
            scanned: 0,
            number: 0,
            ended: false,
        })
    }

    /// Whether a whole line that isn't blank waits to be given.
    pub fn waits(&self) -> bool
        ensures { IsTrue result ↔ HasWaiting self.now }
    {
        self.next_place().len.is_some()
    }

    // Where the next line that isn't dropped stands in the bytes that are pending.
    fn next_place(&self) -> Place
        ensures skipped { Skips self.now.pending self.now.number result.start result.number }
        ensures some { IfSome result.len (λ len. IsLineAt self.now.pending result.start len) }
        ensures none { IfNone result.len (HasNoNewline (drop result.start self.now.pending)) }
    {
        find_line(self.pending(), self.scanned, self.number)
    }

    fn pending(&self) -> &[u8]
        ensures { result.now ≡ self.now.pending }
    {
        &self.bytes[self.start..]
    }

    /// Takes the next piece of the log. Without memory for it the reader stays.
    pub fn feed(&mut self, piece: &[u8]) -> Result<(), OutOfMemory>
        requires small { length piece.now ≤ LONGEST_PIECE }
        requires none_waits { ¬ HasWaiting self.old }
        requires not_ended { self.old.ended ≡ false }
        ensures ok { OnOk result (self.new ≡ record self.old
            { pending = self.old.pending ++ piece.now }) }
        ensures err { OnErr result (self.new ≡ self.old) }
    {
        remove_front(&mut self.bytes, self.start);
        self.start = 0;
        self.bytes.reserve(piece.len() + 1)?;
        self.bytes.extend_from_slice(piece)?;
        Ok(())
    }

    /// Gives the next line that isn't blank. A fault leaves the reader as it was, so that after `TooLong` each further
    /// call answers it too, or want of memory.
    pub fn next_line(&mut self) -> Result<Option<Line>, LineFault>
        ensures gives { IfOk result (λ found. Gives self.old (given_line found) self.new) }
        ensures too_long { IfErr result (λ fault. (number : ℕ) → fault ≡ LineFault.TooLong number
            → IsTooLong number self.old × IsTooLong number self.new) }
        ensures err { OnErr result (self.new ≡ self.old) }
        ensures ended { self.new.ended ≡ self.old.ended }
    {
        let place = self.next_place();
        let number = next_number(place.number);
        match place.len {
            Some(len) => {
                if len > LONGEST_LINE {
                    return Err(LineFault::TooLong { number });
                }
                let line = &self.pending()[place.start..place.start + len];
                let bytes = copy_of(*self.bytes.allocator(), line)?;
                self.start += place.start + len + 1;
                self.scanned = 0;
                self.number = number;
                Ok(Some(Line { number, bytes }))
            }
            None => {
                let rest = self.pending().len() - place.start;
                if rest > LONGEST_LINE {
                    return Err(LineFault::TooLong { number });
                }
                self.start += place.start;
                self.scanned = rest;
                self.number = place.number;
                Ok(None)
            }
        }
    }

    /// Says that no more bytes come: a rest without a newline is then the last line.
    pub fn end(&mut self)
        ensures ended { self.new.ended ≡ true }
        ensures number { self.new.number ≡ self.old.number }
        ensures lines { lines_from self.new.number self.new.pending
            ≡ lines_from self.old.number self.old.pending }
    {
        close_line(&mut self.bytes, self.start);
        self.ended = true;
    }
}

// Whether some bytes don't end with a newline.
fn ends_open(bytes: &[u8]) -> bool
    ensures open { IsTrue result → rest_of bytes.now ≢ [] }
    ensures closed { result ≡ false → rest_of bytes.now ≡ [] }
{
    match bytes {
        [] => false,
        [.., last] => *last != NEWLINE,
    }
}

// Drops the bytes at the front.
fn remove_front(bytes: &mut Vec<u8>, count: usize)
    requires { count ≤ length bytes.old.items }
    ensures items { bytes.new.items ≡ drop count bytes.old.items }
    ensures capacity { vec_capacity bytes.new ≡ vec_capacity bytes.old }
{
    if count > 0 {
        let rest = bytes.len() - count;
        bytes.rotate_left(count);
        bytes.truncate(rest);
    }
}

// Puts a newline behind a line that has begun.
fn close_line(bytes: &mut Vec<u8>, start: usize)
    requires within { start ≤ length bytes.old.items }
    requires room { rest_of (drop start bytes.old.items) ≢ []
        → vec_len bytes.old < vec_capacity bytes.old }
    ensures { bytes.new.items ≡ bytes.old.items ++ closing_of
        (rest_of (drop start bytes.old.items)) }
{
    if ends_open(&bytes[start..]) {
        bytes.push_reserved(NEWLINE);
    }
}

fn copy_of(alloc: Global, bytes: &[u8]) -> Result<Bytes, OutOfMemory>
    ensures { IfOk result (λ copy. copy ≡ bytes.now) }
{
    Ok(Bytes::from_vec(bytes.to_vec(alloc)?))
}
