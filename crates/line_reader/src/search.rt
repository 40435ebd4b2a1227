ghost use Rattle.std.specs.Prelude.{◌≡◌, ◌≤◌, ◌<◌, ◌+◌, ◌-◌, length, take, drop, IfSome, IfNone, slice_index};
ghost use Rattle.line_reader.specs.Lines.{is_dropped, is_blank, is_space, newline, number_after};
ghost use Rattle.line_reader.specs.Search.{Skips, HasNoNewline, IsLineAt};

use memchr::memchr;

/// A line may have so many bytes.
pub const LONGEST_LINE: usize = 16_777_216;

/// The byte that ends a line.
pub const NEWLINE: u8 = b'\n';

/// Where the next line that isn't dropped stands in some bytes.
#[derive(Clone, Copy)]
pub struct Place {
    /// The index of its first byte.
    pub start: usize,
    /// How many lines were counted before it.
    pub number: u64,
    /// How many bytes it has, where a newline ends it.
    pub len: Option<usize>,
}

/// The number after this one; it stands still at the type's end.
pub fn next_number(number: u64) -> u64
    ensures { result ≡ number_after number }
{
    number.saturating_add(1)
}

// Whether a byte is a space, a tab or a carriage return.
fn is_space_byte(byte: u8) -> bool
    ensures { result ≡ is_space byte }
{
    byte == b' ' || byte == b'\t' || byte == b'\r'
}

// Whether a line has no other bytes than these.
fn is_blank_line(line: &[u8]) -> bool
    ensures { result ≡ is_blank line.now }
{
    line.iter().all(|byte| is_space_byte(*byte))
}

/// Whether a line is blank and not too long.
pub fn is_dropped_line(line: &[u8]) -> bool
    ensures { result ≡ is_dropped line.now }
{
    line.len() <= LONGEST_LINE && is_blank_line(line)
}

// The first newline from an index on.
fn find_newline(bytes: &[u8], from: usize) -> Option<usize>
    requires { from ≤ length bytes.now }
    ensures some { IfSome result (λ at. (from ≤ at) × (at < length bytes.now)
        × (slice_index bytes.now at ≡ newline) × HasNoNewline
        (take (at - from) (drop from bytes.now))) }
    ensures none { IfNone result (HasNoNewline (drop from bytes.now)) }
{
    let ahead = memchr(NEWLINE, &bytes[from..])?;
    Some(from + ahead)
}

/// Skips the lines at the front that are dropped, of which the first `scanned` bytes have no newline.
pub fn find_line(bytes: &[u8], scanned: usize, mut number: u64) -> Place
    requires within { scanned ≤ length bytes.now }
    requires scanned { HasNoNewline (take scanned bytes.now) }
    ensures skipped { Skips bytes.now number result.start result.number }
    ensures some { IfSome result.len (λ len. IsLineAt bytes.now result.start len) }
    ensures none { IfNone result.len (HasNoNewline (drop result.start bytes.now)) }
{
    let mut start = 0;
    let mut from = scanned;
    'lines: while let Some(end) = find_newline(bytes, from) {
        if !is_dropped_line(&bytes[start..end]) {
            return Place {
                start,
                number,
                len: Some(end - start),
            };
        }
        number = next_number(number);
        start = end + 1;
        from = start;
    }
    Place {
        start,
        number,
        len: None,
    }
}
