use base_types::read_revision;

// A text and its number.
static TEXTS: [(&[u8], Option<u64>); 15] = [
    (b"1", Some(1)),
    (b"10", Some(10)),
    (b"907", Some(907)),
    (b"18446744073709551614", Some(18446744073709551614)),
    (b"18446744073709551615", None),
    (b"18446744073709551616", None),
    (b"184467440737095516140", None),
    (b"0", None),
    (b"01", None),
    (b"", None),
    (b"+1", None),
    (b"-1", None),
    (b"1 ", None),
    (b"1a", None),
    (b"1\xFF", None),
];

fn number_of(text: &[u8]) -> Option<u64> {
    Some(read_revision(text)?.get())
}

#[test]
fn revisions(rt: HostRuntime) {
    for (text, number) in &TEXTS {
        assert!(rt; number_of(text) == *number);
    }
}
