ghost use Rattle.batch_decode.specs.OneDecoding.{OneDecoding};

/// A line has one list of events, takes one count of numbers, and has one fault or none. So `decode_all` gives what
/// `decode_line` gives of each line, whoever decodes it.
pub fn one_decoding_law()
    ensures { OneDecoding }
{}
