// Bytes as records.
ghost use Rattle.std.specs.Prelude.{◌≡◌, map, Decides};
ghost use Rattle.records.specs.Records.{records, of_quad, BadLength};

// Whether no paper or sheet has this length.
pub fn is_bad_length(length: usize) -> bool
    ensures { Decides result (BadLength length) }
{
    length == 0 || !length.is_multiple_of(4) || length > 35328
}

// The bytes of each record; fewer than four at the end make none.
pub fn quads(bytes: &[u8]) -> &[[u8; 4]]
    ensures { map of_quad result.now ≡ records bytes.now }
{
    bytes.as_chunks().0
}
