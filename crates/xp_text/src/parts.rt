// The parts of bytes between separators, as the lines of a text.
ghost use Rattle.std.specs.Prelude.{◌≡◌, ◌<◌, ◌∷◌, [], length, MatchOption};
ghost use Rattle.xp_text.specs.Lines.{parts_of};

/// The byte that ends a line.
pub const LINE_END: u8 = b'\n';

/// The first part, and the bytes after its separator. None: there is no separator, and the first
/// part is all.
pub fn first_part(separator: u8, bytes: &[u8]) -> (&[u8], Option<&[u8]>)
    ensures parts { MatchOption result.1 (parts_of separator bytes.now ≡ result.0.now ∷ [])
        (λ rest. parts_of separator bytes.now ≡ result.0.now ∷ parts_of separator rest.now) }
    ensures shorter { MatchOption result.1 (length result.0.now ≡ length bytes.now)
        (λ rest. length rest.now < length bytes.now) }
{
    for (place, byte) in bytes.iter().enumerate() {
        if *byte == separator {
            return (&bytes[..place], Some(&bytes[place + 1..]));
        }
    }
    (bytes, None)
}
