ghost use Rattle.std.specs.Prelude.{◌≡◌, ◌≢◌, ◌<◌, [], ◌∷◌, length};
ghost use Rattle.mf_wire.specs.Lines.{lines_of};

use memchr::memchr;

/// The first line of some input, without its line feed, and what follows it.
pub fn first_line(input: &[u8]) -> (&[u8], &[u8])
    requires { input.now ≢ [] }
    ensures lines { lines_of input.now ≡ result.0.now ∷ lines_of result.1.now }
    ensures shorter { length result.1.now < length input.now }
{
    match memchr(b'\n', input) {
        Some(end) => (&input[..end], &input[end + 1..]),
        None => (input, &[]),
    }
}
