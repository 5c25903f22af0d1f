// The lines of a script.
ghost use Rattle.std.specs.Prelude.{◌≡◌, ◌∷◌, ◌<◌, length};
ghost use Rattle.sof_script.specs.Splitting.{lines_of, without_return};

/// The first line without its newline, and the bytes after that.
pub fn first_line(bytes: &[u8]) -> (&[u8], &[u8])
    requires { 0 < length bytes.now }
    ensures lines { lines_of bytes.now ≡ result.0.now ∷ lines_of result.1.now }
    ensures fewer { length result.1.now < length bytes.now }
{
    let mut end = 0;
    while end < bytes.len() {
        if bytes[end] == b'\n' {
            return (&bytes[..end], &bytes[end + 1..]);
        }
        end += 1;
    }
    (bytes, &[])
}

/// A line without the carriage return that it may end with.
pub fn before_return(line: &[u8]) -> &[u8]
    ensures { result.now ≡ without_return line.now }
{
    match line {
        [front @ .., b'\r'] => front,
        _ => line,
    }
}
