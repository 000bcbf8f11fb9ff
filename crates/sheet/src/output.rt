ghost use Rattle.std.specs.Prelude.{◌++◌, ◌+◌, ◌≤◌, length};
ghost use Rattle.sheet.specs.Output.{Puts};

// Lays bytes over an output from a byte on; gives the byte after them. By a loop: with `copy_from_slice` the archive for C would need `memmove`, which
// a caller without a C library may not have.
pub fn put(out: &mut [u8], at: usize, bytes: &[u8]) -> usize
    requires { at + length bytes.now ≤ length out.old }
    ensures { Puts out.old at bytes.now out.new result }
{
    for i in 0..bytes.len() {
        out[at + i] = bytes[i];
    }
    at + bytes.len()
}

// Lays bytes with others before and after them.
pub fn put_between(out: &mut [u8], at: usize, first: &[u8], bytes: &[u8], last: &[u8]) -> usize
    requires { at + length (first.now ++ (bytes.now ++ last.now)) ≤ length out.old }
    ensures { Puts out.old at (first.now ++ (bytes.now ++ last.now)) out.new result }
{
    let mut to = put(out, at, first);
    to = put(out, to, bytes);
    put(out, to, last)
}
