// What is read of a buffer at a byte.  [02 order 5]
ghost use Rattle.std.specs.Prelude.{◌≡◌, ◌+◌, ◌≤◌, ◌<◌, length};
ghost use Rattle.text.specs.Parts.{part};
ghost use Rattle.sheet.specs.Buffer.{low_first};
ghost use Rattle.sheet.specs.Spans.{widest, reach, SizedAt};

// In how many bytes the length of a title or a value is given, and a key's, as specs/Buffer has them.
pub const TEXT_WIDTH: usize = 2;

pub const KEY_WIDTH: usize = 1;

// Some bytes of a buffer, from a byte to a byte.
#[derive(Clone, Copy)]
pub struct Part {
    pub from: usize,
    pub to: usize,
}

// The number in so many bytes, low first.
pub fn low_first(buffer: &[u8], at: usize, width: usize) -> usize
    requires { (at + width ≤ length buffer.now) × (width ≤ widest) }
    ensures { (result ≡ low_first (part buffer.now at (at + width))) × (result < reach width) }
{
    let mut n = 0;
    for i in (0..width).rev() {
        n = n * 256 + (buffer[at + i] as usize);
    }
    n
}

// The bytes that stand after their length, which is given in so many bytes; none where the buffer is cut short.
pub fn find_sized(buffer: &[u8], at: usize, width: usize) -> Option<Part>
    requires { (at ≤ length buffer.now) × (width ≤ widest) }
    ensures { SizedAt width buffer.now at result }
{
    let size = buffer.len();
    if size - at < width {
        return None;
    }
    let from = at + width;
    let n = low_first(buffer, at, width);
    if size - from < n {
        return None;
    }
    Some(Part { from, to: from + n })
}
