// A pair sought by its key.  [02 orders 5 and 6]
ghost use Rattle.sheet.specs.Order.{value_for};
ghost use Rattle.sheet.specs.Spans.{HasPairs, pairs_at, ValueAt};

use crate::buffer::Part;
use crate::pairs::pair_at;
use text::word::is_word;

// The value of the first of so many pairs that has a key, case ignored; none where no pair has it.
pub fn find_value(buffer: &[u8], from: usize, count: usize, key: &[u8]) -> Option<Part>
    requires { HasPairs buffer.now from count }
    ensures { ValueAt buffer.now (value_for key.now (pairs_at buffer.now from count)) result }
{
    let mut at = from;
    for _ in 0..count {
        let pair = pair_at(buffer, at);
        if is_word(buffer, pair.from, pair.to, key) {
            return Some(Part {
                from: pair.value,
                to: pair.end,
            });
        }
        at = pair.end;
    }
    None
}
