// Where the parts of an order stand in its buffer.  [02 order 5]
ghost use Rattle.sheet.specs.Spans.{OrderIn};

use crate::buffer::{TEXT_WIDTH, find_sized};
use crate::pairs::are_pairs;

// Pairs of an order, as specs/Buffer has it.
const PAIR_LIMIT: usize = 16;

// Where the title ends, which starts after its length, and how many pairs stand after the count byte.
#[derive(Clone, Copy)]
pub struct Layout {
    pub title: usize,
    pub count: usize,
}

// The order of a buffer; none where it is cut short, long, or of over 16 pairs.
pub fn find_order(buffer: &[u8]) -> Option<Layout>
    ensures { OrderIn buffer.now result }
{
    let title = find_sized(buffer, 0, TEXT_WIDTH)?.to;
    if buffer.len() <= title {
        return None;
    }
    let count = buffer[title] as usize;
    if PAIR_LIMIT < count {
        return None;
    }
    if !are_pairs(buffer, title + 1, count) {
        return None;
    }
    Some(Layout { title, count })
}
