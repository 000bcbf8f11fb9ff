// The keys that an order must carry.  [02 order 6]
ghost use Rattle.sheet.specs.Spans.{LaidOut, order_at};
ghost use Rattle.intake.specs.Spans.{FilledAt};

use sheet::buffer::Part;
use sheet::layout::Layout;
use sheet::search::find_value;

// The value with a key in a good order; none where it is missing or empty.
pub fn find_filled(order: &[u8], layout: Layout, key: &[u8]) -> Option<Part>
    requires { LaidOut order.now layout }
    ensures { FilledAt order.now key.now (order_at order.now layout) result }
{
    let value = find_value(order, layout.title + 1, layout.count, key)?;
    if value.to <= value.from {
        return None;
    }
    Some(value)
}
