ghost use Rattle.std.specs.Prelude.{◌≡◌, true, false, ◌+◌, ◌≤◌};
ghost use Rattle.text.specs.Limits.{depth_limit};
ghost use Rattle.table.specs.Records.{numbers_of};
ghost use Rattle.reading.specs.Walk.{Small, state, sink_of, absorb, entry, far};

use table::record;
use table::record::Record;
use text::limit;

// The end of every record stream: it counts the records, writes them in the writing mode, and once stopped takes no more.
// Flags, and no Option of a sink: no plainer, as each contract of the walk would say apart what a stop leaves, and each call end in `?`.
#[derive(Clone, Copy)]
pub struct Sink {
    pub count: usize,
    pub writing: bool,
    pub stopped: bool,
}

impl Sink {
    // A sink that has taken so many records.
    pub fn after(count: usize, writing: bool) -> Sink
        ensures { result ≡ sink_of count writing false }
    {
        Sink {
            count,
            writing,
            stopped: false,
        }
    }

    // The sink, stopped.
    fn stop(self) -> Sink
        ensures { result ≡ sink_of self.count self.writing true }
    {
        Sink {
            stopped: true,
            ..self
        }
    }
}

// A record's numbers, in their order in the table.
fn numbers(r: Record) -> [u32; record::SIZE]
    requires { Small r }
    ensures { result ≡ numbers_of r }
{
    [
        r.kind as u32,
        r.start as u32,
        r.end as u32,
        r.from as u32,
        r.to as u32,
        r.parent as u32,
        r.detail as u32,
        r.line as u32,
    ]
}

// One record more, of a depth. A depth of 33 stops the sink, and so does a record that has no room in the writing mode.
pub fn emit(table: &mut [u32], sink: Sink, r: Record, depth: usize) -> Sink
    requires { Small r × (sink.count ≤ far) }
    ensures result_after { state table.new result ≡ absorb (state table.old sink) (entry r depth) }
    ensures count_bound { result.count ≤ sink.count + 1 }
    ensures depth_le_depth_limit { result.stopped ≡ false → depth ≤ depth_limit }
{
    if sink.stopped {
        return sink;
    }
    if limit::DEPTH < depth {
        return sink.stop();
    }
    if sink.writing {
        let at = sink.count * record::SIZE;
        let end = at + record::SIZE;
        if table.len() < end {
            return sink.stop();
        }
        table[at..end].copy_from_slice(&numbers(r));
    }
    Sink {
        count: sink.count + 1,
        ..sink
    }
}
