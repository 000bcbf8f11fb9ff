ghost use Rattle.std.specs.Prelude.{◌≡◌, ◌+◌, ◌≤◌, length};
ghost use Rattle.text.specs.Parts.{part};
ghost use Rattle.dates.specs.Reads.{Reads, Ends};
ghost use Rattle.dates.specs.Planning as spec;
ghost use Rattle.text.specs.Maybe.{maybe};
ghost use Rattle.dates.specs.Found.{part_at, stamp_in, placed, PartEnds, PartsIn};

use crate::parts::skip_gap;
use crate::read::read_timestamp;
use crate::span::skip_timestamp;
use crate::stamp::Timestamp;
use text::word::begins_with;

#[derive(Clone, Copy)]
pub enum Keyword {
    Closed,
    Deadline,
    Scheduled,
}

// The stamps of a planning line's keywords, each the last one where its keyword repeats.
#[derive(Clone, Copy)]
pub struct Planning {
    pub closed: Option<Timestamp>,
    pub deadline: Option<Timestamp>,
    pub scheduled: Option<Timestamp>,
}

// The bytes at which those stamps start; the line's end where there is none.
#[derive(Clone, Copy)]
pub struct Places {
    pub closed: usize,
    pub deadline: usize,
    pub scheduled: usize,
}

// A part of a planning line: its keyword, the byte at which its stamp starts, and the byte after it.
#[derive(Clone, Copy)]
pub struct Part {
    pub keyword: Keyword,
    pub stamp: usize,
    pub end: usize,
}

// `CLOSED:`, `DEADLINE:` or `SCHEDULED:`.
fn read_keyword(text: &[u8], at: usize, to: usize) -> Option<(Keyword, usize)>
    requires { (at ≤ to) × (to ≤ length text.now) }
    ensures { Reads text.now at to spec.keyword (maybe result) × Ends (at + 1) to (maybe result) }
{
    if begins_with(text, at, to, b"closed:") {
        return Some((Keyword::Closed, at + 7));
    }
    if begins_with(text, at, to, b"deadline:") {
        return Some((Keyword::Deadline, at + 9));
    }
    if begins_with(text, at, to, b"scheduled:") {
        return Some((Keyword::Scheduled, at + 10));
    }
    None
}

// A keyword, blank bytes and a timestamp of any kind.
fn read_part(text: &[u8], at: usize, to: usize) -> Option<Part>
    requires { (at ≤ to) × (to ≤ length text.now) }
    ensures { Reads text.now at to spec.planning_part (part_at text.now to result) × PartEnds at to result }
{
    let (keyword, a) = read_keyword(text, at, to)?;
    let stamp = skip_gap(text, a, to)?;
    let end = skip_timestamp(text, stamp, to)?;
    Some(Part {
        keyword,
        stamp,
        end,
    })
}

// A part's stamp becomes its keyword's.
fn put(places: Places, keyword: Keyword, at: usize) -> Places
    ensures { result ≡ placed keyword at places }
{
    match keyword {
        Keyword::Closed => Places {
            closed: at,
            ..places
        },
        Keyword::Deadline => Places {
            deadline: at,
            ..places
        },
        Keyword::Scheduled => Places {
            scheduled: at,
            ..places
        },
    }
}

// The parts of a line's body: one or more, with blank bytes between them, and nothing else.
fn read_parts(text: &[u8], from: usize, to: usize) -> Option<Places>
    requires { (from ≤ to) × (to ≤ length text.now) }
    ensures { PartsIn text.now from to result }
{
    let mut places = Places {
        closed: to,
        deadline: to,
        scheduled: to,
    };
    let mut at = from;
    while at < to {
        let part = read_part(text, at, to)?;
        places = put(places, part.keyword, part.stamp);
        let Some(next) = skip_gap(text, part.end, to) else {
            return if part.end == to { Some(places) } else { None };
        };
        at = next;
    }
    None
}

// Whether a line's body is dates all through.
pub fn is_planning(text: &[u8], from: usize, to: usize) -> bool
    requires { (from ≤ to) × (to ≤ length text.now) }
    ensures { result ≡ spec.planning_body (part text.now from to) }
{
    read_parts(text, from, to).is_some()
}

// The timestamp at a byte.
fn stamp_at(text: &[u8], at: usize, to: usize) -> Option<Timestamp>
    requires { (at ≤ to) × (to ≤ length text.now) }
    ensures { result ≡ stamp_in text.now at to }
{
    read_timestamp(text, at, to).timestamp
}

// The stamps of a line's body.
pub fn read_planning(text: &[u8], from: usize, to: usize) -> Planning
    requires { (from ≤ to) × (to ≤ length text.now) }
    ensures { result ≡ spec.planning_stamps (part text.now from to) }
{
    let Some(places) = read_parts(text, from, to) else {
        return Planning {
            closed: None,
            deadline: None,
            scheduled: None,
        };
    };
    Planning {
        closed: stamp_at(text, places.closed, to),
        deadline: stamp_at(text, places.deadline, to),
        scheduled: stamp_at(text, places.scheduled, to),
    }
}
