ghost use Rattle.std.specs.Prelude.{◌≡◌, ◌+◌, ◌≤◌, ◌<◌, length};
ghost use Rattle.text.specs.Parts.{part};
ghost use Rattle.text.specs.Limits.{text_limit};
ghost use Rattle.stream.specs.Steps as spec;
ghost use Rattle.stream.specs.Spans.{Within, Bare, more_stars, MoreOfLine, LastLine, Advances};

use crate::heading::{Heading, heading_of};
use crate::state::Stream;
use rules::heading::next_star_line;
use text::bytes::{Class, find_byte, run_end, trim_end};

// The state after some bytes more, where the next byte stands, and the heading that they finish, if any.
#[derive(Clone, Copy)]
pub struct Progress {
    pub state: Stream,
    pub at: usize,
    pub finished: Option<Heading>,
}

// The state after a byte 10.
fn next_line(state: Stream) -> Stream
    requires { state.total < text_limit }
    ensures { result ≡ spec.next_line state }
{
    Stream {
        total: state.total + 1,
        line: 0,
        stars: 0,
        title: 0,
        ..state
    }
}

// The state after a byte, where the line has been stars alone, or nothing.
fn begin_line(state: Stream, b: u8) -> Stream
    requires { (state.total < text_limit) × (state.line ≤ state.total) × (state.stars ≡ state.line) }
    ensures { result ≡ spec.stepped state b }
{
    if b == 10 {
        return next_line(state);
    }
    Stream {
        total: state.total + 1,
        line: state.line + 1,
        stars: match b {
            b'*' => state.stars + 1,
            32 => state.stars,
            _ => 0,
        },
        ..state
    }
}

// The state after stars, where the line has been stars alone, or nothing.
fn with_stars(state: Stream, n: usize) -> Stream
    requires { (state.total + n ≤ text_limit) × (state.line ≤ state.total) × (state.stars ≡ state.line) }
    ensures { result ≡ more_stars state n }
{
    let size = n as u32;
    Stream {
        total: state.total + size,
        line: state.line + size,
        stars: state.stars + size,
        ..state
    }
}

// Past the stars at a line's front, and the byte after them.
fn pass_stars(state: Stream, bytes: &[u8], at: usize) -> Progress
    requires { Within state bytes.now at × (at < length bytes.now) × (state.stars ≡ state.line) }
    ensures { Advances state bytes.now at result }
{
    let end = run_end(bytes, at, bytes.len(), Class::Star);
    let stars = with_stars(state, end - at);
    if bytes.len() <= end {
        return Progress {
            state: stars,
            at: end,
            finished: None,
        };
    }
    Progress {
        state: begin_line(stars, bytes[end]),
        at: end + 1,
        finished: None,
    }
}

// The length of a heading line's title after some of its bytes: up to the last of them that is non-blank.
fn title_after(state: Stream, bytes: &[u8], from: usize, to: usize) -> u32
    requires { MoreOfLine state bytes.now from to }
    ensures { result ≡ (spec.fed state (part bytes.now from to)).title }
{
    let end = trim_end(bytes, from, to);
    if end <= from {
        return state.title;
    }
    state.line - state.stars - 1 + ((end - from) as u32)
}

// The state after some bytes of a heading line.
fn go_on(state: Stream, bytes: &[u8], from: usize, to: usize) -> Stream
    requires { MoreOfLine state bytes.now from to }
    ensures { result ≡ spec.fed state (part bytes.now from to) }
{
    let more = (to - from) as u32;
    Stream {
        total: state.total + more,
        line: state.line + more,
        title: title_after(state, bytes, from, to),
        ..state
    }
}

// Past the rest of a heading line, or to the piece's end.
fn pass_heading(state: Stream, bytes: &[u8], at: usize) -> Progress
    requires { Within state bytes.now at × (at < length bytes.now) × (0 < state.stars) × (state.stars < state.line) }
    ensures { Advances state bytes.now at result }
{
    let newline = find_byte(bytes, at, bytes.len(), 10);
    let line = go_on(state, bytes, at, newline);
    if bytes.len() <= newline {
        return Progress {
            state: line,
            at: newline,
            finished: None,
        };
    }
    Progress {
        state: next_line(line),
        at: newline + 1,
        finished: heading_of(line),
    }
}

// Where the last line of some bytes starts: after their last byte 10, or where they start.
fn last_line(bytes: &[u8], from: usize, to: usize) -> usize
    requires { (from ≤ to) × (to ≤ length bytes.now) }
    ensures { LastLine bytes.now from to result }
{
    for i in (from..to).rev() {
        if bytes[i] == 10 {
            return i + 1;
        }
    }
    from
}

// Past lines that are none of a heading, to the next that starts with a star, or to the piece's end.
fn pass_lines(state: Stream, bytes: &[u8], at: usize) -> Progress
    requires { Within state bytes.now at × (at < length bytes.now) × Bare state bytes.now at }
    ensures { Advances state bytes.now at result }
{
    let end = next_star_line(bytes, at + 1);
    let start = last_line(bytes, at, end);
    let size = (end - at) as u32;
    let (line, title) = if start <= at {
        (state.line + size, state.title)
    } else {
        ((end - start) as u32, 0)
    };
    Progress {
        state: Stream {
            total: state.total + size,
            line,
            stars: 0,
            title,
            ..state
        },
        at: end,
        finished: None,
    }
}

// Goes on in a piece, by the kind of the unfinished line: past its stars, past a heading line, or past all lines that are none.
pub fn advance(state: Stream, bytes: &[u8], at: usize) -> Progress
    requires { Within state bytes.now at × (at < length bytes.now) }
    ensures { Advances state bytes.now at result }
{
    if state.stars < state.line {
        if state.stars == 0 {
            return pass_lines(state, bytes, at);
        }
        return pass_heading(state, bytes, at);
    }
    if state.stars == 0 {
        if bytes[at] != b'*' {
            return pass_lines(state, bytes, at);
        }
    }
    pass_stars(state, bytes, at)
}
