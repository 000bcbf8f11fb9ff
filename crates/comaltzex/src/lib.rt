// The C interface: numbers in, numbers out. A slice is passed as a pointer and then a length.
#![tactic(auto)]

ghost use Rattle.std.specs.Prelude.{◌≡◌};
ghost use Rattle.text.specs.Number;
ghost use Rattle.dates.specs.Stamps.{date_of};
ghost use Rattle.dates.specs.Planning.{no_stamps};
ghost use Rattle.table.specs.Records.{record_size};
ghost use Rattle.stream.specs.State.{new_stream};
ghost use Rattle.stream.specs.Promises.{Settled, EndSettled};
ghost use Rattle.comaltzex.specs.Numbers.{ReadsAs, LooksUpAs, SourcesAs, SearchesAs, CountsAs, WritesAs, TakesAs, PlaysAs};
ghost use Rattle.comaltzex.specs.Numbers.{found_stamp, stamp_at, plan, plan_at, version};

pub mod stamp;
pub mod value;

use crate::stamp::{MomentNumbers, Stamp, stamp_numbers};
use crate::value::{SourcedValue, Value, sourced_numbers, value_numbers};
use dates::days::{NoDay, days_between};
use dates::planning::Planning;
use dates::read::read_timestamp;
use dates::stamp::{Date, Timestamp};
use intake::call::intake;
use intake::log::intake_log;
use lookup::defaults::lookup_with_defaults;
use lookup::lookup::lookup;
use lookup::planning::{Refusal as Unplanned, planning};
use reading::answer::Refusal;
use reading::read::read;
use rules::opener::search_from;
use sheet::write::write_sheet;
use stream::call::{Streamed, end, piece};
use stream::state::{Stream, new_stream};
use table::record;
use text::number;

// The version of this interface, as specs/Numbers has it.
const VERSION: u32 = 9;

// Both ends of a line that was not found.
const NOWHERE: usize = 0;

// The number of a reading call's answer and its count.
#[repr(C)]
#[derive(Clone, Copy)]
pub struct Reading {
    pub number: u32,
    pub count: usize,
}

// Reads a text into a lent table.
#[unsafe(no_mangle)]
pub extern "C" fn comaltzex_read(text: &[u8], table: &mut [u32]) -> Reading
    ensures { ReadsAs text.now table.old result table.new }
{
    match read(text, table) {
        Ok(n) => answered(number::DONE, n),
        Err(Refusal::TooLong) => answered(number::TOO_LONG, 0),
        Err(Refusal::TooDeep) => answered(number::TOO_DEEP, 0),
        Err(Refusal::NoRoom(n)) => answered(number::NO_ROOM, n),
    }
}

// An answer to a reading call.
fn answered(number: u32, count: usize) -> Reading
    ensures { result ≡ record { number = number; count = count } }
{
    Reading { number, count }
}

// Looks a key up in the property drawer of the heading line that starts at a byte.
#[unsafe(no_mangle)]
pub extern "C" fn comaltzex_lookup(text: &[u8], at: usize, key: &[u8]) -> Value
    ensures { LooksUpAs text.now at key.now result }
{
    value_numbers(lookup(text, at, key))
}

// The same, and where the order's drawer lacks the key, in the drawer of the defaults' first heading.
#[unsafe(no_mangle)]
pub extern "C" fn comaltzex_lookup_with_defaults(
    order: &[u8],
    at: usize,
    defaults: &[u8],
    key: &[u8],
) -> SourcedValue
    ensures { SourcesAs order.now at defaults.now key.now result }
{
    sourced_numbers(lookup_with_defaults(order, at, defaults, key))
}

// What a search for a closer finds: 1 where there is one, else 0; its line's start and end, else 0; and how many lines it compared further.
#[repr(C)]
#[derive(Clone, Copy)]
pub struct ClosingLine {
    pub found: u32,
    pub start: usize,
    pub end: usize,
    pub compared: usize,
}

// Searches for the closer of the block or drawer whose opening line starts at a byte, in a container that ends at a byte.
#[unsafe(no_mangle)]
pub extern "C" fn comaltzex_find_closer(text: &[u8], at: usize, end: usize) -> ClosingLine
    ensures { SearchesAs text.now at end result }
{
    let search = search_from(text, at, end);
    match search.closer {
        Some(closer) => ClosingLine {
            found: 1,
            start: closer.start,
            end: closer.end,
            compared: search.compared,
        },
        None => ClosingLine {
            found: 0,
            start: NOWHERE,
            end: NOWHERE,
            compared: search.compared,
        },
    }
}

// The number of a day count's answer, and the days.
#[repr(C)]
#[derive(Clone, Copy)]
pub struct DayCount {
    pub number: u32,
    pub days: i32,
}

// Days from a date to a second one.
#[unsafe(no_mangle)]
pub extern "C" fn comaltzex_days_between(
    year: u32,
    month: u32,
    day: u32,
    year2: u32,
    month2: u32,
    day2: u32,
) -> DayCount
    ensures { CountsAs (date_of year month day) (date_of year2 month2 day2) result }
{
    let first = Date { year, month, day };
    let second = Date {
        year: year2,
        month: month2,
        day: day2,
    };
    match days_between(first, second) {
        Ok(days) => DayCount {
            number: number::DONE,
            days,
        },
        Err(NoDay) => DayCount {
            number: number::NO_DAY,
            days: 0,
        },
    }
}

// A timestamp's kind, 0 for none, the byte after it, and its two dates.
#[repr(C)]
#[derive(Clone, Copy)]
pub struct FoundStamp {
    pub kind: u32,
    pub end: usize,
    pub first: MomentNumbers,
    pub second: MomentNumbers,
}

// The timestamp that starts at a byte.
#[unsafe(no_mangle)]
pub extern "C" fn comaltzex_timestamp(text: &[u8], at: usize) -> FoundStamp
    ensures { result ≡ stamp_at text.now at }
{
    let to = text.len();
    if to < at {
        return found_stamp(None, 0);
    }
    let stamp = read_timestamp(text, at, to);
    let timestamp = stamp.timestamp;
    found_stamp(timestamp, stamp.end)
}

// A timestamp in numbers, with the byte after it; 0 for none.
fn found_stamp(timestamp: Option<Timestamp>, end: usize) -> FoundStamp
    ensures { result ≡ found_stamp timestamp end }
{
    let stamp = stamp_numbers(timestamp);
    let first = stamp.first;
    let second = stamp.second;
    FoundStamp {
        kind: stamp.kind,
        end: if stamp.kind == 0 { 0 } else { end },
        first,
        second,
    }
}

// The number of a planning call's answer, and the stamps of the three keywords.
#[repr(C)]
#[derive(Clone, Copy)]
pub struct Plan {
    pub number: u32,
    pub closed: Stamp,
    pub deadline: Stamp,
    pub scheduled: Stamp,
}

// The stamps of the planning line of the heading line that starts at a byte.
#[unsafe(no_mangle)]
pub extern "C" fn comaltzex_planning(text: &[u8], at: usize) -> Plan
    ensures { result ≡ plan_at text.now at }
{
    match planning(text, at) {
        Ok(stamps) => planned(stamps),
        Err(Unplanned::TooLong) => no_plan(number::TOO_LONG),
        Err(Unplanned::NoHeading) => no_plan(number::NO_HEADING),
    }
}

fn planned(stamps: Planning) -> Plan
    ensures { result ≡ plan Number.done stamps }
{
    let closed = stamps.closed;
    let deadline = stamps.deadline;
    let scheduled = stamps.scheduled;
    Plan {
        number: number::DONE,
        closed: stamp_numbers(closed),
        deadline: stamp_numbers(deadline),
        scheduled: stamp_numbers(scheduled),
    }
}

// A refusal: no stamps.
fn no_plan(number: u32) -> Plan
    ensures { result ≡ plan number no_stamps }
{
    Plan {
        number,
        closed: stamp_numbers(None),
        deadline: stamp_numbers(None),
        scheduled: stamp_numbers(None),
    }
}

// The number of a sheet's answer and its count.
#[repr(C)]
#[derive(Clone, Copy)]
pub struct Written {
    pub number: u32,
    pub count: usize,
}

// Writes an order's sheet into a lent output.
#[unsafe(no_mangle)]
pub extern "C" fn comaltzex_write_sheet(order: &[u8], out: &mut [u8]) -> Written
    ensures { WritesAs order.now out.old result out.new }
{
    match write_sheet(order, out) {
        Ok(count) => Written {
            number: number::DONE,
            count,
        },
        Err(refusal) => Written {
            number: refusal.number(),
            count: refusal.needed(),
        },
    }
}

// The number of an intake call's answer, and the bytes in use after it.
#[repr(C)]
#[derive(Clone, Copy)]
pub struct Taken {
    pub number: u32,
    pub count: usize,
}

// Takes an order into a book after its bytes in use.
#[unsafe(no_mangle)]
pub extern "C" fn comaltzex_intake(book: &mut [u8], used: usize, order: &[u8]) -> Taken
    ensures { TakesAs book.old used order.now result book.new }
{
    match intake(book, used, order) {
        Ok(count) => Taken {
            number: number::DONE,
            count,
        },
        Err(refusal) => Taken {
            number: refusal.number(),
            count: used,
        },
    }
}

// Takes the orders of a log into a book in turn.
#[unsafe(no_mangle)]
pub extern "C" fn comaltzex_intake_log(book: &mut [u8], used: usize, log: &[u8]) -> Taken
    ensures { PlaysAs book.old used log.now result book.new }
{
    match intake_log(book, used, log) {
        Ok(count) => Taken {
            number: number::DONE,
            count,
        },
        Err(cut) => Taken {
            number: cut.number(),
            count: used,
        },
    }
}

// The state of a book before its first byte.
#[unsafe(no_mangle)]
pub extern "C" fn comaltzex_stream_new() -> Stream
    ensures { result ≡ new_stream }
{
    new_stream()
}

// Takes a piece of a book, and writes the headings whose lines it finishes into a lent list.
#[unsafe(no_mangle)]
pub extern "C" fn comaltzex_stream_piece(state: Stream, bytes: &[u8], list: &mut [u32]) -> Streamed
    ensures { Settled state bytes.now list.old result list.new }
{
    piece(state, bytes, list)
}

// Declares the end of a book, and writes the heading whose line it finishes into a lent list.
#[unsafe(no_mangle)]
pub extern "C" fn comaltzex_stream_end(state: Stream, list: &mut [u32]) -> Streamed
    ensures { EndSettled state list.old result list.new }
{
    end(state, list)
}

// How many numbers of a table a record takes.
#[unsafe(no_mangle)]
pub extern "C" fn comaltzex_record_size() -> usize
    ensures { result ≡ record_size }
{
    record::SIZE
}

// The version of this interface.
#[unsafe(no_mangle)]
pub extern "C" fn comaltzex_version() -> u32
    ensures { result ≡ version }
{
    VERSION
}
