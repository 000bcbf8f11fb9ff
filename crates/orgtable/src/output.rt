ghost use Rattle.std.specs.Prelude.{[], ◌∷◌, ◌++◌, ◌≡◌, ◌+◌, ◌*◌, ◌≤◌, length, IfOk, IfSome};
ghost use Rattle.text.specs.Runs.{word};
ghost use Rattle.text.specs.Limits.{text_limit};
ghost use Rattle.table.specs.Records.{record_size};
ghost use Rattle.reading.specs.Answers.{number, count};
ghost use Rattle.orgtable.specs.Input.{printed_input};
ghost use Rattle.orgtable.specs.Output.{IsPrinted};
ghost use Rattle.orgtable.specs.Printed.{decimal, line, record_lines, refused, printed, printed_text, shown, cell_size, line_size, page_size};

use crate::page::Page;
use crate::trouble::Trouble;
use reading::answer::Refusal;
use reading::read::read;
use std::io;
use std::io::Write;
use table::record;
use text::number;

impl Page {
    // The digits of a number: those of its tenth, and the last. By hand, since `write!` answers an error, which cannot come here.
    fn push_number(&mut self, n: u64)
        requires { length self.old + length (decimal n) ≤ page_size }
        ensures { self.new ≡ self.old ++ decimal n }
    {
        if n < 10 {
            return self.push(b'0' + n as u8);
        }
        self.push_number(n / 10);
        self.push(b'0' + (n % 10) as u8);
    }

    // A number of a table and the byte after it: at most 11 bytes.
    fn push_cell(&mut self, n: u32, after: u8)
        requires { length self.old + cell_size ≤ page_size }
        ensures page { self.new ≡ self.old ++ decimal n ++ after ∷ [] }
        ensures upper_bound { length self.new ≤ length self.old + cell_size }
    {
        self.push_number(u64::from(n));
        self.push(after);
    }

    // The line of a record's eight numbers: at most 88 bytes.
    fn push_line(&mut self, numbers: &[u32])
        requires { (length self.old + line_size ≤ page_size) × (length numbers.now ≡ record_size) }
        ensures page { self.new ≡ self.old ++ line numbers.now }
        ensures upper_bound { length self.new ≤ length self.old + line_size }
    {
        for n in &numbers[..record::LINE] {
            self.push_cell(*n, b' ');
        }
        self.push_cell(numbers[record::LINE], b'\n');
    }

    // The first records of a table, a line each.
    fn push_table(&mut self, table: &[u32], count: usize)
        requires { (count * record_size ≤ length table.now) × (length self.old + count * line_size ≤ page_size) }
        ensures { self.new ≡ self.old ++ record_lines count table.now }
    {
        for i in 0..count {
            let at = i * record::SIZE;
            self.push_line(&table[at..at + record::SIZE]);
        }
    }

    // The start of a refusal's line.
    fn push_refused(&mut self, number: u32)
        requires { length self.old + 28 ≤ page_size }
        ensures page { self.new ≡ self.old ++ word "refused " ++ decimal number }
        ensures upper_bound { length self.new ≤ length self.old + 28 }
    {
        self.push_all(b"refused ");
        self.push_number(u64::from(number));
    }

    // A refusal's line.
    fn push_refusal(&mut self, number: u32)
        requires { length self.old + 29 ≤ page_size }
        ensures { self.new ≡ self.old ++ refused (number ∷ []) }
    {
        self.push_refused(number);
        self.push(b'\n');
    }

    // The line of a refusal that says how many records are needed.
    fn push_need(&mut self, number: u32, count: usize)
        requires { length self.old + 50 ≤ page_size }
        ensures { self.new ≡ self.old ++ refused (number ∷ count ∷ []) }
    {
        self.push_refused(number);
        self.push(b' ');
        self.push_number(count as u64);
        self.push(b'\n');
    }

    // What is printed for an answer and the table that it left.
    fn push_answer(&mut self, answer: Result<usize, Refusal>, table: &[u32])
        requires room { (length self.old + 50 ≤ page_size) × (length self.old + shown answer * line_size ≤ page_size) }
        requires records { shown answer * record_size ≤ length table.now }
        ensures { self.new ≡ self.old ++ printed (number answer) (count answer) table.now }
    {
        match answer {
            Ok(count) => self.push_table(table, count),
            Err(Refusal::TooLong) => self.push_refusal(number::TOO_LONG),
            Err(Refusal::TooDeep) => self.push_refusal(number::TOO_DEEP),
            Err(Refusal::NoRoom(count)) => self.push_need(number::NO_ROOM, count),
        }
    }

    // What is printed for a text, read into a table: at most 11 bytes a number, or a refusal of at most 50.
    fn push_reading(&mut self, text: &[u8], table: &mut [u32])
        requires { (length self.old + 50 ≤ page_size) × (length self.old + length table.old * cell_size ≤ page_size) }
        ensures { self.new ≡ self.old ++ printed_text text.now table.old }
    {
        let answer = read(text, table);
        self.push_answer(answer, table);
    }

    // What is printed for the bytes of the buffer that are in use, or for more of them; nothing where the input could not be read. The buffer holds the
    // longest text, so what does not fit is too long.
    fn push_input(&mut self, input: io::Result<Option<usize>>, buffer: &[u8], table: &mut [u32])
        requires in_buffer { IfOk input (λ used. IfSome used (λ k. k ≤ length buffer.now)) }
        requires room { (length self.old + 50 ≤ page_size) × (length self.old + length table.old * cell_size ≤ page_size) }
        ensures { self.new ≡ self.old ++ printed_input input buffer.now table.old }
    {
        let Ok(fits) = input else {
            return;
        };
        match fits {
            Some(used) => self.push_reading(&buffer[..used], table),
            None => self.push_refusal(number::TOO_LONG),
        }
    }
}

// Writes the bytes, or a part of them from the front where a write takes nothing or fails. The program
// catches no signal, so none interrupts a write: any error is a failed one.
pub fn print<W: Write>(to: &mut W, bytes: &[u8]) -> Result<(), Trouble>
    ensures { IsPrinted result (W.contents to.old) (W.contents to.new) bytes.now }
{
    let mut done = 0;
    // It goes on by what was written, no index by one.
    while done < bytes.len() {
        let Ok(count) = to.write(&bytes[done..]) else {
            return Err(Trouble::Unwritten);
        };
        if count == 0 {
            return Err(Trouble::Unwritten);
        }
        done += count;
    }
    Ok(())
}

// Prints what is printed for what standard input came to, read into a table of 16,384 numbers.  [01 "What the reader covers"]
pub fn print_input<W: Write>(
    to: &mut W,
    input: io::Result<Option<usize>>,
    buffer: &[u8],
    table: &mut [u32],
) -> Result<(), Trouble>
    requires in_buffer { IfOk input (λ used. IfSome used (λ k. k ≤ length buffer.now)) }
    requires buffer_len { length buffer.now ≡ text_limit }
    requires table_len { length table.old ≡ 16384 }
    ensures { IsPrinted result (W.contents to.old) (W.contents to.new) (printed_input input buffer.now table.old) }
{
    let mut page = Page::new();
    page.push_input(input, buffer, table);
    print(to, page.as_slice())
}
