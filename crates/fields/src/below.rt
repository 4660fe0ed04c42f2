// What a telegram is, below its table: a command, an answer or either in words, or why it is refused, with the failed field marked.
use std::fmt::Write;
use telegram::Refusal;
use text::Page;
use verdict::Verdict;
use words::{InWords, Message, put_answer, put_command};

// A column of the table, for the mark of a failed field.
#[derive(Clone, Copy)]
struct Column {
    from: usize,
    width: usize,
}

// How many characters n bytes take, less some.
fn less(n: usize, some: usize) -> usize {
    n.wrapping_mul(16).saturating_sub(some)
}

// The column of the field that a refusal is about, in a table of n bytes.
fn column_of(e: Refusal, n: usize) -> Column {
    let (from, width) = match e {
        Refusal::TooShort => (1, less(n, 1)),
        Refusal::Preamble => (1, 7),
        Refusal::ByteCount => (49, less(n, 49)),
        Refusal::Checksum(_, _) => (less(n, 15), 15),
        Refusal::UnknownCommand => (35, 13),
        Refusal::CastNotAllowed => (9, 19),
        _ => (29, 5),
    };
    Column { from, width }
}

// Appends the mark of a failed field; nothing where there is no table.
fn put_mark(page: &mut Page, e: Refusal, n: usize) {
    if n == 0 || 16 < n {
        return;
    }
    let column = column_of(e, n);
    page.put_times(b' ', column.from);
    page.put_times(b'^', column.width);
    page.put_byte(b'\n');
}

// Appends the line of a command.
fn put_sent(page: &mut Page, m: Message) {
    page.put(b"command: ");
    put_command(page, m);
    page.put_byte(b'\n');
}

// Appends the line of an answer.
fn put_given(page: &mut Page, m: Message) {
    page.put(b"answer: ");
    put_answer(page, m);
    page.put_byte(b'\n');
}

// Appends the verdict of n bytes. What is either has the line of a command and that of an answer.
pub(crate) fn put_verdict(page: &mut Page, v: Verdict, n: usize) {
    match v {
        Verdict::Sent(m) => put_sent(page, m),
        Verdict::Given(m) => put_given(page, m),
        Verdict::Either(m) => {
            put_sent(page, m);
            put_given(page, m);
        }
        Verdict::Unread(e) => {
            put_mark(page, e, n);
            let _ = writeln!(page, "{}", InWords(e));
        }
        Verdict::Neither(command, answer) => {
            put_mark(page, command, n);
            let _ = writeln!(
                page,
                "as a command {}\nas an answer {}",
                InWords(command),
                InWords(answer)
            );
        }
    }
}
