// osp fields: document 002's table of a telegram. docs/TOOL.md has the form.
#![tactic(auto)]

mod below;
mod facts;
mod grid;
mod heads;

use complaint::{Complaint, Status, Subcommand, Voice};
use std::fmt::Write;
use text::{Page, first};
use verdict::Verdict;

// Prints the table and the verdict of n bytes. Of more than 16 only the first 16 are kept and judged: any telegram of more than 12 bytes is
// refused for its first three bytes or for its length, so that these give the refusal of the whole.
fn show<R: Print>(rt: &R, voice: Voice, bytes: &[u8], n: usize) -> Status {
    let mut room = io::buffer();
    let mut page = Page::over(&mut room);
    let v = verdict::judge(bytes);
    if n <= 16 {
        grid::put_table(&mut page, bytes);
    } else {
        let _ = writeln!(page, "{n} bytes; a telegram has 4 to 12");
    }
    below::put_verdict(&mut page, v, n);
    let status = Status::of(matches!(v, Verdict::Unread(_) | Verdict::Neither(_, _)));
    voice.finish(rt, page.written(), status)
}

// The subcommand, on the words behind its name. Answers its status.
pub fn show_fields<R: Print>(rt: &R, arguments: &[u8], err: i32) -> Status {
    let voice = Voice::new(err, Subcommand::Fields);
    let mut room = io::buffer();
    let mut line = Page::over(&mut room);
    line.put_arguments(arguments);
    let mut bytes = [0u8; 16];
    let h = text::reading::hex_at(line.written(), 0, &mut bytes);
    if h.at < line.used {
        return voice.say(Complaint::BytesExpected);
    }
    if line.used == 0 {
        return voice.say(Complaint::TelegramExpected);
    }
    show(rt, voice, first(&bytes, h.count), h.count)
}
