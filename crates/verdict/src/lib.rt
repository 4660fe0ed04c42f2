// What a telegram is: a command, an answer or either, in words, or why it is none.
#![tactic(auto)]

use telegram::{Refusal, Telegram};
use text::Page;
use words::Message;

// A command, an answer or either of them, with its numbers; what the reader refuses, which is no telegram; or a telegram that is neither,
// with its refusals as a command and as an answer.
#[derive(Clone, Copy)]
pub enum Verdict<'a> {
    Sent(Message<'a>),
    Given(Message<'a>),
    Either(Message<'a>),
    Unread(Refusal),
    Neither(Refusal, Refusal),
}

// What the bytes of one telegram are.
pub fn judge(s: &[u8]) -> Verdict<'_> {
    match telegram::read_telegram(s) {
        Ok(t) => judge_telegram(s, t),
        Err(e) => Verdict::Unread(e),
    }
}

// What a telegram that was read is. A command that is not acknowledged is no answer: if it has one, it has no payload.
fn judge_telegram(s: &[u8], t: Telegram) -> Verdict<'_> {
    let m = words::message_in(s, t);
    let sent = command::heading_of(t);
    if sent.is_ok() && !table::is_acknowledged(t.command) {
        return Verdict::Sent(m);
    }
    match (sent, answer::dissect_answer(s)) {
        (Ok(_), Ok(_)) => Verdict::Either(m),
        (Ok(_), Err(_)) => Verdict::Sent(m),
        (Err(_), Ok(_)) => Verdict::Given(m),
        (Err(command), Err(answer)) => Verdict::Neither(command, answer),
    }
}

// Appends the words of a telegram that is accepted, of one that is either both; nothing of one that is refused.
pub fn put_words(page: &mut Page, v: Verdict) {
    match v {
        Verdict::Sent(m) => words::put_command(page, m),
        Verdict::Given(m) => words::put_answer(page, m),
        Verdict::Either(m) => {
            words::put_command(page, m);
            page.put(b", or ");
            words::put_answer(page, m);
        }
        Verdict::Unread(_) | Verdict::Neither(_, _) => {}
    }
}
