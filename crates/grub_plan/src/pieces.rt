//! The pieces of a report. Each is appended to a vector that has room for it, so no memory is taken.

ghost use Rattle.std.specs.Prelude.{◌≡◌, ◌+◌, ◌≤◌, ◌++◌, length, decimal, codes, vec_len, vec_capacity};
ghost use Rattle.grub_plan.specs.declared.name.TheConstants.{NAME_MAX};
ghost use Rattle.grub_plan.specs.Plans.{IsAskOf};
ghost use Rattle.grub_plan.specs.Texts.{reading_text, op_text, reply_text, server_text, answer_text, ask_text, entry_line, head_line, close_line};

use crate::entry::{Answer, Ask, Entry};
use crate::plan::Plan;
use grub_book::{Op, Reading, Reply};
use text_bytes::{LINE_MAX, append, append_number};

/// The text of no reading is longer.
pub const READING_MAX: usize = 54;

/// The text of no answer is longer.
pub const ANSWER_MAX: usize = 100;

/// The text of no ask is longer.
pub const ASK_MAX: usize = 65;

fn append_pair(out: &mut Vec<u8>, first: &[u8], x: u32, second: &[u8], y: u32)
    requires { vec_len out.old + length first.now + length second.now + 40 ≤ vec_capacity out.old }
    ensures text { out.new.items
        ≡ out.old.items ++ (first.now ++ decimal x ++ second.now ++ decimal y) }
    ensures len { vec_len out.new ≤ vec_len out.old + length first.now + length second.now + 40 }
    ensures room { vec_capacity out.old ≤ vec_capacity out.new }
{
    append_number(out, first, u64::from(x));
    append_number(out, second, u64::from(y));
}

/// Appends the text of a reading.
pub fn append_reading(out: &mut Vec<u8>, reading: Reading)
    requires { vec_len out.old + READING_MAX ≤ vec_capacity out.old }
    ensures text { out.new.items ≡ out.old.items ++ reading_text reading }
    ensures len { vec_len out.new ≤ vec_len out.old + READING_MAX }
    ensures room { vec_capacity out.old ≤ vec_capacity out.new }
{
    append_pair(out, b"running=", reading.running, b" this=", reading.this);
}

fn append_charged(out: &mut Vec<u8>, dq: u64, k: u32, q: u32, d: u32)
    requires { vec_len out.old + ANSWER_MAX ≤ vec_capacity out.old }
    ensures text { out.new.items ≡ out.old.items ++ server_text (codes "charged dq=" ++ decimal dq
        ++ codes " k=" ++ decimal k ++ codes " ") q d }
    ensures len { vec_len out.new ≤ vec_len out.old + ANSWER_MAX }
    ensures room { vec_capacity out.old ≤ vec_capacity out.new }
{
    append_number(out, b"charged dq=", dq);
    append_number(out, b" k=", u64::from(k));
    append_pair(out, b" q=", q, b" d=", d);
}

#[tactic(auto, unfolding(crate::specs::Texts::reply_text))]
fn append_reply(out: &mut Vec<u8>, reply: Reply)
    requires { vec_len out.old + ANSWER_MAX ≤ vec_capacity out.old }
    ensures text { out.new.items ≡ out.old.items ++ reply_text reply }
    ensures len { vec_len out.new ≤ vec_len out.old + ANSWER_MAX }
    ensures room { vec_capacity out.old ≤ vec_capacity out.new }
{
    match reply {
        Reply::Joined { q, d } => append_pair(out, b"joined q=", q, b" d=", d),
        Reply::Woken { q, d } => append_pair(out, b"woken q=", q, b" d=", d),
        Reply::Waiting { ticket, z } => append_pair(out, b"waiting ticket=", ticket, b" z=", z),
        Reply::Asleep => append(out, b"asleep"),
        Reply::Left { r } => append_number(out, b"left ", u64::from(r)),
        Reply::Retired => append(out, b"retired"),
        Reply::Ended => append(out, b"ended"),
        Reply::Charged { dq, k, q, d } => append_charged(out, dq, k, q, d),
        Reply::Retuned => append(out, b"retuned"),
        Reply::Gone => append(out, b"gone"),
        Reply::NotOn => append(out, b"not-on"),
        Reply::AlreadyOn(r) => append_number(out, b"already-on ", u64::from(r)),
        Reply::Elsewhere(r) => append_number(out, b"elsewhere ", u64::from(r)),
        Reply::AlreadyContending => append(out, b"already-contending"),
        Reply::NotContending => append(out, b"not-contending"),
        Reply::StillContending => append(out, b"still-contending"),
        Reply::StillActive => append(out, b"still-active"),
        Reply::Worn => append(out, b"worn"),
        Reply::Stale => append(out, b"stale"),
        Reply::Early(z) => append_number(out, b"early z=", u64::from(z)),
        Reply::Full => append(out, b"full"),
        Reply::DeadlineOverflow => append(out, b"deadline-overflow"),
    }
}

/// Appends the text of an answer.
#[tactic(auto, unfolding(crate::specs::Texts::answer_text))]
pub fn append_answer(out: &mut Vec<u8>, answer: Answer)
    requires { vec_len out.old + ANSWER_MAX ≤ vec_capacity out.old }
    ensures text { out.new.items ≡ out.old.items ++ answer_text answer }
    ensures len { vec_len out.new ≤ vec_len out.old + ANSWER_MAX }
    ensures room { vec_capacity out.old ≤ vec_capacity out.new }
{
    match answer {
        Answer::Replied(reply) => append_reply(out, reply),
        Answer::Seen(reading) => append_reading(out, reading),
        Answer::Busy => append(out, b"busy"),
        Answer::Lost => append(out, b"lost"),
    }
}

fn append_named(out: &mut Vec<u8>, verb: &[u8], name: &str)
    requires { vec_len out.old + length verb.now + length name.now ≤ vec_capacity out.old }
    ensures text { out.new.items ≡ out.old.items ++ (verb.now ++ name.now) }
    ensures len { vec_len out.new ≡ vec_len out.old + length verb.now + length name.now }
    ensures room { vec_capacity out.old ≤ vec_capacity out.new }
{
    append(out, verb);
    append(out, name.as_bytes());
}

fn append_named_number(out: &mut Vec<u8>, verb: &[u8], name: &str, n: u32)
    requires { vec_len out.old + length verb.now + length name.now + 21 ≤ vec_capacity out.old }
    ensures text { out.new.items
        ≡ out.old.items ++ (verb.now ++ name.now ++ codes " " ++ decimal n) }
    ensures len { vec_len out.new ≤ vec_len out.old + length verb.now + length name.now + 21 }
    ensures room { vec_capacity out.old ≤ vec_capacity out.new }
{
    append_named(out, verb, name);
    append_number(out, b" ", u64::from(n));
}

fn append_retune(out: &mut Vec<u8>, name: &str, q: u32, p: u32)
    requires { vec_len out.old + length name.now + 49 ≤ vec_capacity out.old }
    ensures text { out.new.items ≡ out.old.items
        ++ (codes "retune " ++ name.now ++ codes " " ++ decimal q ++ codes " " ++ decimal p) }
    ensures len { vec_len out.new ≤ vec_len out.old + length name.now + 49 }
    ensures room { vec_capacity out.old ≤ vec_capacity out.new }
{
    append_named_number(out, b"retune ", name, q);
    append_number(out, b" ", u64::from(p));
}

#[tactic(auto, unfolding(crate::specs::Texts::op_text))]
fn append_op(out: &mut Vec<u8>, name: &str, op: Op)
    requires room { vec_len out.old + ASK_MAX ≤ vec_capacity out.old }
    requires short { length name.now ≤ NAME_MAX }
    ensures text { out.new.items ≡ out.old.items ++ op_text name.now op }
    ensures len { vec_len out.new ≤ vec_len out.old + ASK_MAX }
    ensures room { vec_capacity out.old ≤ vec_capacity out.new }
{
    match op {
        Op::Join { .. } => append_named(out, b"join ", name),
        Op::Wake { .. } => append_named(out, b"wake ", name),
        Op::Block { .. } => append_named(out, b"block ", name),
        Op::Leave => append_named(out, b"leave ", name),
        Op::Timer { ticket, .. } => append_named_number(out, b"timer ", name, ticket),
        Op::Exit => append_named(out, b"exit ", name),
        Op::Charge { dt, .. } => append_named_number(out, b"run ", name, dt),
        Op::Retune { q, p } => append_retune(out, name, q, p),
    }
}

/// Appends the text of an ask, whose task is to be one of the plan's.
#[tactic(auto, unfolding(crate::specs::Texts::ask_text))]
pub fn append_ask(out: &mut Vec<u8>, plan: &Plan, ask: Ask)
    requires task { IsAskOf (length plan.now.setup.tasks) ask }
    requires room { vec_len out.old + ASK_MAX ≤ vec_capacity out.old }
    ensures text { out.new.items ≡ out.old.items ++ ask_text plan.now.names ask }
    ensures len { vec_len out.new ≤ vec_len out.old + ASK_MAX }
    ensures room { vec_capacity out.old ≤ vec_capacity out.new }
{
    match ask {
        Ask::Call { t, op } => append_op(out, plan.name(t), op),
        Ask::Read => append(out, b"read"),
    }
}

/// Appends the line of an entry.
#[tactic(auto, unfolding(crate::specs::Texts::entry_line))]
pub fn append_entry(out: &mut Vec<u8>, plan: &Plan, entry: Entry)
    requires task { IsAskOf (length plan.now.setup.tasks) entry.ask }
    requires room { vec_len out.old + LINE_MAX ≤ vec_capacity out.old }
    ensures text { out.new.items ≡ out.old.items ++ entry_line plan.now.names entry }
    ensures len { vec_len out.new ≤ vec_len out.old + LINE_MAX }
    ensures room { vec_capacity out.old ≤ vec_capacity out.new }
{
    append_number(out, b"at ", u64::from(entry.m));
    append(out, b" ");
    append_ask(out, plan, entry.ask);
    append(out, b": ");
    append_answer(out, entry.answer);
    append(out, b"\n");
}

/// Appends the first line of a runqueue's report.
#[tactic(auto, unfolding(crate::specs::Texts::head_line))]
pub fn append_head(out: &mut Vec<u8>, r: u32)
    requires { vec_len out.old + LINE_MAX ≤ vec_capacity out.old }
    ensures text { out.new.items ≡ out.old.items ++ head_line r }
    ensures room { vec_capacity out.old ≤ vec_capacity out.new }
{
    append_number(out, b"runqueue ", u64::from(r));
    append(out, b"\n");
}

/// Appends the last line of a report.
#[tactic(auto, unfolding(crate::specs::Texts::close_line))]
pub fn append_close(out: &mut Vec<u8>, closing: Reading)
    requires { vec_len out.old + LINE_MAX ≤ vec_capacity out.old }
    ensures text { out.new.items ≡ out.old.items ++ close_line closing }
    ensures room { vec_capacity out.old ≤ vec_capacity out.new }
{
    append(out, b"close ");
    append_reading(out, closing);
    append(out, b"\n");
}
