//! The row of a step: its fields with tabs between them.

ghost use Rattle.std.specs.Prelude.{◌≡◌, ◌+◌, ◌≤◌, ◌++◌, ◌∷◌, length, decimal, codes, vec_len, vec_capacity};
ghost use Rattle.std.specs.List.{flat_map, join_with_byte};
ghost use Rattle.grub_plan.specs.declared.name.TheConstants.{NAME_MAX};
ghost use Rattle.grub_plan.specs.Plans.{IsAskOf};
ghost use Rattle.grub_timeline.specs.Fitting.{IsToldIn};
ghost use Rattle.grub_views.specs.Rows.{answer_numbers, answer_word, arg_field, ask_word, asked_fields, number_field, number_fields, reply_numbers, reply_word, step_row, task_field};

use grub_book::{Op, Reply};
use grub_plan::{Answer, Ask, Plan};
use grub_timeline::Step;
use text_bytes::{LINE_MAX, append, append_number};

/// The numbers of an answer, where it has them.
#[derive(Clone, Copy)]
struct AnswerNumbers {
    /// What was charged.
    dq: Option<u64>,

    /// How often the budget was recharged.
    k: Option<u32>,

    /// The budget.
    q: Option<u32>,

    /// The deadline.
    d: Option<u32>,

    /// The 0-lag time.
    z: Option<u32>,
}

const NO_NUMBERS: AnswerNumbers = AnswerNumbers {
    dq: None,
    k: None,
    q: None,
    d: None,
    z: None,
};

/// No piece of a row is longer: what was asked with the word of the answer, the numbers, one number of them, and an argument.
const ASKED_MAX: usize = 138;

const NUMBERS_MAX: usize = 105;

const OPTIONAL_MAX: usize = 21;

const ARG_MAX: usize = 41;

#[tactic(auto, unfolding(crate::specs::Rows::step_row))]
pub(crate) fn append_step(out: &mut Vec<u8>, plan: &Plan, step: &Step)
    requires told { IsToldIn plan.now.setup step.now.told }
    requires room { vec_len out.old + LINE_MAX ≤ vec_capacity out.old }
    ensures text { out.new.items ≡ out.old.items ++ step_row plan.now.names step.now }
    ensures len { vec_len out.new ≤ vec_len out.old + LINE_MAX }
    ensures room { vec_capacity out.old ≤ vec_capacity out.new }
{
    append_asked(out, plan, step);
    append_numbers(out, numbers_of(step.told.entry.answer));
    append_number(out, b"\t", u64::from(step.reading.running));
    append_number(out, b"\t", u64::from(step.reading.this));
    append(out, b"\n");
}

/// The moment, the runqueue, what was asked, and the word of the answer.
fn append_asked(out: &mut Vec<u8>, plan: &Plan, step: &Step)
    requires told { IsToldIn plan.now.setup step.now.told }
    requires room { vec_len out.old + ASKED_MAX ≤ vec_capacity out.old }
    ensures text { out.new.items
        ≡ out.old.items ++ join_with_byte 9 (asked_fields plan.now.names step.now) }
    ensures len { vec_len out.new ≤ vec_len out.old + ASKED_MAX }
    ensures room { vec_capacity out.old ≤ vec_capacity out.new }
{
    let entry = step.told.entry;
    append_number(out, b"", u64::from(entry.m));
    append_number(out, b"\t", u64::from(step.queue));
    append_field(out, ask_word(entry.ask));
    append_field(out, task_name(plan, entry.ask));
    append(out, b"\t");
    append_arg(out, entry.ask);
    append_field(out, answer_word(entry.answer));
}

fn append_field(out: &mut Vec<u8>, text: &str)
    requires { vec_len out.old + length text.now + 1 ≤ vec_capacity out.old }
    ensures text { out.new.items ≡ out.old.items ++ (9 ∷ text.now) }
    ensures len { vec_len out.new ≡ vec_len out.old + length text.now + 1 }
    ensures room { vec_capacity out.old ≤ vec_capacity out.new }
{
    append(out, b"\t");
    append(out, text.as_bytes());
}

fn append_arg(out: &mut Vec<u8>, ask: Ask)
    requires { vec_len out.old + ARG_MAX ≤ vec_capacity out.old }
    ensures text { out.new.items ≡ out.old.items ++ arg_field ask }
    ensures len { vec_len out.new ≤ vec_len out.old + ARG_MAX }
    ensures room { vec_capacity out.old ≤ vec_capacity out.new }
{
    match ask {
        Ask::Call {
            op: Op::Charge { dt, .. },
            ..
        } => append_number(out, b"", u64::from(dt)),
        Ask::Call {
            op: Op::Timer { ticket, .. },
            ..
        } => append_number(out, b"", u64::from(ticket)),
        Ask::Call {
            op: Op::Retune { q, p },
            ..
        } => append_reservation(out, q, p),
        _ => {}
    }
}

fn append_reservation(out: &mut Vec<u8>, q: u32, p: u32)
    requires { vec_len out.old + ARG_MAX ≤ vec_capacity out.old }
    ensures text { out.new.items ≡ out.old.items ++ (decimal q ++ codes "/" ++ decimal p) }
    ensures len { vec_len out.new ≤ vec_len out.old + ARG_MAX }
    ensures room { vec_capacity out.old ≤ vec_capacity out.new }
{
    append_number(out, b"", u64::from(q));
    append_number(out, b"/", u64::from(p));
}

fn append_numbers(out: &mut Vec<u8>, numbers: AnswerNumbers)
    requires { vec_len out.old + NUMBERS_MAX ≤ vec_capacity out.old }
    ensures text { out.new.items ≡ out.old.items ++ flat_map (λ f. 9 ∷ f) (number_fields numbers) }
    ensures len { vec_len out.new ≤ vec_len out.old + NUMBERS_MAX }
    ensures room { vec_capacity out.old ≤ vec_capacity out.new }
{
    append_optional(out, numbers.dq);
    append_optional(out, numbers.k.map(u64::from));
    append_optional(out, numbers.q.map(u64::from));
    append_optional(out, numbers.d.map(u64::from));
    append_optional(out, numbers.z.map(u64::from));
}

fn append_optional(out: &mut Vec<u8>, number: Option<u64>)
    requires { vec_len out.old + OPTIONAL_MAX ≤ vec_capacity out.old }
    ensures text { out.new.items ≡ out.old.items ++ (9 ∷ number_field number) }
    ensures len { vec_len out.new ≤ vec_len out.old + OPTIONAL_MAX }
    ensures room { vec_capacity out.old ≤ vec_capacity out.new }
{
    match number {
        Some(n) => append_number(out, b"\t", n),
        None => append(out, b"\t"),
    }
}

fn task_name(plan: &Plan, ask: Ask) -> &str
    requires { IsAskOf (length plan.now.setup.tasks) ask }
    ensures name { result.now ≡ task_field plan.now.names ask }
    ensures short { length result.now ≤ NAME_MAX }
{
    match ask {
        Ask::Call { t, .. } => plan.name(t),
        Ask::Read => "",
    }
}

#[tactic(auto, unfolding(grub_plan::specs::Texts::ask_text, grub_plan::specs::Texts::op_text))]
fn ask_word(ask: Ask) -> &'static str
    ensures word { result.now ≡ ask_word ask }
    ensures short { length result.now ≤ 18 }
{
    let Ask::Call { op, .. } = ask else {
        return "read";
    };
    match op {
        Op::Join { .. } => "join",
        Op::Wake { .. } => "wake",
        Op::Block { .. } => "block",
        Op::Leave => "leave",
        Op::Timer { .. } => "timer",
        Op::Exit => "exit",
        Op::Charge { .. } => "run",
        Op::Retune { .. } => "retune",
    }
}

fn answer_word(answer: Answer) -> &'static str
    ensures word { result.now ≡ answer_word answer }
    ensures short { length result.now ≤ 18 }
{
    match answer {
        Answer::Replied(reply) => reply_word(reply),
        Answer::Seen(_) => "read",
        Answer::Busy => "busy",
        Answer::Lost => "lost",
    }
}

#[tactic(auto, unfolding(grub_plan::specs::Texts::reply_text))]
fn reply_word(reply: Reply) -> &'static str
    ensures word { result.now ≡ reply_word reply }
    ensures short { length result.now ≤ 18 }
{
    match reply {
        Reply::Joined { .. } => "joined",
        Reply::Woken { .. } => "woken",
        Reply::Waiting { .. } => "waiting",
        Reply::Asleep => "asleep",
        Reply::Left { .. } => "left",
        Reply::Retired => "retired",
        Reply::Ended => "ended",
        Reply::Charged { .. } => "charged",
        Reply::Retuned => "retuned",
        Reply::Gone => "gone",
        Reply::NotOn => "not-on",
        Reply::AlreadyOn(_) => "already-on",
        Reply::Elsewhere(_) => "elsewhere",
        Reply::AlreadyContending => "already-contending",
        Reply::NotContending => "not-contending",
        Reply::StillContending => "still-contending",
        Reply::StillActive => "still-active",
        Reply::Worn => "worn",
        Reply::Stale => "stale",
        Reply::Early(_) => "early",
        Reply::Full => "full",
        Reply::DeadlineOverflow => "deadline-overflow",
    }
}

fn numbers_of(answer: Answer) -> AnswerNumbers
    ensures { result ≡ answer_numbers answer }
{
    match answer {
        Answer::Replied(reply) => numbers_told(reply),
        Answer::Seen(_) | Answer::Busy | Answer::Lost => NO_NUMBERS,
    }
}

fn numbers_told(reply: Reply) -> AnswerNumbers
    ensures { result ≡ reply_numbers reply }
{
    match reply {
        Reply::Joined { q, d } | Reply::Woken { q, d } => AnswerNumbers {
            q: Some(q),
            d: Some(d),
            ..NO_NUMBERS
        },
        Reply::Charged { dq, k, q, d } => AnswerNumbers {
            dq: Some(dq),
            k: Some(k),
            q: Some(q),
            d: Some(d),
            z: None,
        },
        Reply::Waiting { z, .. } => AnswerNumbers {
            z: Some(z),
            ..NO_NUMBERS
        },
        _ => NO_NUMBERS,
    }
}
