//! What a line asks.
ghost use Rattle.std.specs.Prelude.{◌≡◌, MatchOption};
ghost use Rattle.grub_plan.specs.declared.entry.Ask.TheVariants as asks;
ghost use Rattle.grub_plan.specs.Asked.{ask_of};

use crate::line::Act;
use grub_book::Op;

/// The task and the op that a line of runqueue `r` asks for at moment `m`, where it is no reading.
pub fn call_of(r: u32, m: u32, act: Act) -> Option<(u32, Op)>
    ensures { MatchOption result (ask_of r m act ≡ asks.Read)
        (λ c. ask_of r m act ≡ asks.Call c.0 c.1) }
{
    match act {
        Act::Join(t) => Some((t, Op::Join { r, m })),
        Act::Wake(t) => Some((t, Op::Wake { r, m })),
        Act::Block(t) => Some((t, Op::Block { r, m })),
        Act::Leave(t) => Some((t, Op::Leave)),
        Act::Exit(t) => Some((t, Op::Exit)),
        Act::Run(t, dt) => Some((t, Op::Charge { r, dt })),
        Act::Retune(t, q, p) => Some((t, Op::Retune { q, p })),
        Act::Read => None,
    }
}
