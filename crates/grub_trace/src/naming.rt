//! From the names in lines to the numbers of tasks.

ghost use Rattle.std.specs.Prelude.{◌≡◌};
ghost use Rattle.grub_trace.specs.Naming.{act_in};
ghost use Rattle.grub_trace.specs.Tree.{names_of};
ghost use Rattle.grub_trace.specs.inside.Reading.{IsIndexed, act_map, declarations};

use crate::tasks::Tasks;
use grub_plan::Act;

/// The act of the task with this name, where it is declared.
pub(crate) fn act_in(tasks: &Tasks, act: Act<&[u8]>) -> Option<Act>
    requires { IsIndexed tasks.now }
    ensures { result
        ≡ act_in (names_of (declarations tasks.now)) (act_map (λ w. w.now) (λ n. n) act.entry) }
{
    match act {
        Act::Join(name) => Some(Act::Join(tasks.find(name)?)),
        Act::Wake(name) => Some(Act::Wake(tasks.find(name)?)),
        Act::Block(name) => Some(Act::Block(tasks.find(name)?)),
        Act::Leave(name) => Some(Act::Leave(tasks.find(name)?)),
        Act::Exit(name) => Some(Act::Exit(tasks.find(name)?)),
        Act::Run(name, span) => Some(Act::Run(tasks.find(name)?, span)),
        Act::Retune(name, runtime, period) => {
            Some(Act::Retune(tasks.find(name)?, runtime, period))
        }
        Act::Read => Some(Act::Read),
    }
}
