//! The word of a task: its place, the claim bit and its block count.
//!
//! | Bits | Content |
//! |---|---|
//! | 0 to 2 | 0 away, 1 contending, 2 non-contending, 3 inactive, 4 gone |
//! | 3 | whether the task is claimed |
//! | 4 to 11 | its runqueue; 0 where it is on none |
//! | 12 to 35 | its block count |

ghost use Rattle.std.specs.Prelude.{◌≡◌, ◌≢◌, ◌↔◌, IsTrue, IsNone, Some};
ghost use Rattle.grub_book.specs.declared.place.Place.{Place};
ghost use Rattle.grub_table.specs.declared.task.TaskWord.{TaskWord};
ghost use Rattle.grub_table.specs.Words.{state_code, queue_code, task_word, PlaceFits, TaskFits};

use crate::bits::{field, join};
use grub_book::{COUNT_MAX, Place, QUEUES_MAX, State};

/// What the word of a task says.
#[derive(Clone, Copy, Debug, PartialEq, Eq)]
pub struct TaskWord {
    /// Where the task is.
    pub place: Place,

    /// Whether someone holds the right to change the task.
    pub claimed: bool,

    /// How often the task has blocked and waited: the ticket of the latest such block.
    pub count: u32,
}

/// Whether the task has a word: its runqueue is 0 to 63, and its block count at most 16777215.
pub fn task_fits(task: TaskWord) -> bool
    ensures { IsTrue result ↔ TaskFits task }
{
    let there = match task.place {
        Place::Away | Place::Gone => true,
        Place::On(r, _) => (r as usize) < QUEUES_MAX,
    };
    there && task.count <= COUNT_MAX
}

/// The word of the task.
pub fn pack_task(task: TaskWord) -> u64
    requires { TaskFits task }
    ensures { result ≡ task_word task.place task.count task.claimed }
{
    let (code, r) = codes_of(task.place);
    let state = join(code, 3, u64::from(task.claimed));
    let place = join(state, 4, r);
    join(place, 12, u64::from(task.count))
}

/// The one task that has this word; none where there is none.
pub fn unpack_task(word: u64) -> Option<TaskWord>
    ensures found { (t : TaskWord) → (result ≡ Some t)
        ↔ (TaskFits t × (task_word t.place t.count t.claimed ≡ word)) }
    ensures none { IsNone result
        ↔ ((t : TaskWord) → TaskFits t → task_word t.place t.count t.claimed ≢ word) }
{
    let count = word >> 12;
    if count > u64::from(COUNT_MAX) {
        return None;
    }
    let place = place_of(field(word, 0, 3), field(word, 4, 8))?;
    Some(TaskWord {
        place,
        claimed: field(word, 3, 1) == 1,
        count: count as u32,
    })
}

/// The codes of a place: its state's and its runqueue's.
fn codes_of(place: Place) -> (u64, u64)
    ensures state { result.0 ≡ state_code place }
    ensures queue { result.1 ≡ queue_code place }
{
    match place {
        Place::Away => (0, 0),
        Place::On(r, State::Contending) => (1, u64::from(r)),
        Place::On(r, State::NonContending) => (2, u64::from(r)),
        Place::On(r, State::Inactive) => (3, u64::from(r)),
        Place::Gone => (4, 0),
    }
}

/// The place of these codes.
fn place_of(code: u64, r: u64) -> Option<Place>
    ensures { (place : Place) → (result ≡ Some place)
        ↔ (PlaceFits place × (state_code place ≡ code) × (queue_code place ≡ r)) }
{
    let state = match code {
        0 if r == 0 => return Some(Place::Away),
        1 => State::Contending,
        2 => State::NonContending,
        3 => State::Inactive,
        4 if r == 0 => return Some(Place::Gone),
        _ => return None,
    };
    if r >= QUEUES_MAX as u64 {
        return None;
    }
    Some(Place::On(r as u32, state))
}
