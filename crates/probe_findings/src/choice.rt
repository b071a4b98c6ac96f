//! Which effects explain a value: the smallest set of those that are pending, of equal ones the first in the order of lines.

/// What an effect adds to two sums, modulo 2^64.
#[derive(Clone, Copy)]
pub struct Amount {
    pub this_bw: u64,
    pub running_bw: u64,
}

/// At most so many effects are tried together.
pub const MOST: usize = 4;

/// The places of effects that were picked.
#[derive(Clone, Copy)]
pub struct PickedEffects {
    pub places: [usize; MOST],
    pub count: usize,
}

impl PickedEffects {
    /// Whether this place was picked.
    pub fn contains(&self, place: usize) -> bool {
        let mut is_picked = false;
        for i in 0..MOST {
            if i < self.count && self.places[i] == place {
                is_picked = true;
            }
        }
        is_picked
    }
}

fn with(picked: PickedEffects, place: usize) -> PickedEffects {
    let mut more = picked;
    if more.count < MOST {
        more.places[more.count] = place;
        more.count += 1;
    }
    more
}

fn less(wanted: Amount, amount: Amount) -> Amount {
    Amount {
        this_bw: wanted.this_bw.wrapping_sub(amount.this_bw),
        running_bw: wanted.running_bw.wrapping_sub(amount.running_bw),
    }
}

/// The first set of `count` of these amounts that add up to what is wanted; `place` is the place of the first of them.
fn pick_some(
    amounts: &[Amount],
    place: usize,
    count: usize,
    wanted: Amount,
) -> Option<PickedEffects> {
    match amounts {
        [] => { if count == 0 { nothing(wanted) } else { None } }
        [first, rest @ ..] => {
            if count == 0 {
                return nothing(wanted);
            }
            let next = place.wrapping_add(1);
            match pick_some(rest, next, count - 1, less(wanted, *first)) {
                Some(picked) => Some(with(picked, place)),
                None => pick_some(rest, next, count, wanted),
            }
        }
    }
}

/// No effect, where nothing is wanted.
fn nothing(wanted: Amount) -> Option<PickedEffects> {
    if wanted.this_bw == 0 && wanted.running_bw == 0 {
        Some(PickedEffects {
            places: [0; MOST],
            count: 0,
        })
    } else {
        None
    }
}

/// The smallest set of at most four that add up to what is wanted, of equal ones the first.
pub fn pick(amounts: &[Amount], wanted: Amount) -> Option<PickedEffects> {
    if let Some(picked) = pick_some(amounts, 0, 0, wanted) {
        return Some(picked);
    }
    if let Some(picked) = pick_some(amounts, 0, 1, wanted) {
        return Some(picked);
    }
    if let Some(picked) = pick_some(amounts, 0, 2, wanted) {
        return Some(picked);
    }
    if let Some(picked) = pick_some(amounts, 0, 3, wanted) {
        return Some(picked);
    }
    pick_some(amounts, 0, 4, wanted)
}
