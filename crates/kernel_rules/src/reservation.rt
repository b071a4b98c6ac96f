//! What an entity reserves.

ghost use Rattle.std.specs.Prelude.{◌≡◌};
ghost use Rattle.kernel_rules.specs.Reservation.{cleared_of, reserved_of, serving_of};

use crate::clock::ratio;
use crate::entity::Entity;
use trace_data::{Budget, Donor, Parameters};

/// The entity with this reservation (`__setparam_dl`).
#[tactic(auto, unfolding(crate::specs::Reservation::reserved_of))]
pub fn reserved(entity: Entity, parameters: Parameters) -> Entity
    ensures { result ≡ reserved_of entity parameters }
{
    let dl_bw = ratio(parameters.dl_runtime, parameters.dl_period);
    Entity {
        parameters,
        dl_bw,
        new_parameters: None,
        ..entity
    }
}

/// The entity without a reservation (`__dl_clear_params`): budget and deadline stay.
#[tactic(auto, unfolding(crate::specs::Reservation::cleared_of))]
pub fn cleared(entity: Entity) -> Entity
    ensures { result ≡ cleared_of entity }
{
    Entity {
        budget: Budget {
            is_throttled: false,
            is_yielded: false,
            ..entity.budget
        },
        is_non_contending: false,
        parameters: Parameters {
            dl_runtime: 0,
            dl_deadline: 0,
            dl_period: 0,
            flags: 0,
        },
        dl_bw: 0,
        ..entity
    }
}

/// By which reservation it is served: its donor's where it is boosted, else its own (`pi_of`).
#[tactic(auto, unfolding(crate::specs::Reservation::serving_of))]
pub fn served_by(entity: Entity) -> Donor
    ensures { result ≡ serving_of entity }
{
    match entity.donor {
        Some(donor) => donor,
        None => Donor {
            dl_runtime: entity.parameters.dl_runtime,
            dl_deadline: entity.parameters.dl_deadline,
            dl_period: entity.parameters.dl_period,
        },
    }
}
