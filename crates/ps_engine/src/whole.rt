//! Whole numbers from a basis.

use crate::basis_system::BasisSystem;
use ps_answer::{Model, Weighted};
use ps_float_pricing::{Aim, Member, Multipliers, Relaxed, WorldPool, is_given, is_true};
use ps_io::{List, NoMemory};
use ps_lifting::Solution;
use std::alloc::{AllocError, Global};

/// What the whole values of a basis are.
#[derive(Drop)]
pub(crate) enum Values {
    /// A distribution.
    Model(WholeModel),
    /// A value is below 0.
    Negative,
}

/// A distribution, and what the query's numbers are in it.
#[derive(Drop)]
pub(crate) struct WholeModel {
    pub(crate) model: Model,
    /// The weight of the worlds where query and evidence are true.
    pub(crate) both: i128,
    /// The weight of the worlds where the evidence is true.
    pub(crate) given: i128,
}

impl WholeModel {
    /// Without worlds.
    pub(crate) fn new(alloc: Global) -> WholeModel {
        WholeModel {
            model: Model {
                total: 0,
                worlds: List::new(alloc),
            },
            both: 0,
            given: 0,
        }
    }

    /// Adds a world.
    pub(crate) fn add(
        &mut self,
        alloc: Global,
        aim: Aim,
        member: &Member,
        weight: i128,
    ) -> Result<(), NoMemory> {
        self.model.total = self.model.total.wrapping_add(weight);
        if is_given(&member.truth, aim.evidence()) {
            self.given = self.given.wrapping_add(weight);
        }
        if let Some(query) = aim.query() {
            if is_true(&member.truth, query.both) {
                self.both = self.both.wrapping_add(weight);
            }
        }
        self.model.worlds.push(Weighted {
            weight,
            world: member.world.copy(alloc)?,
        })
    }

    /// Whether the probability is the least or the greatest that there is at all.
    pub(crate) fn is_extreme(&self, aim: Aim) -> bool {
        match aim {
            Aim::Consistent => false,
            Aim::Least(_) => self.both == 0,
            Aim::Greatest(_) => self.both == self.given,
        }
    }
}

/// The distribution that gives the basic worlds their values.
pub(crate) fn model_of(
    alloc: Global,
    pool: &WorldPool,
    aim: Aim,
    system: &BasisSystem,
    solution: &Solution,
) -> Result<Values, NoMemory> {
    let mut whole = WholeModel::new(alloc);
    let weights = solution.numerators.as_slice();
    for (place, weight) in system.worlds.iter().zip(weights) {
        if *weight < 0 {
            return Ok(Values::Negative);
        }
        if *weight > 0 {
            if let Some(member) = pool.members().get(*place) {
                whole.add(alloc, aim, member, *weight)?;
            }
        }
    }
    Ok(Values::Model(whole))
}

/// The multipliers of the extreme values 0 and 1.
pub(crate) fn extreme(alloc: Global, aim: Aim, bounds: usize) -> Result<Multipliers, AllocError> {
    let head = match aim {
        Aim::Consistent | Aim::Least(_) => 0,
        Aim::Greatest(_) => 1,
    };
    Multipliers::new(alloc, 1, head, bounds)
}

/// What the whole prices of a basis are.
#[derive(Drop)]
pub(crate) enum Prices {
    /// Multipliers of the rows.
    Multipliers(Multipliers),
    /// The price of this row, which is no equation, is above 0.
    WrongSign(usize),
}

/// The multipliers that the rows' prices are.
pub(crate) fn multipliers_of(
    alloc: Global,
    relaxed: &Relaxed,
    aim: Aim,
    system: &BasisSystem,
    solution: &Solution,
) -> Result<Prices, AllocError> {
    let mut multipliers = Multipliers::new(alloc, solution.denominator, 0, relaxed.bounds())?;
    for (number, price) in system.rows.iter().zip(solution.numerators.as_slice()) {
        if *number == 0 {
            multipliers.head = match aim {
                Aim::Consistent | Aim::Least(_) => *price,
                Aim::Greatest(_) => price.wrapping_neg(),
            };
        } else if let Some(row) = relaxed.rows().get(number.wrapping_sub(1)) {
            if *price > 0 && !row.is_equation() {
                return Ok(Prices::WrongSign(*number));
            }
            multipliers.set(row.number, price.wrapping_mul(row.sign() as i128));
        }
    }
    Ok(Prices::Multipliers(multipliers))
}
