// The four figures of an element or an inflow, and their judgement by the ceiling.
#![tactic(auto)]

ghost use Rattle.std.specs.Prelude.{◌≡◌};
ghost use Rattle.refusal.specs.Answers.{answer_of};
ghost use Rattle.method.specs.Figures.{discharge, variance, figures, AnsweredFiguresFit};
ghost use Rattle.method.specs.Inflow.{inflow_answer};

use refusal::Refusal;
use units::{Discharge, Variance};
use weighting::Estimate;

// What an element holds or takes in: discharge and variance, each with its margin.
#[repr(C)]
#[derive(Clone, Copy)]
pub struct Figures {
    pub discharge: Discharge,
    pub discharge_margin: Discharge,
    pub variance: Variance,
    pub variance_margin: Variance,
}

impl Figures {
    // Of nothing: the sums of an inflow before anything drains in.
    pub const NONE: Figures = Figures {
        discharge: Discharge(0),
        discharge_margin: Discharge(0),
        variance: Variance(0),
        variance_margin: Variance(0),
    };

    // The figures of a discharge and a variance, or the refusal of a number that passes the ceiling.
    #[tactic(auto, unfolding(crate::specs::Inflow::inflow_answer, crate::specs::Inflow::inflow_numbers, crate::specs::Figures::AnsweredFiguresFit, units::specs::Ceiling::under_ceiling, units::specs::Ceiling::some_passes))]
    pub fn new(q: Estimate, v: Estimate) -> Result<Figures, Refusal>
        ensures { (answer_of result ≡ inflow_answer (figures q v)) × AnsweredFiguresFit result }
    {
        let discharge = Discharge::new(q.value)?;
        let discharge_margin = Discharge::new(q.margin)?;
        let variance = Variance::new(v.value)?;
        let variance_margin = Variance::new(v.margin)?;
        Ok(Figures {
            discharge,
            discharge_margin,
            variance,
            variance_margin,
        })
    }

    pub fn discharge_estimate(self) -> Estimate
        ensures { result ≡ discharge self }
    {
        Estimate {
            value: self.discharge.0,
            margin: self.discharge_margin.0,
        }
    }

    pub fn variance_estimate(self) -> Estimate
        ensures { result ≡ variance self }
    {
        Estimate {
            value: self.variance.0,
            margin: self.variance_margin.0,
        }
    }
}
