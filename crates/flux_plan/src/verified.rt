//! Plans that were looked through.

ghost use Rattle.std.specs.Prelude.{◌≡◌};
ghost use Rattle.flux_plan.specs.Faulty.{IsVerified, IsSized};

use crate::plans::Plan;
use std::marker::Model;

/// A plan without a faulty place, seen as that plan.
pub struct VerifiedPlan {
    plan: Plan,
}

impl Drop for VerifiedPlan {
    fn drop(self) {
        let VerifiedPlan { plan } = self;
    }
}

impl Model for VerifiedPlan {
    ghost use Rattle.flux_plan.specs.declared.plans.Plan.{Plan};
    ghost use Rattle.flux_plan.specs.Faulty.{IsVerifiedPlan};

    ghost Value = { Plan };

    ghost view = { λ v. v.plan };

    ghost invariant = { λ v. IsVerifiedPlan v.plan };
}

impl VerifiedPlan {
    /// A plan that is known to have no faulty place.
    pub fn new(plan: Plan) -> VerifiedPlan
        requires verified { IsVerified plan }
        requires sized { IsSized plan }
        ensures { result ≡ plan }
    {
        VerifiedPlan { plan }
    }

    pub fn as_plan(&self) -> &Plan
        ensures same { result.now ≡ self.now }
        ensures verified { IsVerified self.now }
        ensures sized { IsSized self.now }
    {
        &self.plan
    }
}
