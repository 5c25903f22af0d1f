// What holds of all plans.
ghost use Rattle.std.specs.Prelude.{◌≡◌, true};
ghost use Rattle.tplg_plan.specs.declared.plans.Plan.{Plan};
ghost use Rattle.tplg_same.specs.SamePlan.{IsSamePlan};
ghost use Rattle.tplg_same.specs.SameTest.{same_plans};

/// The test on two plans tells exactly whether they are the same but for what no source carries.
pub fn plans_are_told_apart()
    ensures told { (p q : Plan) → same_plans p q ≡ true → IsSamePlan p q }
    ensures all { (p q : Plan) → IsSamePlan p q → same_plans p q ≡ true }
{}
