// Questions at the door that need no more of a state than its head, each list in its order: 3 to 5 of a plan, 6 to 10
// of a campaign, 11 to 14 of a view, 11 and 15 of a mark. The first "no" is the refusal.
#![tactic(auto)]

ghost use Rattle.std.specs.Prelude.{◌≡◌, ◌≤◌};
ghost use Rattle.campaigns.specs.Cited.{max_column};
ghost use Rattle.questions.specs.Questions.{first_failed, verdict, plan_questions, add_questions, view_questions};
ghost use Rattle.questions.specs.Questions.{mark_questions};

use campaigns::{Head, Plan, Terms, View};
use refusal::Refusal;

// Questions 3 to 5. The last is looked up in the table, unless `deepest` already tells yes: a constant table is written
// to the stack at each use.
#[tactic(auto, unfolding(crate::specs::Questions::first_failed))]
pub fn plan_question(plan: Plan) -> Result<(), Refusal>
    ensures { result ≡ verdict (first_failed (plan_questions plan)) }
{
    if !plan.depth_fits() {
        return Err(Refusal::DEPTH);
    }
    if !plan.width_fits() {
        return Err(Refusal::WIDTH);
    }
    if plan.depth <= powers::deepest(plan.width) {
        return Ok(());
    }
    if powers::power(plan.width, plan.depth) == 0 {
        return Err(Refusal::POWER);
    }
    Ok(())
}

// Questions 6 to 10.
#[tactic(auto, unfolding(crate::specs::Questions::first_failed))]
pub fn add_question(head: Head, t: Terms, budgets: u64) -> Result<(), Refusal>
    requires { budgets ≤ max_column }
    ensures { result ≡ verdict (first_failed (add_questions head t budgets)) }
{
    if !head.phase.filling() {
        return Err(Refusal::NOT_FILLING);
    }
    if Plan::MAX_CAMPAIGNS <= head.count {
        return Err(Refusal::CAMPAIGNS);
    }
    if !t.price_fits() {
        return Err(Refusal::PRICE);
    }
    if !t.budget_fits() {
        return Err(Refusal::BUDGET);
    }
    if Terms::MAX_BUDGET < budgets + t.budget {
        return Err(Refusal::BUDGETS);
    }
    Ok(())
}

// Questions 11 to 14. A paused name is a name for 13, and none for 14.
#[tactic(auto, unfolding(crate::specs::Questions::first_failed, crate::specs::Questions::width_holds))]
pub fn view_question(head: Head, view: View) -> Result<(), Refusal>
    ensures { result ≡ verdict (first_failed (view_questions head view)) }
{
    if !head.phase.running() {
        return Err(Refusal::NOT_RUNNING);
    }
    if Plan::MAX_VIEWS <= head.accepted {
        return Err(Refusal::VIEWS);
    }
    if !sets::within(view.set, head.count) {
        return Err(Refusal::OUTSIDE);
    }
    let unpaused = sets::without(view.set, head.paused);
    if head.plan.width < sets::count(unpaused) {
        return Err(Refusal::NAMES);
    }
    Ok(())
}

// Questions 11 and 15, of a pausing or a resuming.
#[tactic(auto, unfolding(crate::specs::Questions::first_failed))]
pub fn mark_question(head: Head, campaign: u64) -> Result<(), Refusal>
    ensures { result ≡ verdict (first_failed (mark_questions head campaign)) }
{
    if !head.phase.running() {
        Err(Refusal::NOT_RUNNING)
    } else if head.count <= campaign {
        Err(Refusal::NO_CAMPAIGN)
    } else {
        Ok(())
    }
}
