//! What the form of a thread line is, and what plans that are read are.

ghost use Rattle.std.specs.Prelude.{◌≡◌, ◌↔◌, ℕ, List, Ok, Some};
ghost use Rattle.text_lines.specs.Parts.{words};
ghost use Rattle.wasm_types.specs.declared.modules.Module.{Module};
ghost use Rattle.thread_plan.specs.Plans.{PlanValue, plan_of, IsPlanOf};
ghost use Rattle.thread_plan.specs.Threads.{form_of};
ghost use Rattle.thread_plan.specs.Spelling.{IsThreadLine};

/// A line has this name and these arguments exactly where it is made of them: `thread`, a space, the name, and each
/// argument behind a space. So a line has at most one form. It does nothing.
pub fn lines_are_spelled()
    ensures { (line name : List ℕ) (arguments : List (List ℕ)) → (form_of (words line) ≡ Some (name, arguments)) ↔ IsThreadLine line name arguments }
{}

/// A plan that is read for a module suits it: it has 1 to 16 threads, each a function of the module with a value for
/// each parameter, a memory that may be shared if it has more than one, and segments that fit. So it opens a world
/// wherever the module is well typed. It does nothing.
pub fn read_plans_suit()
    ensures { (m : Module) (bytes : List ℕ) (plan : PlanValue) → plan_of m bytes ≡ Ok plan → IsPlanOf m plan }
{}
