//! What opening worlds are.

ghost use Rattle.std.specs.Prelude.{◌≡◌, ◌≤◌, ℕ, true, Some};
ghost use Rattle.wasm_types.specs.declared.modules.Module.{Module};
ghost use Rattle.wasm_types.specs.declared.key.Profile.{Profile};
ghost use Rattle.event_core.specs.Opening.{IsOpeningWorld};
ghost use Rattle.thread_words.specs.ThreadCode.{thread_code};
ghost use Rattle.thread_plan.specs.Plans.{PlanValue, IsPlanOf};
ghost use Rattle.validator.specs.Valid.{WellTyped};
ghost use Rattle.wasm_types.specs.Memories.{block_power};
ghost use Rattle.wasm_world.specs.Opening.{WasmWorld, opening_world_of};

/// The opening world of a module and a plan is one, for blocks of 4,096 bytes at most. It does nothing.
pub fn opening_worlds_open()
    ensures { (m : Module) (plan : PlanValue) (profile : Profile) (w : WasmWorld) → IsPlanOf m plan → block_power profile ≤ 12 → opening_world_of m plan profile ≡ Some w → IsOpeningWorld thread_code w }
{}

/// Every plan of a well typed module has an opening world. It does nothing.
pub fn plans_open()
    ensures { (m : Module) (plan : PlanValue) (profile : Profile) → WellTyped m → IsPlanOf m plan → (w : WasmWorld) × (opening_world_of m plan profile ≡ Some w) }
{}
