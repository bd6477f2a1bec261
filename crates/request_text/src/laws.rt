//! What holds of every request file. Each function does nothing: its contract is the law.
ghost use Rattle.std.specs.Prelude.{◌≡◌, ℕ, List, [], None, IfOk, false};
ghost use Rattle.pool_limits.specs.declared.numbers.Numbers.{Numbers};
ghost use Rattle.pool_limits.specs.Plans.{plan_fault};
ghost use Rattle.request_text.specs.Text.{MayRunInSlices, requests_of};

/// The tenants of each file that is read may have what they want, where there is a plan for none.
pub fn accepted_wants_have_a_plan()
    ensures { (config : Numbers) (text : List ℕ) → plan_fault config [] ≡ None → IfOk (requests_of config text) (λ read. plan_fault config read.wants ≡ None) }
{}

/// Unless the calls of a file that is read are made whole, no tenant wants a share in it and no module is retired.
pub fn files_in_slices_have_no_tenants_and_retire_nothing()
    ensures { (config : Numbers) (text : List ℕ) → IfOk (requests_of config text) (λ read. read.whole ≡ false → MayRunInSlices read.wants read.directives) }
{}
