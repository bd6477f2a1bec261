//! What holds of the numbers of a queue. Each function does nothing: its contract is the law.
ghost use Rattle.std.specs.Prelude.{◌≡◌, ◌≤◌, ◌↔◌, ℕ};
ghost use Rattle.job_queue.specs.declared.accounts.Terms.{Terms};
ghost use Rattle.job_queue.specs.Accounts.{MayBePut};

/// Where calls are numbered from 1 on, a number may be put exactly if there are as many calls or more.
pub fn numbers_from_1_are_at_most_the_count()
    ensures { (terms : Terms) (number : ℕ) → terms.first ≡ 1 → MayBePut terms number ↔ (number ≤ terms.count) }
{}
