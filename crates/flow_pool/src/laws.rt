//! Laws of the definitions: each contract is a theorem, and no body does anything.

ghost use Rattle.std.specs.Prelude.{◌≡◌, ◌≢◌, ℕ, ◌%◌, ◌<◌, ◌≤◌};
ghost use Rattle.flow_pool.specs.Work.{tasks_of, times_asked};
ghost use Rattle.flow_pool.specs.Report.{ReportsAgree};

/// Each prefix is a task of exactly one worker, and of that worker once.
pub fn each_prefix_is_asked_once()
    ensures of_its_worker { (k n number : ℕ) → number < n →
        times_asked number (tasks_of k n (number % k)) ≡ 1 }
    ensures of_no_other { (k n number worker : ℕ) → worker ≢ number % k →
        times_asked number (tasks_of k n worker) ≡ 0 }
    ensures none_beyond { (k n number worker : ℕ) → n ≤ number →
        times_asked number (tasks_of k n worker) ≡ 0 }
{}

/// Two reports of plans of one instance, one starting sequence, one depth and one version have one verdict, whatever
/// the workers and budgets.
pub fn reports_agree()
    ensures { ReportsAgree }
{}
