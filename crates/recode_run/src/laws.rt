//! Laws of a run: functions that do nothing, whose clauses are the laws.
ghost use Rattle.std.specs.Prelude.{◌≡◌, List, ℕ, Option};
ghost use Rattle.init_table.specs.TableText.{IsTableOf};
ghost use Rattle.init_table.specs.declared.table.InitTable.{InitTable};
ghost use Rattle.recode_run.specs.Words.{Request};
ghost use Rattle.recode_run.specs.declared.status.Status.{Status};
ghost use Rattle.recode_run.specs.Run.{IsDue};

/// For all words and each input one answer is due.
pub fn one_answer_is_due()
    ensures some { (asked : Option Request) (bound : ℕ) (b : List ℕ) → (due : Status) × IsDue asked bound b due }
    ensures once { (asked : Option Request) (bound : ℕ) (b : List ℕ) (first second : Status) → IsDue asked bound b first → IsDue asked bound b second → first ≡ second }
{}

/// A text is that of one table at most.
pub fn one_table()
    ensures { (text : List ℕ) (first second : InitTable) → IsTableOf text first → IsTableOf text second → first ≡ second }
{}
