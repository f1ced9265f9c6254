//! Whether a set of variables stands for a future. It is asked only where a clause is false, so at most once for a file.
ghost use Rattle.std.specs.Prelude.{◌≡◌, ◌↔◌, ◌<◌, ◌≤◌, ℕ, All, Bool, IsTrue};
ghost use Rattle.dist_clause.specs.ClauseList.{clause_at};
ghost use Rattle.dist_clause.specs.Formula.{MakesTrue};
ghost use Rattle.dist_derive.specs.ClauseLog.{inputs_of};
ghost use Rattle.dist_derive.specs.VariableSet.{GivesTrue};

use dist_clause::Lit;
use dist_derive::{Log, VariableSet};

/// Which input clauses say what a future is: those up to one number, and those behind another up to a last.
#[derive(Clone, Copy, Debug, PartialEq, Eq)]
pub struct FutureClauses {
    pub upto: u32,
    pub behind: u32,
    pub last: u32,
}

/// Whether a clause has a literal that is true where exactly the members of a set are.
fn makes_true(clause: &[Lit], trues: &VariableSet) -> bool
    requires { All (λ l. l.variable ≤ trues.now.variables) clause.now }
    ensures { (value : ℕ → Bool) → GivesTrue value trues.now.members → IsTrue result ↔ MakesTrue value clause.now }
{
    clause.iter().any(|l| trues.makes_true(*l))
}

/// Whether the clauses behind one number, up to another, are true where exactly the members of a set are.
fn are_true(log: &Log, behind: u32, upto: u32, trues: &VariableSet) -> bool
    requires upto { upto ≤ log.now.inputs }
    requires same_variables { trues.now.variables ≡ log.now.variables }
    ensures { (value : ℕ → Bool) → GivesTrue value trues.now.members
        → IsTrue result ↔ ((number : ℕ) → behind < number → number ≤ upto
        → MakesTrue value (clause_at log.now.clauses number)) }
{
    log.keeps_invariant();
    for before in behind..upto {
        if !makes_true(log.clause(before + 1), trues) {
            return false;
        }
    }
    true
}

impl FutureClauses {
    ghost use Rattle.dist_line_check.specs.Future.{StandsForFuture};

    /// Whether these clauses of the log are true where exactly the members of a set are.
    pub(crate) fn are_true(self, log: &Log, trues: &VariableSet) -> bool
        requires same_variables { trues.now.variables ≡ log.now.variables }
        ensures { (value : ℕ → Bool) → GivesTrue value trues.now.members
            → IsTrue result ↔ StandsForFuture self value (inputs_of log.now) }
    {
        let inputs = log.inputs();
        let front = self.upto.min(inputs);
        if !are_true(log, 0, front, trues) {
            return false;
        }
        let last = self.last.min(inputs);
        are_true(log, self.behind, last, trues)
    }
}
