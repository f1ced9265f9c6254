//! What each relation costs to refute: a guess at few relations that keep a package from being installed.
//!
//! What follows from the package and all relations is found to the end, the cheapest first: a literal costs one relation more than
//! all that it follows by. Of the relations that are failed then the refutation of one names the fewest relations. It costs what
//! all relations have together.

ghost use Rattle.dist_explain_search.specs.SearchPrivate.{FitsAsked};

use dist_clause::Lit;
use dist_explain::{Asked, put_in_order};
use dist_line_write::Asker;
use std::alloc::{AllocError, Global};
use std::collections::BinaryHeap;

/// What is known of a package.
#[derive(Clone, Copy, Debug)]
struct Known {
    is_set: bool,
    /// How many relations it follows by, some perhaps counted more than once.
    cost: u32,
    /// Its place among the steps.
    place: u32,
}

/// Nothing.
const NOTHING: Known = Known {
    is_set: false,
    cost: 0,
    place: 0,
};

/// What follows, by the relation of a number; by 0 it is asked for.
#[derive(Clone, Copy, Debug)]
struct Step {
    variable: u32,
    relation: u32,
}

/// How many literals of a relation are not false, and what those that are cost together.
#[derive(Clone, Copy, Debug)]
struct Open {
    left: u32,
    cost: u32,
}

/// A relation in which a literal stands, and the place of its use before.
#[derive(Clone, Copy, Debug)]
struct Use {
    relation: u32,
    next: u32,
}

/// Room for what follows.
#[derive(Drop)]
struct Costs {
    packages: u32,
    known: Vec<Known>,
    steps: Vec<Step>,
    opens: Vec<Open>,
    uses: Vec<Use>,
    /// The place of the latest use of each literal, from 1; 0: there is none.
    latest: Vec<u32>,
    /// Relations with one literal left, the cheapest first.
    waiting: BinaryHeap<u64>,
    /// Relations that are failed, and not yet weighed.
    failed: Vec<u32>,
    /// The packages that the refutation at hand goes by, and the places of their steps.
    asked: Vec<bool>,
    places: Vec<u32>,
    /// The shortest refutation so far, and whether it is of an item that nothing serves.
    shortest: Vec<u32>,
    is_unserved: bool,
}

impl Costs {
    fn new(alloc: Global, packages: u32, relations: u32) -> Result<Costs, AllocError> {
        let variables = packages as usize + 1;
        let known = vec![in alloc; NOTHING; variables]?;
        let opens = vec![in alloc; Open { left: 0, cost: 0 }; relations as usize + 1]?;
        let latest = vec![in alloc; 0u32; 2 * variables]?;
        let asked = vec![in alloc; false; variables]?;
        Ok(Costs {
            packages,
            known,
            steps: Vec::new(alloc),
            opens,
            uses: Vec::new(alloc),
            latest,
            waiting: BinaryHeap::new(alloc),
            failed: Vec::new(alloc),
            asked,
            places: Vec::new(alloc),
            shortest: Vec::new(alloc),
            is_unserved: false,
        })
    }

    /// Whether a literal is one of a package.
    fn is_of_package(&self, literal: Lit) -> bool {
        literal.variable() <= self.packages
    }

    fn known(&self, literal: Lit) -> Known {
        match self.known.get(literal.variable() as usize) {
            Some(known) => *known,
            None => NOTHING,
        }
    }

    /// Enters the relation of a number.
    fn enter(&mut self, number: u32, clause: &[Lit]) -> Result<(), AllocError> {
        let mut left = 0u32;
        for literal in clause {
            if self.is_of_package(*literal) {
                left = left.saturating_add(1);
                self.add_use(number, *literal)?;
            }
        }
        if let Some(open) = self.opens.get_mut(number as usize) {
            open.left = left;
        }
        if left == 1 {
            self.wait(number, 1)?;
        }
        Ok(())
    }

    fn add_use(&mut self, number: u32, literal: Lit) -> Result<(), AllocError> {
        if let Some(latest) = self.latest.get_mut(slot(literal)) {
            self.uses.push(Use {
                relation: number,
                next: *latest,
            })?;
            *latest = u32::try_from(self.uses.len()).unwrap_or(0);
        }
        Ok(())
    }

    /// Has a relation with one literal left wait, which costs so much.
    fn wait(&mut self, number: u32, cost: u32) -> Result<(), AllocError> {
        let high = u64::from(u32::MAX.saturating_sub(cost));
        let low = u64::from(u32::MAX.saturating_sub(number));
        self.waiting.push(high << 32 | low)?;
        Ok(())
    }

    /// The cheapest relation that waits.
    fn next(&mut self) -> Option<u32> {
        let key = self.waiting.pop()?;
        let low = u32::try_from(key & 0xffff_ffff).unwrap_or(u32::MAX);
        Some(u32::MAX.saturating_sub(low))
    }

    /// Takes a literal for true, by the relation of a number.
    fn set(&mut self, literal: Lit, relation: u32, cost: u32) -> Result<(), AllocError> {
        let place = u32::try_from(self.steps.len()).unwrap_or(0);
        self.steps.push(Step {
            variable: literal.variable(),
            relation,
        })?;
        if let Some(known) = self.known.get_mut(literal.variable() as usize) {
            *known = Known {
                is_set: true,
                cost,
                place,
            };
        }
        self.deny(literal.negated(), cost)
    }

    /// Takes a literal for false in all relations.
    fn deny(&mut self, literal: Lit, cost: u32) -> Result<(), AllocError> {
        let mut place = self.latest.get(slot(literal)).copied().unwrap_or(0);
        for _ in 0..place {
            if place == 0 {
                break;
            }
            let Some(entry) = self.uses.get(place as usize - 1).copied() else {
                break;
            };
            place = entry.next;
            self.lose(entry.relation, cost)?;
        }
        Ok(())
    }

    /// A literal of a relation became false.
    fn lose(&mut self, number: u32, cost: u32) -> Result<(), AllocError> {
        let Some(open) = self.opens.get_mut(number as usize) else {
            return Ok(());
        };
        open.left = open.left.saturating_sub(1);
        open.cost = open.cost.saturating_add(cost);
        let Open { left, cost } = *open;
        match left {
            0 => self.failed.push(number)?,
            1 => self.wait(number, cost.saturating_add(1))?,
            _ => {}
        }
        Ok(())
    }

    /// The literal of a relation that is neither true nor false.
    fn unset(&self, clause: &[Lit]) -> Option<Lit> {
        for literal in clause {
            if self.is_of_package(*literal) && !self.known(*literal).is_set {
                return Some(*literal);
            }
        }
        None
    }

    /// Goes on to the end.
    fn go(&mut self, inquirer: &Asker) -> Result<(), AllocError> {
        for _ in 0..self.opens.len() {
            self.weigh_failed(inquirer)?;
            let Some(number) = self.next() else {
                break;
            };
            let cost = match self.opens.get(number as usize) {
                Some(open) => open.cost.saturating_add(1),
                None => 1,
            };
            if let Some(literal) = self.unset(clause_of(inquirer, number)) {
                self.set(literal, number, cost)?;
            }
        }
        self.weigh_failed(inquirer)
    }

    /// Weighs the relations that are failed.
    fn weigh_failed(&mut self, inquirer: &Asker) -> Result<(), AllocError> {
        for _ in 0..self.failed.len() {
            if let Some(number) = self.failed.pop() {
                self.weigh(inquirer, number)?;
            }
        }
        Ok(())
    }

    /// Takes the refutation of a relation that is failed for the shortest, where it is shorter.
    fn weigh(&mut self, inquirer: &Asker, number: u32) -> Result<(), AllocError> {
        let clause = clause_of(inquirer, number);
        let mut is_unserved = is_unserved(clause);
        self.ask(clause)?;
        for at in 0..self.steps.len() {
            let Some(place) = self.places.get(at).copied() else {
                break;
            };
            let clause = clause_of(inquirer, relation_at(&self.steps, place));
            is_unserved = is_unserved || self::is_unserved(clause);
            self.ask(clause)?;
        }
        if self.is_shorter(is_unserved) {
            self.take(number)?;
            self.is_unserved = is_unserved;
        }
        self.forget();
        Ok(())
    }

    /// Asks for the packages of a relation that follow by others.
    fn ask(&mut self, clause: &[Lit]) -> Result<(), AllocError> {
        for literal in clause {
            let place = self.known(*literal).place;
            if self.is_of_package(*literal)
                && relation_at(&self.steps, place) != 0
                && let Some(asked) = self.asked.get_mut(literal.variable() as usize)
                && !*asked
            {
                *asked = true;
                self.places.push(place)?;
            }
        }
        Ok(())
    }

    /// Whether the refutation at hand is shorter than the shortest so far.
    fn is_shorter(&self, is_unserved: bool) -> bool {
        let length = self.places.len().saturating_add(1);
        let shortest = self.shortest.len();
        shortest == 0
            || length < shortest
            || (length == shortest && is_unserved && !self.is_unserved)
    }

    /// Takes the refutation at hand.
    fn take(&mut self, number: u32) -> Result<(), AllocError> {
        put_in_order(&mut self.places);
        self.shortest.clear();
        for place in &self.places {
            let relation = relation_at(&self.steps, *place);
            self.shortest.push(relation)?;
        }
        self.shortest.push(number)?;
        Ok(())
    }

    /// Forgets the refutation at hand.
    fn forget(&mut self) {
        for place in &self.places {
            if let Some(step) = self.steps.get(*place as usize)
                && let Some(asked) = self.asked.get_mut(step.variable as usize)
            {
                *asked = false;
            }
        }
        self.places.clear();
    }
}

/// The place of a literal among those of all packages.
fn slot(literal: Lit) -> usize {
    2 * literal.variable() as usize + usize::from(literal.positive())
}

/// The relation by which the step at a place follows.
fn relation_at(steps: &[Step], place: u32) -> u32 {
    match steps.get(place as usize) {
        Some(step) => step.relation,
        None => 0,
    }
}

/// The clause of a number.
fn clause_of(inquirer: &Asker, number: u32) -> &[Lit] {
    match inquirer.clause(number) {
        Some(clause) => clause,
        None => &[],
    }
}

/// Whether a relation is an item that nothing serves: it has its package, and its selector.
fn is_unserved(clause: &[Lit]) -> bool {
    clause.len() <= 2
}

/// The relations by which a package can't be installed, each behind those that it follows by, as far as they give one another.
/// None where they don't.
pub(crate) fn shortest(
    alloc: Global,
    inquirer: &Asker,
    asked: &Asked,
) -> Result<Vec<u32>, AllocError>
    requires { FitsAsked asked.now inquirer.now.log.variables }
{
    let relations = inquirer.variables() - asked.packages;
    let mut costs = Costs::new(alloc, asked.packages, relations)?;
    for place in 0..relations {
        costs.enter(place + 1, clause_of(inquirer, place + 1))?;
    }
    let package = Lit::new(asked.number, true);
    costs.set(package, 0, 0)?;
    costs.go(inquirer)?;
    costs.shortest.as_slice().to_vec(alloc)
}
