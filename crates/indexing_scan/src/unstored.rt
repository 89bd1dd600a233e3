// The walk through lines that are not stored: a line is a scratch list of clauses, narrowed argument by argument.
// Program, clauses, argument and key are parameters and no struct: each call narrows other clauses, at another argument.
// AreClauses is asked of each list of clauses, which is lent to be narrowed: a struct that holds it would make each contract speak of its field's states.
// The bounds of an argument differ, at most the arity or one above it, and so they stand in each contract.
// is_open q ≡ false is asked of follow_new and demand_at: the caller has looked whether the call's key is bound. narrow takes both keys, so it is no type's field.
ghost use Rattle.std.specs.Prelude.{◌≡◌, Bool, true, false, [], ◌++◌, ◌+◌, ◌≤◌, length, take, drop};
ghost use Rattle.indexing_iter.specs.declared.OptArgIndexKey.{OptArgIndexKey};
ghost use Rattle.indexing_iter.specs.Keys.{is_open};
ghost use Rattle.indexing_iter.specs.Readings.{keys_by};
ghost use Rattle.std.specs.List.{filter};
ghost use Rattle.indexing.specs.Build.{open_at, virtual};
ghost use Rattle.indexing_scan.specs.ByArgument.{move};
ghost use Rattle.indexing_scan.specs.Readings.{predicate_of, AreClauses, answer_of};
ghost use Rattle.indexing_scan.specs.Walk.{demand, follow_new, choose, unstored};
ghost use Rattle.indexing_scan.specs.Unstored.{move_of, Held, any_open, alike, all_same, entered_by, empty_by, finished_by};
ghost use Rattle.indexing_scan.specs.Tests.{Computes};

use crate::case::Case;
use crate::query::Query;
use indexing_iter::OptArgIndexKey;
use indexing_iter::group::Group;
use indexing_iter::program::Program;

// What was done at a table from which the walk went on: the argument is unbound, the table is dead, the only entry of
// the group is followed, or the equal key among several.
// Which step it was is in the definitions, and goes to the path of a later request: no caller reads it.
#[derive(Clone, Copy, Debug, PartialEq, Eq)]
pub enum Step {
    Unbound = 1,
    Dead = 2,
    Only = 4,
    Equal = 5,
}

// What is done at an argument, with what was done at its table. Single has the offset of an external pointer, Bucket
// the number of a line's clauses. Three of its cases have a step: an Option or a Result would have an enum inside.
#[derive(Clone, Copy, Debug, PartialEq, Eq)]
pub enum Narrowed {
    NoTable,
    Passed(Step),
    Failed,
    Single(Step, u32),
    Bucket(Step, usize),
}

// An answer: its case, the number of its clauses and of the tables looked at.
#[derive(Clone, Copy)]
pub struct Finished {
    pub case: Case,
    pub count: usize,
    pub tables: u32,
}

// Whether some clause has no key at argument a.
fn any_open(program: &Program, clauses: &[u32], a: u32) -> bool
    requires { AreClauses program.now clauses.now }
    ensures { result ≡ any_open (keys_by program.now) a clauses.now }
{
    clauses.iter().any(|o| indexing_iter::is_open(indexing_iter::key_of(program, *o, a)))
}

// Whether every clause has the key k at argument a.
fn all_same(program: &Program, clauses: &[u32], a: u32, k: OptArgIndexKey) -> bool
    requires { AreClauses program.now clauses.now }
    ensures { result ≡ all_same (keys_by program.now) a k clauses.now }
{
    clauses.iter().all(|o| indexing_iter::same_key(indexing_iter::key_of(program, *o, a), k))
}

// Whether a clause's key k is one of the group of q.
fn same_group(q: OptArgIndexKey, k: OptArgIndexKey) -> bool
    ensures { result ≡ alike true q k }
{
    indexing_iter::group_of(q) == indexing_iter::group_of(k)
}

// Moves the clauses whose key at argument a passes a test to the front of the list, and gives their number. What stands
// behind them is as it was. The loop writes in the slice that it reads, so it goes by places.
fn keep_if<F: Fn(OptArgIndexKey) -> bool>(
    program: &Program,
    clauses: &mut [u32],
    a: u32,
    test: F,
) -> usize
    requires calls { F.IsAlwaysCallable test }
    requires clauses_value { AreClauses program.now clauses.old }
    ensures few { result ≤ length clauses.old }
    ensures kept { (t : OptArgIndexKey → Bool) → Computes (F.post test) t
        → let kept = filter (λ o. t (keys_by program.now o a)) clauses.old in
        (result ≡ length kept) × (clauses.new ≡ kept ++ drop result clauses.old) }
{
    let mut k = 0;
    for i in 0..clauses.len() {
        let o = clauses[i];
        if test(indexing_iter::key_of(program, o, a)) {
            clauses[k] = o;
            k += 1;
        }
    }
    k
}

// A bucket of k clauses, o the first.
#[tactic(auto, unfolding(crate::specs::Unstored::entered_by))]
fn entered(dynamic: bool, how: Step, k: usize, o: u32) -> Narrowed
    ensures { result ≡ entered_by dynamic how k o }
{
    if !dynamic && k == 1 {
        Narrowed::Single(how, o)
    } else {
        Narrowed::Bucket(how, k)
    }
}

// No clause of the group of q: Fail, but the dynamic list is a line even if empty.
#[tactic(auto, using(crate::proofs::GroupCodes::group_codes), unfolding(crate::specs::Unstored::empty_by))]
fn no_entry(dynamic: bool, q: OptArgIndexKey) -> Narrowed
    ensures { result ≡ empty_by dynamic q }
{
    if dynamic && indexing_iter::group_of(q) == Some(Group::List) {
        Narrowed::Bucket(Step::Only, 0)
    } else {
        Narrowed::Failed
    }
}

// The switch on argument a of these clauses, followed with the bound key q.
fn follow_new(program: &Program, clauses: &mut [u32], a: u32, q: OptArgIndexKey) -> Narrowed
    requires clauses_value { AreClauses program.now clauses.old }
    requires q_value { is_open q ≡ false }
    ensures clauses_after { let P = predicate_of program.now in
        move_of result clauses.new ≡ follow_new P (choose P q (virtual P a clauses.old)) }
    ensures held { Held program.now.starts.now clauses.old clauses.new result }
{
    let dynamic = program.settings.dynamic;
    let n = keep_if(program, clauses, a, |k| same_group(q, k));
    if n == 0 {
        return no_entry(dynamic, q);
    }
    let first = clauses[0];
    let key = indexing_iter::key_of(program, first, a);
    if all_same(program, &clauses[..n], a, key) {
        return entered(dynamic, Step::Only, n, first);
    }
    let k = keep_if(
        program,
        &mut clauses[..n],
        a,
        |k| indexing_iter::same_key(k, q),
    );
    if k == 0 {
        return Narrowed::Failed;
    }
    entered(dynamic, Step::Equal, k, clauses[0])
}

// An on-demand table for argument a in a line of these clauses, looked at with the bound key q: dead where some clause
// is open, else a switch. A bucket's clauses are moved to the front of the list.
pub fn demand_at(program: &Program, clauses: &mut [u32], a: u32, q: OptArgIndexKey) -> Narrowed
    requires clauses_value { AreClauses program.now clauses.old }
    requires q_value { is_open q ≡ false }
    ensures clauses_after { let P = predicate_of program.now in
        move_of result clauses.new ≡ demand P a q clauses.old (open_at P a clauses.old) }
    ensures held { Held program.now.starts.now clauses.old clauses.new result }
{
    if any_open(program, clauses, a) {
        return Narrowed::Passed(Step::Dead);
    }
    follow_new(program, clauses, a, q)
}

// What is done at argument a in a line of these clauses that is not stored, with the key q or unbound.
pub fn narrow(program: &Program, clauses: &mut [u32], a: u32, q: OptArgIndexKey) -> Narrowed
    requires clauses_value { AreClauses program.now clauses.old }
    requires le_a { (1 ≤ a) × (a ≤ program.now.settings.arity) }
    ensures clauses_after { let P = predicate_of program.now in
        move_of result clauses.new ≡ move P [] (unstored clauses.old) a q }
    ensures held { Held program.now.starts.now clauses.old clauses.new result }
{
    if indexing::masked(program.settings.mask, a) {
        return Narrowed::NoTable;
    }
    let open = any_open(program, clauses, a);
    if open && !program.settings.extensible {
        return Narrowed::NoTable;
    }
    if indexing_iter::is_open(q) {
        return Narrowed::Passed(Step::Unbound);
    }
    if open {
        return Narrowed::Passed(Step::Dead);
    }
    follow_new(program, clauses, a, q)
}

// An answer by its three fields.
fn answered(case: Case, count: usize, tables: u32) -> Finished
    ensures { result ≡ record { case = case; count = count; tables = tables } }
{
    Finished {
        case,
        count,
        tables,
    }
}

// The answer from argument a on, in a line of these clauses that is not stored. The clauses of the answer are moved to
// the front of the list.
pub fn finish(query: &Query, clauses: &mut [u32], a: u32) -> Finished
    requires clauses_value { AreClauses query.now.program clauses.old }
    requires le_a { (1 ≤ a) × (a ≤ query.now.program.settings.arity + 1) }
    ensures result_value { result ≡ finished_by (answer_of query.now a clauses.old) }
    ensures clauses_after { take result.count clauses.new ≡ (answer_of query.now a clauses.old).offsets }
    ensures count_le_len { result.count ≤ length clauses.old }
{
    let mut count = clauses.len();
    let mut tables = 0;
    for b in a..=query.program.settings.arity {
        let q = crate::calls::call_key(query.call, b);
        match narrow(&query.program, &mut clauses[..count], b, q) {
            Narrowed::NoTable => {}
            Narrowed::Passed(_) => {
                tables += 1;
            }
            Narrowed::Failed => return answered(Case::Fail, 0, tables + 1),
            Narrowed::Single(_, _) => return answered(Case::External, 1, tables + 1),
            Narrowed::Bucket(_, k) => {
                count = k;
                tables += 1;
            }
        }
    }
    Finished {
        case: Case::Sequence,
        count,
        tables,
    }
}
