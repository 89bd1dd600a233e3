// One record in front of those that are read: what number 12 asks of it by its kind, and the state of the pass once it is read.
// A u32 becomes a usize by `as`: there is no From for it.
ghost use Rattle.std.specs.Prelude.{◌≡◌, ◌+◌, ◌<◌, ◌≤◌, eqb, length, take, IfSome};
ghost use Rattle.records.specs.Records.{records_of};
ghost use Rattle.indexing.specs.Kinds.{kind_number};
ghost use Rattle.indexing.specs.Reading.{pointer_from};
ghost use Rattle.well_formed.specs.Pass.{closed, idle, bare, line_step, table_step, switch_step, demand_step, dead_step};
ghost use Rattle.well_formed.specs.Pass.{entry_step, choice_step, clause_step, fresh, at_switch, at_demand, at_dead, at_entry, at_choice, at_clause};
ghost use Rattle.well_formed.specs.Pass.{after, marked, reach_in, noted, stepped, passed_by, distinct_keys, group_in, group_by_sort};

use crate::{Asked, Waits, forms, keys};
use indexing::kinds::Kind;
use indexing_iter::group::Group;
use records::Rec;

// A record without half and long.
#[tactic(auto, unfolding(crate::specs::Pass::bare))]
fn is_bare(r: Rec) -> bool
    ensures { result ≡ bare r }
{
    r.half == 0 && r.long == 0
}

// A line has the number that is due in front of so many lines, total the number of all.
fn is_due(number: u32, lines: u16, total: usize) -> bool
    ensures { result ≡ eqb (number + lines + 1) total }
{
    number as usize + usize::from(lines) + 1 == total
}

impl Waits {
    // Neither an entry nor a dead clause is without its table.
    #[tactic(auto, unfolding(crate::specs::Pass::idle))]
    fn is_idle(self) -> bool
        ensures { result ≡ idle self }
    {
        self.entries == 0 && self.clause == 0
    }

    // Nothing is left without a table or line record in front, and there is a line.
    #[tactic(auto, unfolding(crate::specs::Pass::closed))]
    pub fn is_closed(self) -> bool
        ensures { result ≡ closed self }
    {
        self.is_idle() && self.first == 33 && self.offset == 0 && 0 < self.lines
    }

    // A line record: it has the number that is due, and a static line has an offset.
    #[tactic(auto, unfolding(crate::specs::Pass::line_step))]
    fn line_ok(self, r: Rec, asked: &Asked) -> bool
        ensures { result ≡ line_step asked.now.dynamic asked.now.total r self }
    {
        r.sub == indexing::mode_of(asked.dynamic)
            && is_bare(r)
            && is_due(r.word, self.lines, asked.total)
            && self.is_idle()
            && (asked.dynamic || self.offset != 0)
    }

    // The record of a table: its argument is 1 to the arity, and below that of the next table.
    #[tactic(auto, unfolding(crate::specs::Pass::table_step))]
    fn table_ok(self, r: Rec, arity: u32) -> bool
        ensures { result ≡ table_step arity r self }
    {
        r.sub == 0
            && r.word == 0
            && r.long == 0
            && 1 <= r.half
            && u32::from(r.half) <= arity
            && r.half < self.first
    }

    // A switch: no dead clause follows, and its argument is below the bounds of its pointers.
    #[tactic(auto, unfolding(crate::specs::Pass::switch_step))]
    fn switch_ok(self, r: Rec, arity: u32) -> bool
        ensures { result ≡ switch_step arity r self }
    {
        self.clause == 0 && r.half < self.below && self.table_ok(r, arity)
    }

    // The keys of a switch, of the first entries behind it, are distinct.
    fn keys_ok(self, behind: &[u8]) -> bool
        requires { self.entries ≤ length (records_of behind.now) }
        ensures { result ≡ distinct_keys (take self.entries (records_of behind.now)) }
    {
        keys::distinct_keys(records::part(behind, 0, usize::from(self.entries)))
    }

    // An on-demand table: neither entry nor dead clause follows.
    #[tactic(auto, unfolding(crate::specs::Pass::demand_step))]
    fn demand_ok(self, r: Rec, arity: u32) -> bool
        ensures { result ≡ demand_step arity r self }
    {
        self.is_idle() && self.table_ok(r, arity)
    }

    // A dead table: no entry follows.
    #[tactic(auto, unfolding(crate::specs::Pass::dead_step))]
    fn dead_ok(self, r: Rec, arity: u32) -> bool
        ensures { result ≡ dead_step arity r self }
    {
        self.entries == 0 && self.table_ok(r, arity)
    }

    // An entry: its fields are a key's, and its group is not above that of the next entry.
    #[tactic(auto, unfolding(crate::specs::Pass::entry_step))]
    fn entry_ok(self, r: Rec) -> bool
        ensures { result ≡ entry_step r self }
    {
        // The groups are compared as numbers: a derived comparison took 1.8 to 2.1 s in place of 1.0 s for 240 million entries, so that Group derives none.
        let in_order = match (forms::group_by_sort(r.sub), self.group) {
            (Some(group), Some(next)) => group as u8 <= next as u8,
            _ => true,
        };
        in_order && forms::form_ok(r.sub, r.half, r.long)
    }

    // An offset: no table and nothing of a table follows, its tag is the mode's, and it is below the next offset.
    #[tactic(auto, unfolding(crate::specs::Pass::choice_step))]
    fn choice_ok(self, r: Rec, asked: &Asked) -> bool
        ensures { result ≡ choice_step asked.now.dynamic (marked asked.now.marks.now) r self }
    {
        self.is_idle()
            && self.first == 33
            && is_bare(r)
            && forms::tag_ok(asked.dynamic, r.sub)
            && forms::may_rise(asked.marks, r.word, self.offset)
    }

    // A dead clause: no entry follows, and it is below the next dead clause.
    #[tactic(auto, unfolding(crate::specs::Pass::clause_step))]
    fn clause_ok(self, r: Rec, asked: &Asked) -> bool
        ensures { result ≡ clause_step (marked asked.now.marks.now) r self }
    {
        self.entries == 0
            && r.sub == 0
            && is_bare(r)
            && forms::may_rise(asked.marks, r.word, self.clause)
    }

    // The state where a line begins, or nothing is read.
    pub fn at_line(lines: u16) -> Waits
        ensures { result ≡ fresh lines }
    {
        Waits {
            entries: 0,
            group: None,
            below: 33,
            clause: 0,
            first: 33,
            offset: 0,
            lines,
        }
    }

    // The state once a switch is read.
    fn at_switch(self, argument: u16) -> Waits
        ensures { result ≡ at_switch self argument }
    {
        Waits {
            entries: 0,
            group: None,
            below: 33,
            first: argument,
            ..self
        }
    }

    // An on-demand table.
    fn at_demand(self, argument: u16) -> Waits
        ensures { result ≡ at_demand self argument }
    {
        Waits {
            first: argument,
            ..self
        }
    }

    // A dead table.
    fn at_dead(self, argument: u16) -> Waits
        ensures { result ≡ at_dead self argument }
    {
        Waits {
            clause: 0,
            first: argument,
            ..self
        }
    }

    // An entry: the bound of its pointer counts for its switch.
    fn at_entry(self, r: Rec, firsts: &[u16], asked: &Asked) -> Waits
        requires { (self.entries < 65535) × (self.lines < length firsts.now) }
        ensures { result ≡ at_entry self (group_in (group_by_sort r.sub)) (reach_in asked.now.dynamic (marked asked.now.marks.now) firsts.now self.lines (pointer_from r.word)) }
    {
        let lines = usize::from(self.lines);
        let reach = forms::reach_of(r.word, firsts, lines, asked.marks, asked.dynamic);
        Waits {
            entries: self.entries + 1,
            group: forms::group_by_sort(r.sub),
            below: reach.min(self.below),
            ..self
        }
    }

    // An offset.
    fn at_choice(self, offset: u32) -> Waits
        ensures { result ≡ at_choice self offset }
    {
        Waits { offset, ..self }
    }

    // A dead clause.
    fn at_clause(self, offset: u32) -> Waits
        ensures { result ≡ at_clause self offset }
    {
        Waits {
            clause: offset,
            ..self
        }
    }

    // The state once a record of a kind is read, in front of the records behind, where number 12 lets it stand there. firsts has the first arguments
    // of the lines behind, the last line's first; a line record notes that of its line.
    #[tactic(auto, unfolding(crate::specs::Pass::step_ok, crate::specs::Pass::after, crate::specs::Pass::noted))]
    pub fn step(
        self,
        kind: Kind,
        r: Rec,
        behind: &[u8],
        firsts: &mut [u16],
        asked: &Asked,
    ) -> Option<Waits>
        requires { (self.entries < 65535) × (self.lines < 65535) × (self.lines < length firsts.old) × (self.entries ≤ length (records_of behind.now)) }
        ensures state { result ≡ stepped (passed_by asked.now.arity asked.now.dynamic (marked asked.now.marks.now) asked.now.total (kind_number kind) r self (records_of behind.now))
            (after (kind_number kind) r self (reach_in asked.now.dynamic (marked asked.now.marks.now) firsts.old self.lines (pointer_from r.word))) }
        ensures firsts_after { IfSome result (λ s. firsts.new ≡ noted (kind_number kind) self.lines self.first firsts.old) }
    {
        match kind {
            Kind::Line if self.line_ok(r, asked) => {
                firsts[usize::from(self.lines)] = self.first;
                Some(Waits::at_line(self.lines + 1))
            }
            Kind::Switch if self.switch_ok(r, asked.arity) && self.keys_ok(behind) => {
                Some(self.at_switch(r.half))
            }
            Kind::OnDemand if self.demand_ok(r, asked.arity) => Some(self.at_demand(r.half)),
            Kind::Dead if self.dead_ok(r, asked.arity) => Some(self.at_dead(r.half)),
            Kind::Entry if self.entry_ok(r) => Some(self.at_entry(r, firsts, asked)),
            Kind::Choice if self.choice_ok(r, asked) => Some(self.at_choice(r.word)),
            Kind::DeadClause if self.clause_ok(r, asked) => Some(self.at_clause(r.word)),
            _ => None,
        }
    }
}
