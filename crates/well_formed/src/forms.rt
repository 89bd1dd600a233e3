// What number 12 asks of the fields of one record, and of a pointer.
// A u32 becomes a usize by `as`: there is no From for it.
// marks, firsts, lines and dynamic stand one by one: the functions are public, and Asked would ask for what they do not read.
ghost use Rattle.std.specs.Prelude.{◌≡◌, cond, not, ◌&&◌, ◌-◌, ◌<◌, ltb, length, get_or};
ghost use Rattle.indexing.specs.Reading.{pointer_from};
ghost use Rattle.indexing_iter.specs.Groups.{group_code};
ghost use Rattle.well_formed.specs.Pass.{group_by_sort, form_ok, rises, tag_in};
ghost use Rattle.well_formed.specs.Pass.{marked, reach_in};

use indexing::tags::Tag;
use indexing_iter::group::Group;

// Whether an offset is a clause's: marks has a 1 there.
#[tactic(auto, unfolding(crate::specs::Pass::marked))]
fn is_known(marks: &[u8], offset: u32) -> bool
    ensures { result ≡ marked marks.now offset }
{
    let at = offset as usize;
    at < marks.len() && marks[at] == 1
}

// Whether an offset may stand in front of others, of which first is the first (0: there is none; a word of a record, where 0 is no clause's offset).
#[tactic(auto, unfolding(crate::specs::Pass::rises))]
pub fn may_rise(marks: &[u8], offset: u32, first: u32) -> bool
    ensures { result ≡ rises (marked marks.now) offset first }
{
    is_known(marks, offset) && (first == 0 || offset < first)
}

// An offset's tag is A or Z if dynamic, else one of the other five. A tag is a byte of a handed record, and may be any.
#[tactic(auto, unfolding(crate::specs::Pass::tag_in))]
pub fn tag_ok(dynamic: bool, tag: u8) -> bool
    ensures { result ≡ tag_in dynamic tag }
{
    let Ok(tag) = Tag::try_from(tag) else {
        return false;
    };
    match tag {
        Tag::A | Tag::Z => dynamic,
        _ => !dynamic,
    }
}

// The fields of an entry are a key's: of a literal the arity is 0, of a list arity and bits are. A sort is a byte of a handed record, and may be any.
#[tactic(auto, unfolding(crate::specs::Pass::form_ok))]
pub fn form_ok(sort: u8, arity: u16, bits: u64) -> bool
    ensures { result ≡ form_ok sort arity bits }
{
    match sort {
        1..=3 => arity == 0,
        4 => true,
        5 => arity == 0 && bits == 0,
        _ => false,
    }
}

// The group of a key by its sort, a byte that may be any: none where it is 0.
pub fn group_by_sort(sort: u8) -> Option<Group>
    ensures { group_code result ≡ group_by_sort sort }
{
    match sort {
        0 => None,
        4 => Some(Group::Structures),
        5 => Some(Group::List),
        _ => Some(Group::Literals),
    }
}

// The bound of an external pointer: above every argument, if it is a known offset and not dynamic.
fn outer_reach(offset: u32, marks: &[u8], dynamic: bool) -> u16
    ensures { result ≡ cond (not dynamic && marked marks.now offset) 33 0 }
{
    if !dynamic && is_known(marks, offset) {
        33
    } else {
        0
    }
}

// The bound of an internal pointer: the first argument of the line that it leads to, which is one of the lines behind.
fn inner_reach(distance: usize, firsts: &[u16], lines: usize) -> u16
    requires { lines < length firsts.now }
    ensures { result ≡ cond (ltb distance 1) 0 (cond (ltb lines distance) 0 (get_or firsts.now (lines - distance) 0)) }
{
    if 1 <= distance && distance <= lines {
        firsts[lines - distance]
    } else {
        0
    }
}

// A pointer's bound: its switch must have an argument below this. It is 0 where the pointer is wrong, and no Option: no argument is below 0, so
// one minimum over the entries and one comparison at the switch serve.
pub fn reach_of(word: u32, firsts: &[u16], lines: usize, marks: &[u8], dynamic: bool) -> u16
    requires { lines < length firsts.now }
    ensures { result ≡ reach_in dynamic (marked marks.now) firsts.now lines (pointer_from word) }
{
    if records::pointer::is_internal(word) {
        inner_reach(records::pointer::distance(word) as usize, firsts, lines)
    } else {
        outer_reach(word, marks, dynamic)
    }
}
