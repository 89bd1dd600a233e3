// The offsets of a bucket with their tags.
ghost use Rattle.std.specs.Prelude.{◌≡◌, ◌+◌, ◌≤◌, ◌<◌, length};
ghost use Rattle.records.specs.Records.{records_of};
ghost use Rattle.indexing.specs.Columns.{member, size_of, tag_at};
ghost use Rattle.index_writer.specs.Writing.{Puts};
ghost use Rattle.index_writer.specs.Written.{choice_by, choices_by};

use crate::clauses::Choices;
use crate::counting::count_if;
use crate::index_records;
use indexing::tags::Tag;
use indexing_iter::Settings;

// Whether clause j is in the bucket that clause i leads.
// Leaders are u32 and places usize: a u32 becomes a usize by `as`, since there is no From for it.
#[tactic(auto, unfolding(indexing::specs::Columns::member))]
pub fn in_bucket(leaders: &[u32], i: usize, j: usize) -> bool
    requires { j < length leaders.now }
    ensures { result ≡ member leaders.now i j }
{
    leaders[j] as usize == i
}

// How many clauses clause i leads.
#[tactic(auto, unfolding(indexing::specs::Columns::size_of))]
pub fn count_members(leaders: &[u32], i: usize) -> usize
    ensures value { result ≡ size_of leaders.now i }
    ensures upper_bound { result ≤ length leaders.now }
{
    count_if(leaders.len(), |j| in_bucket(leaders, i, j))
}

// The tag of the offset at place k of n: its own where the line is dynamic; else Try, Retry and Trust at the end, or their default forms.
// own is a byte: a dynamic line's own tag is a byte read from a record, and is handed on as it is. It need not be a tag.
#[tactic(auto, unfolding(indexing::specs::Columns::tag_at))]
fn tag_at(dynamic: bool, default: bool, own: u8, n: usize, k: usize) -> u8
    requires { k < 65536 }
    ensures { result ≡ tag_at dynamic default own n k }
{
    if dynamic {
        own
    } else if k == 0 {
        Tag::Try.into()
    } else if k + 1 == n {
        if default {
            Tag::DefaultTrust.into()
        } else {
            Tag::Trust.into()
        }
    } else if default {
        Tag::DefaultRetry.into()
    } else {
        Tag::Retry.into()
    }
}

// Writes the offset of clause j where it is in the bucket that clause i leads: it is number k of n. Returns the place after it.
fn put_choice(
    index: &mut [u8],
    q: usize,
    choices: &Choices,
    settings: Settings,
    n: usize,
    i: usize,
    k: usize,
    j: usize,
) -> usize
    requires j_bound { (j < length choices.now.leaders.now) × (k < 65536) }
    requires j_in_bounds { q + length (choice_by choices.now settings n i k j) ≤ length (records_of index.old) }
    ensures { Puts index.old index.new q result (choice_by choices.now settings n i k j) }
{
    if in_bucket(choices.leaders, i, j) {
        let tag = tag_at(
            settings.dynamic,
            settings.non_counted,
            choices.tags[j],
            n,
            k,
        );
        records::put(index, q, index_records::choice(tag, choices.offs[j]));
        return q + 1;
    }
    q
}

// Writes the offsets of the bucket that clause i leads, n of them, and returns the place after them.
// A loop of its own, as in buckets::put_entries: a turn writes to index, and its number in the bucket is the place from the turn before.
// n is a parameter beside (choices, settings, i): it is known from these, and a struct with it would need a field that says so.
pub fn put_choices(
    index: &mut [u8],
    p: usize,
    choices: &Choices,
    settings: Settings,
    n: usize,
    i: usize,
) -> usize
    requires few { length choices.now.leaders.now ≤ 1024 }
    requires n_value { n ≡ size_of choices.now.leaders.now i }
    requires i_in_bounds { p + length (choices_by choices.now settings i) ≤ length (records_of index.old) }
    ensures { Puts index.old index.new p result (choices_by choices.now settings i) }
{
    let mut q = p;
    for j in 0..choices.leaders.len() {
        q = put_choice(index, q, choices, settings, n, i, q - p, j);
    }
    q
}
