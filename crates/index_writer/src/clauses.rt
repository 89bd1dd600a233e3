// The clauses of a line, in columns: a column has a number for each clause. Each struct holds the columns that its functions read, some of them not all.
// Columns stay parallel arrays (see columns.rt). Heads, Buckets and Choices have no bound of 1,024: some of their readers ask none. opens has a number 0 or 1
// for each argument, as the definitions have it; read_keys and fill_columns are public, and another type would ask more of their callers.
ghost use Rattle.std.specs.Prelude.{◌≡◌, ◌*◌, ◌≤◌, length};
ghost use Rattle.indexing.specs.Columns.{sizes_to};

use crate::switched::Switched;

// The clauses in buckets by their keys: for each the place of the first clause of its bucket, and its key's sort and arity in one number; and whether
// the line is dynamic.
#[derive(Clone, Copy)]
pub struct Heads<'a> {
    pub leaders: &'a [u32],
    pub heads: &'a [u32],
    pub dynamic: bool,
    pub ghost heads_len: { length heads.now ≡ length leaders.now },
}

// With the size of the bucket that each clause leads.
#[derive(Clone, Copy)]
pub struct Buckets<'a> {
    pub heads: Heads<'a>,
    pub sizes: &'a [u32],
    pub ghost sizes_value: { sizes.now ≡ sizes_to heads.leaders.now (length heads.leaders.now) },
}

// What a switch's entries are written by: the buckets, the bits of each clause's key, and its offset.
#[derive(Clone, Copy)]
pub struct Entries<'a> {
    pub buckets: Buckets<'a>,
    pub bits: &'a [u64],
    pub offs: &'a [u32],
    pub ghost few: { length buckets.heads.leaders.now ≤ 1024 },
    pub ghost bits_len: { length bits.now ≡ length buckets.heads.leaders.now },
    pub ghost offs_len: { length offs.now ≡ length buckets.heads.leaders.now },
}

// The leaders of the clauses, and for each 32 numbers that say at which arguments it is open.
#[derive(Clone, Copy)]
pub struct Opens<'a> {
    pub leaders: &'a [u32],
    pub opens: &'a [u8],
    pub ghost few: { length leaders.now ≤ 1024 },
    pub ghost opens_len: { length opens.now ≡ 32 * length leaders.now },
}

// What tables for later arguments are written by: with the offset of each clause.
#[derive(Clone, Copy)]
pub struct Tables<'a> {
    pub opens: Opens<'a>,
    pub offs: &'a [u32],
    pub ghost offs_len: { length offs.now ≡ length opens.leaders.now },
}

// What a bucket's offsets are written by: the leaders, the offset of each clause, and its tag.
// A tag is a byte, here and in the columns below: it may be read from a record, and is handed on as it is.
#[derive(Clone, Copy)]
pub struct Choices<'a> {
    pub leaders: &'a [u32],
    pub offs: &'a [u32],
    pub tags: &'a [u8],
    pub ghost offs_len: { length offs.now ≡ length leaders.now },
    pub ghost tags_len: { length tags.now ≡ length leaders.now },
}

// What a line is written by: its tables, and the tag of each clause.
#[derive(Clone, Copy)]
pub struct Clauses<'a> {
    pub tables: Tables<'a>,
    pub tags: &'a [u8],
    pub ghost tags_len: { length tags.now ≡ length tables.opens.leaders.now },
}

// What the room of a switch's new lines is counted by: the buckets, where their clauses are open, and the settings.
#[derive(Clone, Copy)]
pub struct LineRooms<'a> {
    pub buckets: Buckets<'a>,
    pub opens: &'a [u8],
    pub switched: Switched,
    pub ghost few: { length buckets.heads.leaders.now ≤ 1024 },
    pub ghost opens_len: { length opens.now ≡ 32 * length buckets.heads.leaders.now },
    pub ghost dynamic_is: { buckets.heads.dynamic ≡ switched.settings.dynamic },
}

impl<'a> LineRooms<'a> {
    // Where the clauses are open, by their leaders.
    pub fn opens(&self) -> Opens<'a>
        ensures leaders { result.leaders.now ≡ self.now.buckets.heads.leaders.now }
        ensures opens { result.opens.now ≡ self.now.opens.now }
    {
        Opens {
            leaders: self.buckets.heads.leaders,
            opens: self.opens,
        }
    }
}

// What those lines are written by: with the offset and the tag of each clause.
#[derive(Clone, Copy)]
pub struct NewLines<'a> {
    pub rooms: LineRooms<'a>,
    pub offs: &'a [u32],
    pub tags: &'a [u8],
    pub ghost offs_len: { length offs.now ≡ length rooms.buckets.heads.leaders.now },
    pub ghost tags_len: { length tags.now ≡ length rooms.buckets.heads.leaders.now },
}

// All columns of a line at its switch's argument: what the switch and its new lines are written by.
#[derive(Clone, Copy)]
pub struct Columns<'a> {
    pub lines: NewLines<'a>,
    pub bits: &'a [u64],
    pub ghost bits_len: { length bits.now ≡ length lines.rooms.buckets.heads.leaders.now },
}
