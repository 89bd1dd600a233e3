// The key reader: opcode classes, the keys of a clause, and the checks of code and starts, numbers 1 to 8.
// Port of scryer-prolog's indexing_iter.rs: extract_index_arg, collect_opt_arg_index_keys, IndexedClauseView.
// A u32 becomes a usize by `as`: there is no From for it. Each is proved to fit.
#![tactic(auto)]

pub mod checks;
pub mod clause_view;
pub mod clauses;
pub mod flags;
pub mod group;
pub mod program;
pub mod reader;
pub mod refusal;

ghost use Rattle.std.specs.Prelude.{◌≡◌, true, ◌≤◌, ◌<◌, length, drop, get_or, replicate, map, ◌++◌};
ghost use Rattle.std.proofs.Math.Seq.{slice};
ghost use Rattle.records.specs.Records.{records_of, zero_rec};
ghost use Rattle.indexing_iter.specs.Classes.{class_of, key_of_class, arg_of_class, instruction_arg};
ghost use Rattle.indexing_iter.specs.Keys.{sort_of, arity_of, bits_of, group_of, is_open, same, key_in};
ghost use Rattle.indexing_iter.specs.Refusals.{passed};
ghost use Rattle.indexing_iter.specs.Groups.{group_code};
ghost use Rattle.indexing_iter.specs.Clauses.{key_of, known};
ghost use Rattle.indexing_iter.specs.Readings.{class_by, keys_by};
ghost use Rattle.indexing_iter.specs.Rows.{head_by, head_of, same_bits, keys_of};
ghost use Rattle.indexing_iter.specs.Checks.{check_code};

use group::Group;
use program::Program;
use reader::Reader;
use records::Rec;
use refusal::Refusal;

// What indexing knows of one argument of a clause, or of a call.
// None stays a case of its own, and no Option of a key: document 01 names the four cases.
#[derive(Clone, Copy, Debug, PartialEq, Eq)]
pub enum OptArgIndexKey {
    None,
    Literal(u16, u64),
    Structure(u16, u64),
    List,
}

// What one code record says: a register together with its key, or that there is none.
#[derive(Clone, Copy, Debug, PartialEq, Eq)]
pub enum InstructionArg {
    ArgedHead(u32, OptArgIndexKey),
    ArglessHead,
    NonHead,
    Prologue,
}

// The clause and the record of the code first at fault, both counted from 0.
#[derive(Clone, Copy, Debug, PartialEq, Eq)]
pub struct Place {
    pub clause: usize,
    pub at: usize,
}

// What refuses code, and where: the refusal, and with 5 to 8 the place; code and starts that are refused as a whole have none.
#[derive(Clone, Copy, Debug, PartialEq, Eq)]
pub struct Fault {
    pub refusal: Refusal,
    pub place: Option<Place>,
}

// The settings of a predicate, passed by value on each call.
#[derive(Clone, Copy, Debug, PartialEq, Eq)]
pub struct Settings {
    pub arity: u32,
    pub mask: u32,
    pub dynamic: bool,
    pub extensible: bool,
    pub non_counted: bool,
    pub skip: bool,
}

// The class of each opcode: 1 prologue, 2 argless head, 3 GetStructure, 4 GetList, 5 GetConstant, 6 GetPartialString, 0 body.
// A class stays a number: a caller may hand in a table with any byte in it, and the public functions answer for any number, so an enum would ask more.
const CLASS: [u8; 256] = [
    1, 1, 1, 1, 1, 1, 1, 1, 1, 1, 0, 0, 0, 0, 0, 0, 3, 4, 5, 6, 0, 0, 0, 0, 0, 0, 0, 0, 0, 0, 0, 0,
    2, 2, 2, 2, 2, 2, 2, 0, 0, 0, 0, 0, 0, 0, 0, 0, 0, 0, 0, 0, 0, 0, 0, 0, 0, 0, 0, 0, 0, 0, 0, 0,
    0, 0, 0, 0, 0, 0, 0, 0, 0, 0, 0, 0, 0, 0, 0, 0, 0, 0, 0, 0, 0, 0, 0, 0, 0, 0, 0, 0, 0, 0, 0, 0,
    0, 0, 0, 0, 0, 0, 0, 0, 0, 0, 0, 0, 0, 0, 0, 0, 0, 0, 0, 0, 0, 0, 0, 0, 0, 0, 0, 0, 0, 0, 0, 0,
    0, 0, 0, 0, 0, 0, 0, 0, 0, 0, 0, 0, 0, 0, 0, 0, 0, 0, 0, 0, 0, 0, 0, 0, 0, 0, 0, 0, 0, 0, 0, 0,
    0, 0, 0, 0, 0, 0, 0, 0, 0, 0, 0, 0, 0, 0, 0, 0, 0, 0, 0, 0, 0, 0, 0, 0, 0, 0, 0, 0, 0, 0, 0, 0,
    0, 0, 0, 0, 0, 0, 0, 0, 0, 0, 0, 0, 0, 0, 0, 0, 0, 0, 0, 0, 0, 0, 0, 0, 0, 0, 0, 0, 0, 0, 0, 0,
    0, 0, 0, 0, 0, 0, 0, 0, 0, 0, 0, 0, 0, 0, 0, 0, 0, 0, 0, 0, 0, 0, 0, 0, 0, 0, 0, 0, 0, 0, 0, 0,
];

// The table, for a caller that looks up many opcodes: the constant is then written out once.
pub fn classes() -> [u8; 256]
    ensures { class_of ≡ (λ op. get_or result op 0) }
{
    CLASS
}

// The class of an opcode by a table of classes, a number as its bytes are.
pub fn class_in(table: &[u8], op: u8) -> u8
    requires { length table.now ≡ 256 }
    ensures { result ≡ get_or table.now op 0 }
{
    table[usize::from(op)]
}

// A key's sort: 1 atom, 2 integer, 3 float, 4 structure, 5 list, 0 none. In calls and entries it stands in a record's sub, in code a literal's stands in half
// (document 01, section 2; see key_of_class): any number of half may stand there, and so it is a u16 and no enum.
pub fn sort_of(k: OptArgIndexKey) -> u16
    ensures { result ≡ sort_of k }
{
    match k {
        OptArgIndexKey::None => 0,
        OptArgIndexKey::Literal(s, _) => s,
        OptArgIndexKey::Structure(_, _) => 4,
        OptArgIndexKey::List => 5,
    }
}

pub fn arity_of(k: OptArgIndexKey) -> u16
    ensures { result ≡ arity_of k }
{
    match k {
        OptArgIndexKey::Structure(n, _) => n,
        OptArgIndexKey::None | OptArgIndexKey::Literal(_, _) | OptArgIndexKey::List => 0,
    }
}

pub fn bits_of(k: OptArgIndexKey) -> u64
    ensures { result ≡ bits_of k }
{
    match k {
        OptArgIndexKey::Literal(_, bits) | OptArgIndexKey::Structure(_, bits) => bits,
        OptArgIndexKey::None | OptArgIndexKey::List => 0,
    }
}

// The group of a switch that a key belongs to.
pub fn group_of(k: OptArgIndexKey) -> Option<Group>
    ensures { group_code result ≡ group_of k }
{
    match k {
        OptArgIndexKey::None => None,
        OptArgIndexKey::Literal(_, _) => Some(Group::Literals),
        OptArgIndexKey::Structure(_, _) => Some(Group::Structures),
        OptArgIndexKey::List => Some(Group::List),
    }
}

pub fn is_open(k: OptArgIndexKey) -> bool
    ensures { result ≡ is_open k }
{
    matches!(k, OptArgIndexKey::None)
}

// A key's first number: its sort and arity in one. Its second are its bits. Columns of keys are lists of these numbers, in fixed memory.
pub fn head_by(sort: u16, arity: u16) -> u32
    ensures { (result ≡ head_by sort arity) × (arity < 65536) }
{
    u32::from(sort) * 65536 + u32::from(arity)
}

pub fn head_of(k: OptArgIndexKey) -> u32
    ensures { (result ≡ head_of k) × (arity_of k < 65536) }
{
    head_by(sort_of(k), arity_of(k))
}

// Whether two keys, each by its two numbers, are equal. Keys are compared by this function, wherever they stand.
// Head and bits are no struct: the public functions same_bits and bucket_of take them as two numbers.
pub fn same_bits(head: u32, bits: u64, head2: u32, bits2: u64) -> bool
    ensures { result ≡ same_bits head bits head2 bits2 }
{
    head == head2 && bits == bits2
}

// Whether two keys are equal: sort, arity and bits are. The case tells a literal of any sort from the other keys. No derived `==`: document 01 asks for
// one comparison of key bits, which is that of same_bits. A match on the case and not group_of: with it a walk took 1 to 5 % more instructions.
pub fn same_key(a: OptArgIndexKey, b: OptArgIndexKey) -> bool
    ensures { result ≡ same a b }
{
    match (a, b) {
        (OptArgIndexKey::Literal(_, _), OptArgIndexKey::Literal(_, _))
        | (OptArgIndexKey::Structure(_, _), OptArgIndexKey::Structure(_, _)) => {
            same_bits(head_of(a), bits_of(a), head_of(b), bits_of(b))
        }
        (OptArgIndexKey::None, OptArgIndexKey::None)
        | (OptArgIndexKey::List, OptArgIndexKey::List) => true,
        _ => false,
    }
}

// The key of a keyed record, by its class, a number (see CLASS).
fn key_of_class(class: u8, r: Rec) -> OptArgIndexKey
    ensures { result ≡ key_of_class class r }
{
    match class {
        3 => OptArgIndexKey::Structure(r.half, r.long),
        5 => OptArgIndexKey::Literal(r.half, r.long),
        _ => OptArgIndexKey::List,
    }
}

// What a record of a class, a number (see CLASS), says of an argument.
// The range is tested behind `if`: with the pattern `3..=6 if ..` LLVM tests class and sub of a record twice in the checks, and a later call took 1 to 4 %
// more instructions.
#[tactic(auto, unfolding(crate::specs::Classes::arg_of_class))]
pub fn arg_of_class(class: u8, r: Rec) -> InstructionArg
    ensures { result ≡ arg_of_class class r }
{
    match class {
        1 => InstructionArg::Prologue,
        2 => InstructionArg::ArglessHead,
        _ if matches!(class, 3..=6) && r.sub % 4 == 0 => {
            InstructionArg::ArgedHead(r.word, key_of_class(class, r))
        }
        _ => InstructionArg::NonHead,
    }
}

// What the code record at place i says of an argument, by a table of classes.
pub fn extract_index_arg(reader: &Reader, i: usize) -> InstructionArg
    requires { i < length (records_of reader.now.code.now) }
    ensures { result ≡ instruction_arg (class_by reader.now) (get_or (records_of reader.now.code.now) i zero_rec) }
{
    let r = records::get(reader.code, i);
    arg_of_class(class_in(reader.table, r.kind), r)
}

// The key at argument j that a clause's records give. A body record ends the reading. Records go by number: there is no slice of them (see checks).
// The `let .. else` stands here, in collect_keys, body_at and pass_through: document 01 names the form for key reading, and each does its own at a record.
pub fn key_by(clause: &Reader, j: u32) -> OptArgIndexKey
    ensures { result ≡ key_in (class_by clause.now) (records_of clause.now.code.now) j }
{
    for i in 0..records::capacity(clause.code) {
        let a = extract_index_arg(clause, i);
        let (InstructionArg::ArgedHead(_, _)
        | InstructionArg::ArglessHead
        | InstructionArg::Prologue) = a
        else {
            return OptArgIndexKey::None;
        };
        if let InstructionArg::ArgedHead(reg, key) = a {
            if reg == j {
                return key;
            }
        }
    }
    OptArgIndexKey::None
}

// The key at argument j that the records from start up to end give; none where start is past the end.
// It is public, and takes the code with two places as its caller has them: a slice of the code would ask more of the caller.
pub fn key_in(code: &[u8], start: usize, end: usize, j: u32) -> OptArgIndexKey
    requires { end ≤ length (records_of code.now) }
    ensures { result ≡ key_in class_of (slice start end (records_of code.now)) j }
{
    let clause = Reader {
        table: &classes(),
        code: records::part(code, start.min(end), end),
    };
    key_by(&clause, j)
}

// The key at argument j of the clause at a known offset of checked code, read through a view of the clause. A checked
// clause has a body record, so reading from its start stops before the next clause.
// That an offset is known is asked of key_of and collect_opt_arg_index_keys, and of who calls them: it is one of many numbers, another in each call.
pub fn key_of(program: &Program, offset: u32, j: u32) -> OptArgIndexKey
    requires { known program.now.starts.now offset ≡ true }
    ensures { result ≡ keys_by program.now offset j }
{
    let start = (offset - 1) as usize;
    clause_view::key_at(program.code, start, j)
}

// All keys of the clause at a known offset of checked code, by a table of classes, in one pass over its records. A body
// record ends the reading.
fn collect_keys(
    reader: &Reader,
    starts: &[u32],
    arity: u32,
    offset: u32,
    heads: &mut [u32],
    bits: &mut [u64],
)
    requires starts_value { check_code (class_by reader.now) arity reader.now.code.now starts.now ≡ passed }
    requires offset_value { known starts.now offset ≡ true }
    requires arity_in_bounds { (arity ≤ length heads.old) × (arity ≤ length bits.old) }
    ensures heads_after { heads.new ≡ map head_of (keys_of (class_by reader.now) (records_of reader.now.code.now) starts.now offset arity) ++ drop arity heads.old }
    ensures bits_after { bits.new ≡ map bits_of (keys_of (class_by reader.now) (records_of reader.now.code.now) starts.now offset arity) ++ drop arity bits.old }
{
    let n = arity as usize;
    heads[..n].fill(0);
    bits[..n].fill(0);
    let end = records::capacity(reader.code);
    for i in (offset - 1) as usize..end {
        let a = extract_index_arg(reader, i);
        let (InstructionArg::ArgedHead(_, _)
        | InstructionArg::ArglessHead
        | InstructionArg::Prologue) = a
        else {
            return;
        };
        if let InstructionArg::ArgedHead(reg, key) = a {
            let at = reg as usize - 1;
            heads[at] = head_of(key);
            bits[at] = bits_of(key);
        }
    }
}

// All keys of the clause at a known offset, argument by argument: sort and arity to heads, the bits to bits.
pub fn collect_opt_arg_index_keys(
    program: &Program,
    offset: u32,
    heads: &mut [u32],
    bits: &mut [u64],
)
    requires offset_value { known program.now.starts.now offset ≡ true }
    requires arity_in_bounds { (program.now.settings.arity ≤ length heads.old) × (program.now.settings.arity ≤ length bits.old) }
    ensures heads_after { heads.new ≡ map head_of (keys_of class_of (records_of program.now.code.now) program.now.starts.now offset program.now.settings.arity) ++ drop program.now.settings.arity heads.old }
    ensures bits_after { bits.new ≡ map bits_of (keys_of class_of (records_of program.now.code.now) program.now.starts.now offset program.now.settings.arity) ++ drop program.now.settings.arity bits.old }
{
    let reader = Reader {
        table: &classes(),
        code: program.code,
    };
    collect_keys(
        &reader,
        program.starts,
        program.settings.arity,
        offset,
        heads,
        bits,
    );
}
