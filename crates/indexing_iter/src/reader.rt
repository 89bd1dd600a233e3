// Code with the table by which its records are read.
ghost use Rattle.std.specs.Prelude.{◌≡◌, length};

// The class of each opcode, and code.
#[derive(Clone, Copy)]
pub struct Reader<'a> {
    pub table: &'a [u8],
    pub code: &'a [u8],
    pub ghost table_len: { length table.now ≡ 256 },
}
