// The records of a section: where they lie in the table, and their bytes as they stand, without the count.
#![tactic(auto)]

ghost use Rattle.std.specs.Prelude.{◌≡◌, ◌+◌, ◌≤◌, ◌<◌, get_or};
ghost use Rattle.model.specs.Format.{record_sizes};
ghost use Rattle.model.specs.Raw.{count_place};
ghost use Rattle.reader.specs.Parts.{part_at, next_count, section_part, section_bytes};

use words::bytes::read2;

// A part of the table: the bytes from `from` up to, and without, `to`.
#[derive(Clone, Copy)]
pub struct Part {
    pub from: usize,
    pub to: usize,
}

// The records after the count at `at`, each of `size` bytes.
pub fn part_at(table: &[u8], at: usize, size: usize) -> Part
    requires { (at < 4294967296) × (size ≤ 20) }
    ensures { result ≡ part_at table.now at size }
{
    let count = usize::from(read2(table, at));
    let from = at + 2;
    let to = from + count * size;
    Part { from, to }
}

// Document 01's reader, which holds the lent table and its place and walks it. The place is that of a section's count.
#[derive(Clone, Copy)]
pub struct Reader<'a> {
    pub table: &'a [u8],
    pub at: usize,
}

pub fn reader_at<'a>(table: &'a [u8], at: usize) -> Reader<'a>
    ensures { (result.table ≡ table.entry) × (result.at ≡ at) }
{
    Reader { table, at }
}

impl<'a> Reader<'a> {
    // The records of the section at the reader's place, each of `size` bytes.
    pub fn records(self, size: usize) -> Part
        requires { (self.at < 4294967296) × (size ≤ 20) }
        ensures { result ≡ part_at self.entry.table.now self.entry.at size }
    {
        part_at(self.table, self.at, size)
    }

    // The reader at the next count, which stands after those records.
    pub fn next(self, size: usize) -> Reader<'a>
        requires { (self.at < 4294967296) × (size ≤ 20) }
        ensures { result ≡ next_count self.entry size }
    {
        let p = part_at(self.table, self.at, size);
        Reader {
            table: self.table,
            at: p.to,
        }
    }
}

// The bytes of a record of section k + 1; 0 where there is no such section.
pub fn record_size(k: u32) -> usize
    ensures { (result ≡ get_or record_sizes k 0) × (result ≤ 20) }
{
    let sizes: [usize; 10] = [11, 8, 17, 4, 1, 3, 17, 13, 3, 20];
    sizes.get(k as usize).copied().unwrap_or(0)
}

// The records of section k + 1: a reader walks from count to count, and is asked at the last.
pub fn records_of(table: &[u8], k: u32) -> Part
    requires { (k < 10) × (count_place table.now 10 < 4294967296) }
    ensures { result ≡ section_part table.now (k + 1) }
{
    let mut reader = reader_at(table, 0);
    for i in 0..k {
        reader = reader.next(record_size(i));
    }
    reader.records(record_size(k))
}

// The records of section 1 to 10; for another number the part is empty.
pub fn section_part(table: &[u8], number: u32) -> Part
    ensures { result ≡ section_part table.now number }
{
    match number {
        1..=10 => records_of(table, number - 1),
        _ => Part { from: 0, to: 0 },
    }
}

// The bytes of section 1 to 10 as they stand in the table; none where its records run past the table's end, or for another number.
pub fn section_bytes(table: &[u8], number: u32) -> &[u8]
    ensures { result.now ≡ section_bytes table.now number }
{
    let p = section_part(table, number);
    if p.to <= table.len() {
        &table[p.from..p.to]
    } else {
        &table[0..0]
    }
}
