// The first n entries of a table, or all of it where it has fewer; and writing into the first n bytes of a buffer.
use index::IndexTables;
use plant::DeviceTables;
use refusal::Refusal;

pub fn front<T>(table: &[T], n: usize) -> &[T] {
    &table[..n.min(table.len())]
}

pub fn write_front(
    out: &mut [u8],
    n: usize,
    plant: DeviceTables,
    index: IndexTables,
) -> Result<usize, Refusal> {
    let to = n.min(out.len());
    plant_writer::write(plant, index, &mut out[..to])
}
