// The list of a term, a part of the postings; where lists start; a table cleared behind them.
ghost use Rattle.std.specs.Prelude.{◌≡◌, [], ◌++◌, ◌-◌, length, get_or, take, replicate, unwrap_or, ◌≤◌, IfSome};
ghost use Rattle.std.proofs.Math.Seq.{slice};
ghost use Rattle.index.specs.Index.{index, list};
ghost use Rattle.index.specs.Tables.{index_of};
ghost use Rattle.index.specs.Lookup.{Numbered, Looked};

// The tables of an index that a caller lends: its terms, where the list of each starts, and the postings.
#[derive(Clone, Copy, Debug, PartialEq, Eq)]
pub struct IndexTables<'a> {
    pub terms: &'a [u16],
    pub starts: &'a [u32],
    pub postings: &'a [u32],
}

impl<'a> IndexTables<'a> {
    // The list of `term`: a part of the postings, which is empty where the term is absent.
    pub fn list_of(self, term: u32) -> &'a [u32]
        ensures { Looked (index_of self.entry) term result.now }
    {
        list_of(self.terms, self.starts, self.postings, term)
    }

    // The k-th list, counted from 1: it ends where the next starts, or at the end of the postings.
    pub fn list_at(self, k: usize) -> &'a [u32]
        ensures { result.now ≡ list (index_of self.entry) k }
    {
        list_at(self.starts, self.postings, k)
    }
}

// The same of tables one by one, of which the postings alone have to live as long as the list.
pub fn list_of<'a>(terms: &[u16], starts: &[u32], postings: &'a [u32], term: u32) -> &'a [u32]
    ensures { Looked (index terms.now starts.now postings.now) term result.now }
{
    match number_of(terms, term) {
        None => &postings[..0],
        Some(number) => list_at(starts, postings, number),
    }
}

// The k-th list, the same way.
pub fn list_at<'a>(starts: &[u32], postings: &'a [u32], k: usize) -> &'a [u32]
    ensures { result.now ≡ list (index [] starts.now postings.now) k }
{
    let start = start_at(starts, k.saturating_sub(1), 0);
    let end = start_at(starts, k, postings.len());
    part(postings, start, end)
}

// The number of `term` among the terms, from 1 on.
pub fn number_of(terms: &[u16], term: u32) -> Option<usize>
    ensures numbered { Numbered terms.now term (unwrap_or result 0) }
    ensures from_1 { IfSome result (λ number. 1 ≤ number) }
{
    match terms.binary_search_by(|&t| u32::from(t).cmp(&term)) {
        Ok(i) => Some(i + 1),
        Err(_) => None,
    }
}

// The start at index i, or `none` past the last one.
pub fn start_at(starts: &[u32], i: usize, none: usize) -> usize
    ensures { result ≡ get_or starts.now i none }
{
    starts.get(i).map_or(none, |&start| start as usize)
}

// The part of a table from `start` up to `end`, as far as the table goes.
fn part(table: &[u32], start: usize, end: usize) -> &[u32]
    ensures { result.now ≡ slice start end table.now }
{
    let to = end.min(table.len());
    let from = start.min(to);
    &table[from..to]
}

// Sets the entries from index `from` on to 0.
pub fn clear(table: &mut [u32], from: usize)
    ensures { table.new ≡ take from table.old ++ replicate (length table.old - from) 0 }
{
    fill_from(table, from, 0);
}

// Sets the entries from index `from` on to `value`.
pub fn fill_from<T: Copy>(table: &mut [T], from: usize, value: T)
    ensures { table.new ≡ take from table.old ++ replicate (length table.old - from) value }
{
    let from = from.min(table.len());
    for entry in &mut table[from..] {
        *entry = value;
    }
}
