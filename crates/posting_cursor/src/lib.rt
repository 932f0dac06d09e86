// A cursor on a list of postings (document 01's walker), which goes forward. The step is `first_at_least`; the functions over the cursor are
// thin, and hand on what it answers.
#![tactic(auto)]

ghost use Rattle.std.specs.Prelude.{◌≡◌};
ghost use Rattle.index.specs.Forward.{forward, step};
ghost use Rattle.posting_cursor.specs.Cursor.{stepped, forwarded};

use index::{Step, first_at_least};

#[derive(Clone, Copy, Debug, PartialEq, Eq)]
pub struct PostingCursor<'a> {
    pub list: &'a [u32],
    pub position: usize,
}

// A cursor at the list's start.
pub fn new<'a>(list: &'a [u32]) -> PostingCursor<'a>
    ensures { (result.list ≡ list.entry) × (result.position ≡ 0) }
{
    PostingCursor { list, position: 0 }
}

// The step from a cursor to the first posting whose device is at least `device`: where it lands, and how many postings it passes over. The cursor
// is passed by value: the caller's stays where it is.
pub fn seek<'a>(cursor: PostingCursor<'a>, device: u32) -> Step
    ensures { result ≡ stepped cursor.entry device }
{
    first_at_least(cursor.list, cursor.position, device)
}

impl<'a> PostingCursor<'a> {
    // The same of a cursor that is lent. Where the step lands is its position now.
    pub fn seek(&mut self, device: u32) -> Step
        ensures { (self.new ≡ forwarded self.old device) × (result ≡ stepped self.old device) }
    {
        let step = first_at_least(self.list, self.position, device);
        self.position = step.at;
        step
    }
}

// The same of a list and a position.
pub fn seek_from(list: &[u32], position: usize, device: u32) -> Step
    ensures { result ≡ step list.now position device }
{
    seek(PostingCursor { list, position }, device)
}

// A cursor at the start, moved forward to two devices in turn, by the method: the second step.
pub fn seek_twice(list: &[u32], first: u32, second: u32) -> Step
    ensures { result ≡ step list.now (forward list.now 0 first) second }
{
    let mut cursor = new(list);
    cursor.seek(first);
    cursor.seek(second)
}
