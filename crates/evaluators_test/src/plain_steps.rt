// Document 01's cursor steps, one at a time: each turn makes one move, passes one cursor, sets the position, or lists a device.
use crate::queries::{used, wants};
use crate::tables::{carries, device, last_of, level_of, list_in, reach, root_of};
use plant::DeviceTables;
use query::Query;
use std::alloc::{AllocError, Global};
use two_indexes::TwoIndexes;

// More turns than any walk here takes.
const TURNS: u32 = 100000;

// A cursor is what is left of its list, from the posting that it stands on.
#[derive(Clone, Copy)]
struct Cursor<'a> {
    left: &'a [u32],
    is_required: bool,
}

impl Cursor<'_> {
    // Whether it stands before position p, on a posting that doesn't carry to p.
    fn is_behind(self, plant: DeviceTables<'_>, p: usize) -> bool {
        match self.left {
            [first, ..] => device(*first) <= p && !carries(plant, *first, p),
            [] => false,
        }
    }

    // How many postings on a move towards p goes: to the tree of p, beyond the branch of its device, or to the next one.
    fn move_towards(self, plant: DeviceTables<'_>, p: usize) -> usize {
        let c = self.left.first().map_or(0, |&posting| device(posting));
        let root = root_of(plant, p);
        let last = last_of(plant, c);
        let sought = if c < root {
            root
        } else if last < p {
            last.saturating_add(1)
        } else {
            return 1;
        };
        let before = |posting: &&u32| device(**posting) < sought;
        self.left.iter().take_while(before).count()
    }

    // The position that it asks for where it isn't behind p: the device of a required posting, or the one after all that a
    // forbidden posting carries to.
    fn asks(self, plant: DeviceTables<'_>, p: usize) -> usize {
        match self.left {
            [] if self.is_required => plant.last.len() + 1,
            [first, ..] if self.is_required => device(*first).max(p),
            [first, ..] if carries(plant, *first, p) => reach(plant, *first).saturating_add(1),
            _ => p,
        }
    }
}

// A walk: where it is, the postings that its moves passed over, the moves, the devices that it has listed; and its cursors, with which is next.
#[derive(Drop)]
pub struct Walk<'a> {
    pub position: usize,
    pub passed: usize,
    pub moves: usize,
    pub listed: Vec<usize>,
    plant: DeviceTables<'a>,
    query: Query,
    cursors: Vec<Cursor<'a>>,
    next: usize,
}

// The cursors of a query: of its required terms, and of its forbidden ones.
fn cursors<'a>(
    alloc: Global,
    indexes: TwoIndexes<'a>,
    query: Query,
) -> Result<Vec<Cursor<'a>>, AllocError> {
    let cursor = |term: u32, is_required: bool| Cursor {
        left: list_in(indexes, term),
        is_required,
    };
    let required = used(&query.required).iter().map(|&term| cursor(term, true));
    let forbidden = used(&query.forbidden)
        .iter()
        .map(|&term| cursor(term, false));
    required.chain(forbidden).collect(alloc)
}

impl Walk<'_> {
    fn go_to(&mut self, position: usize) {
        self.position = position;
        self.next = 0;
    }

    // Lists the device at the position where the query wants its level code.
    fn list(&mut self) -> Result<(), AllocError> {
        let p = self.position;
        if wants(self.query.levels, level_of(self.plant, p)) {
            self.listed.push(p)?;
        }
        self.go_to(p.saturating_add(1));
        Ok(())
    }

    // Takes a turn. False where the walk has ended: past the last device, or where the next move would be one too many.
    fn turn(&mut self) -> Result<bool, AllocError> {
        let plant = self.plant;
        let p = self.position;
        if plant.last.len() < p {
            return Ok(false);
        }
        let Some(cursor) = self.cursors.get_mut(self.next) else {
            self.list()?;
            return Ok(true);
        };
        if cursor.is_behind(plant, p) {
            if self.query.budget as usize <= self.moves {
                return Ok(false);
            }
            let n = cursor.move_towards(plant, p);
            cursor.left = cursor.left.get(n..).unwrap_or(&[]);
            self.passed = self.passed.saturating_add(n.saturating_sub(1));
            self.moves = self.moves.saturating_add(1);
            return Ok(true);
        }
        let asked = cursor.asks(plant, p);
        if asked == p {
            self.next = self.next.saturating_add(1);
        } else {
            self.go_to(asked);
        }
        Ok(true)
    }
}

// Walks to the end of a query's run.
pub fn walk_to_end<'a>(
    alloc: Global,
    plant: DeviceTables<'a>,
    indexes: TwoIndexes<'a>,
    query: Query,
) -> Result<Walk<'a>, AllocError> {
    let mut walk = Walk {
        position: query.start as usize,
        passed: 0,
        moves: 0,
        listed: Vec::new(alloc),
        plant,
        query,
        cursors: cursors(alloc, indexes, query)?,
        next: 0,
    };
    for _ in 0..TURNS {
        if !walk.turn()? {
            break;
        }
    }
    Ok(walk)
}
