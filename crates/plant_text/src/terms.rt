// The readers of terms and postings.
ghost use Rattle.std.specs.Prelude.{◌≡◌, true, ◌||◌, ◌*◌, ◌%◌, ◌<◌, ◌≤◌, leb, ltb, eqb, length, take, MatchResult};
ghost use Rattle.std.proofs.Math.Seq.{slice};
ghost use Rattle.laws.specs.Limits.{most_devices, highest_term};
ghost use Rattle.laws.specs.Rows.{pick};
ghost use Rattle.laws.specs.Tables.{entry};
ghost use Rattle.laws.specs.inner.Entries.{IsEntry};
ghost use Rattle.index.specs.Postings.{device, posting};
ghost use Rattle.index.specs.Index.{index, most_postings};
ghost use Rattle.index.specs.inner.Lists.{SoundList};
ghost use Rattle.plant_text.specs.Form.{is_posting};
ghost use Rattle.plant_text.specs.inner.Rest.{Taken};
ghost use Rattle.plant_text.specs.inner.Terms.{newest, Adds, Bars, PostsStart, PostsRead, OpensTerm, BarsTerm, TermsRead, TermsStart};

use crate::Room;
use crate::lines::{ALL, CLOSE, Place, TERM, check_kind, is_posting, line_at, posting_at};
use refusal::Refusal;
use text::{Form, Refused};

// The last device that a shared posting q carries its term to, or 0 for another. Whether it is shared is a bit that a processor cannot guess, so
// the table is read for both, and the bit multiplied.
fn reach_of(last: &[u16], q: u32) -> u32
    requires { IsEntry last.now (device q) }
    ensures { result ≡ (q % 2) * entry last.now (device q) }
{
    let i = (q / 2 - 1) as usize;
    (q % 2) * u32::from(last[i])
}

// The posting for device d.
fn posting_for(d: u64, shared: bool) -> u32
    requires { d ≤ most_devices }
    ensures { result ≡ posting d shared }
{
    2 * d as u32 + u32::from(shared)
}

// Refuses a posting for device d at a place, in a plant of `count` devices, after the postings of `list`.
fn check_posting(
    room: Room,
    d: u64,
    count: usize,
    place: Place,
    list: &[u32],
    last: &[u16],
) -> Result<(), Refused>
    requires { 0 < length list.now → IsEntry last.now (device (newest list.now)) }
    ensures { Taken (pick (eqb d 0 || ltb count d) 22
        (pick (leb room.postings place.count) 27
        (pick (leb d (device (newest list.now))) 28
        (pick (leb d ((newest list.now % 2) * entry last.now (device (newest list.now)))) 29 0)))) place.line result }
{
    let line = place.line;
    if d == 0 || (count as u64) < d {
        return Err(Refused {
            line,
            refusal: Refusal::NumberOutOfRange,
        });
    }
    if room.postings <= place.count {
        return Err(Refused {
            line,
            refusal: Refusal::NoPlace,
        });
    }
    let Some(&q) = list.last() else {
        return Ok(());
    };
    if d <= u64::from(q / 2) {
        return Err(Refused {
            line,
            refusal: Refusal::NotRising,
        });
    }
    if d <= u64::from(reach_of(last, q)) {
        return Err(Refused {
            line,
            refusal: Refusal::Redundant,
        });
    }
    Ok(())
}

// Adds the posting of a place, for device d, to the list that starts at `begin`, from a line of a kind.
fn add_posting(
    room: Room,
    kind: u32,
    d: u64,
    count: usize,
    begin: usize,
    place: Place,
    last: &[u16],
    postings: &mut [u32],
) -> Result<(), Refused>
    requires kind_is_posting { is_posting kind ≡ true }
    requires counts_fit { (count ≤ length last.now) × (count ≤ most_devices) × (begin ≤ place.count) × (place.count ≤ room.postings) × (room.postings ≤ length postings.old) }
    requires sound_list { SoundList (take count last.now) (slice begin place.count postings.old) }
    ensures { MatchResult result
        (λ _. Adds room last.now postings.old count begin place.count kind d postings.new)
        (Bars room last.now postings.old count begin place.count kind d place.line) }
{
    let n = place.count;
    check_posting(room, d, count, place, &postings[begin..n], last)?;
    postings[n] = posting_for(d, kind == ALL);
    Ok(())
}

// Reads a term's postings from a place on, up to its end. Its first is the place's next.
fn read_postings(
    text: &[u8],
    room: Room,
    place: Place,
    count: usize,
    last: &[u16],
    postings: &mut [u32],
) -> Result<Place, Refused>
    requires { PostsStart room text.now last.now postings.old count place }
    ensures { PostsRead room text.now last.now postings.old place count postings.new result }
{
    let begin = place.count;
    let mut p = place;
    // a round goes past a line, of any number of bytes
    loop {
        let found = posting_at(text, p.at);
        let Form { number, kind, .. } = found.form;
        let at = found.next;
        let line = p.line + 1;
        if !is_posting(kind) {
            check_kind(CLOSE, kind, p.line)?;
            return Ok(Place { at, line, ..p });
        }
        add_posting(room, kind, number, count, begin, p, last, postings)?;
        p = Place {
            at,
            count: p.count + 1,
            line,
        };
    }
}

// Refuses a term of number v at a place, after the terms of `list`.
fn check_term(room: Room, v: u64, place: Place, list: &[u16]) -> Result<(), Refused>
    ensures { Taken (pick (eqb v 0 || ltb highest_term v) 22
        (pick (leb room.terms (length list.now)) 27
        (pick (leb v (newest list.now)) 28 0))) place.line result }
{
    let line = place.line;
    let rises = list.last().is_none_or(|&newest| u64::from(newest) < v);
    if v == 0 || 65_535 < v {
        return Err(Refused {
            line,
            refusal: Refusal::NumberOutOfRange,
        });
    }
    if room.terms <= list.len() {
        return Err(Refused {
            line,
            refusal: Refusal::NoPlace,
        });
    }
    if !rises {
        return Err(Refused {
            line,
            refusal: Refusal::NotRising,
        });
    }
    Ok(())
}

// Opens term n + 1, of number v, at a place.
fn open_term(
    room: Room,
    v: u64,
    n: usize,
    place: Place,
    terms: &mut [u16],
    starts: &mut [u32],
) -> Result<(), Refused>
    requires { (n ≤ room.terms) × (room.terms ≤ length terms.old) × (room.terms ≤ length starts.old) × (place.count ≤ most_postings) }
    ensures { MatchResult result
        (λ _. OpensTerm room terms.old starts.old n place.count v terms.new starts.new)
        (BarsTerm room terms.old starts.old n place.count v place.line) }
{
    check_term(room, v, place, &terms[..n])?;
    terms[n] = v as u16;
    starts[n] = place.count as u32;
    Ok(())
}

// Reads terms from a line of a form on, after which reading goes on at a place, to the end of the plant. Returns how many they are, and where what
// follows begins, with the count of postings.
pub fn read_terms(
    text: &[u8],
    room: Room,
    form: Form,
    place: Place,
    last: &[u16],
    terms: &mut [u16],
    starts: &mut [u32],
    postings: &mut [u32],
) -> Result<(usize, Place), Refused>
    requires { TermsStart room text.now last.now
        (index terms.old starts.old postings.old)
        form place }
    ensures reads { TermsRead room text.now last.now
        (index terms.old starts.old postings.old)
        form place
        (index terms.new starts.new postings.new)
        result }
{
    let count = place.count;
    let mut f = form;
    let mut n: usize = 0;
    let mut p = Place { count: 0, ..place };
    // a round goes past a term, of any number of lines
    while f.kind == TERM {
        open_term(room, f.number, n, p, terms, starts)?;
        let after = Place {
            line: p.line + 1,
            ..p
        };
        let end = read_postings(text, room, after, count, last, postings)?;
        let found = line_at(text, end.at);
        f = found.form;
        n += 1;
        p = Place {
            at: found.next,
            ..end
        };
    }
    check_kind(CLOSE, f.kind, p.line)?;
    let after = Place {
        line: p.line + 1,
        ..p
    };
    Ok((n, after))
}
