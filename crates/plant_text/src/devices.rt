// The readers of devices.
ghost use Rattle.std.specs.Prelude.{◌≡◌, ◌+◌, ◌≤◌, ◌<◌, leb, ltb, length, set};
ghost use Rattle.laws.specs.Limits.{most_devices};
ghost use Rattle.laws.specs.Rows.{pick};
ghost use Rattle.plant.specs.Plant.{plant};
ghost use Rattle.plant_text.specs.PlantText.{longest_text, highest_code, most_open};
ghost use Rattle.plant_text.specs.inner.Rest.{line_after, Taken};
ghost use Rattle.plant_text.specs.inner.Devices.{opened_at, DeviceStart, DeviceRead, ListStart, ListRead};

use crate::Room;
use crate::common::close_at;
use crate::lines::{CLOSE, DEVICE, Place, check_kind, device_at};
use refusal::Refusal;
use text::{Form, Refused};

// Refuses a device of level n at a place below `depth` open ones.
fn check_device(room: Room, place: Place, depth: u32, n: u64) -> Result<(), Refused>
    ensures { Taken (pick (ltb highest_code n) 22 (pick (leb most_open depth) 23 (pick (leb room.devices place.count) 27 0))) place.line result }
{
    let Place { count, line, .. } = place;
    if 255 < n {
        return Err(Refused {
            line,
            refusal: Refusal::NumberOutOfRange,
        });
    }
    if 32 <= depth {
        return Err(Refused {
            line,
            refusal: Refusal::TooDeep,
        });
    }
    if room.devices <= count {
        return Err(Refused {
            line,
            refusal: Refusal::NoPlace,
        });
    }
    Ok(())
}

// Opens device count + 1, of level n and below the outermost device out.
fn open_device(count: usize, out: u16, n: u64, last: &mut [u16], root: &mut [u16], level: &mut [u8])
    requires { (n ≤ highest_code) × (count < length last.old) × (count < length root.old) × (count < length level.old) }
    ensures opens { plant last.new root.new level.new
        ≡ opened_at (plant last.old root.old level.old) count out n }
{
    last[count] = 0;
    root[count] = out;
    level[count] = n as u8;
}

// Closes device count + 1, whose list stopped at a closing bracket. Returns where reading goes on.
fn close_device(count: usize, stop: Place, last: &mut [u16]) -> Place
    requires { (count < length last.old) × (stop.count ≤ most_devices) × (stop.line ≤ longest_text + 1) }
    ensures last { last.new ≡ set last.old count stop.count }
    ensures after { result ≡ line_after stop stop.at }
{
    let end = stop.count;
    last[count] = end as u16;
    Place {
        line: stop.line + 1,
        ..stop
    }
}

// Reads the device of level n that opens at the line of `place`, from the line after it on.
#[cycle(device_devices)]
fn device(
    text: &[u8],
    room: Room,
    place: Place,
    depth: u32,
    top: Option<u16>,
    n: u64,
    last: &mut [u16],
    root: &mut [u16],
    level: &mut [u8],
) -> Result<Place, Refused>
    requires { DeviceStart room text.now (plant last.old root.old level.old) place }
    ensures reads { DeviceRead room text.now
        (plant last.old root.old level.old)
        n place depth top
        (plant last.new root.new level.new)
        result }
{
    check_device(room, place, depth, n)?;
    let Place { at, count, line } = place;
    let own = (count + 1) as u16;
    let out = top.unwrap_or(own);
    open_device(count, out, n, last, root, level);
    if let Some(next) = close_at(text, at) {
        last[count] = own;
        return Ok(Place {
            at: next,
            count: count + 1,
            line: line + 2,
        });
    }
    let inside = Place {
        at,
        count: count + 1,
        line: line + 1,
    };
    let (form, stop) = devices(text, room, inside, depth + 1, Some(out), last, root, level)?;
    check_kind(CLOSE, form.kind, stop.line)?;
    Ok(close_device(count, stop, last))
}

// Reads devices from a place on, below `depth` open ones, `top` the outermost. Returns the form of the line that is no device's, and where reading
// goes on after it, at its number.
#[cycle(device_devices)]
pub fn devices(
    text: &[u8],
    room: Room,
    place: Place,
    depth: u32,
    top: Option<u16>,
    last: &mut [u16],
    root: &mut [u16],
    level: &mut [u8],
) -> Result<(Form, Place), Refused>
    requires { ListStart room text.now (plant last.old root.old level.old) place }
    ensures reads { ListRead room text.now
        (plant last.old root.old level.old)
        place depth top
        (plant last.new root.new level.new)
        result }
{
    let mut p = place;
    // a round goes past a device, of any number of lines
    loop {
        let found = device_at(text, p.at);
        let Form {
            before,
            number,
            kind,
        } = found.form;
        let here = Place {
            at: found.next,
            ..p
        };
        if kind != DEVICE {
            // made anew: handed on whole, it would be read in other pieces than it was written in, and wait for them
            let stopping = Form {
                before,
                number,
                kind,
            };
            return Ok((stopping, here));
        }
        p = device(text, room, here, depth, top, number, last, root, level)?;
    }
}
