// Working room that is always enough for a fill, so that no caller has to guess it.
#![tactic(auto)]

ghost use Rattle.std.specs.Prelude.{◌≡◌, ◌≤◌, Ok};
ghost use Rattle.fillroom.specs.Room.{said_room, room_for, room_of};

use finding::gate::gate;
use refusal::Refusal;
use rules::Settings;

// How many floats and whole numbers are enough.
#[derive(Clone, Copy)]
pub struct Room {
    pub floats: u64,
    pub wholes: u64,
}

// In each row at most half as many pieces as there are corners.
#[tactic(auto, using(crate::specs::RoomLaws::few_pieces), unfolding(crate::specs::Room::room_for))]
fn room_for(corners: usize, rows: usize) -> Room
    requires { (corners ≤ 1024) × (rows ≤ 4096) }
    ensures { said_room (Ok result) ≡ room_for corners rows }
{
    let pieces = corners / 2 * rows;
    Room {
        floats: (6 * corners + 4 * pieces) as u64,
        wholes: (4 * corners + 6 * pieces) as u64,
    }
}

pub fn fill_room(
    corners: &[f64],
    ends: &[usize],
    g: Settings,
    stagger: u64,
) -> Result<Room, Refusal>
    ensures { said_room result ≡ room_of corners.now ends.now g stagger }
{
    let rows = gate(corners, ends, g, stagger)?;
    Ok(room_for(corners.len() / 2, rows.n))
}
