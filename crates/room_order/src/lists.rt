// Writing the jobs by their room into a lent list.
ghost use Rattle.std.specs.Prelude.{◌≡◌, ℕ, ◌*◌, ◌^◌, ◌<◌, ◌≤◌, length, get_or};
ghost use Rattle.model.specs.Limits.{max_jobs};
ghost use Rattle.spans.specs.SpanAnswers.{listed};
ghost use Rattle.room_order.specs.RoomOrder.{room_list};
ghost use Rattle.room_order.specs.Ordered.{room_in, OrderedIn};

use crate::order::order_jobs;
use model::MAX_JOBS;

// Writes, for each job, its number and its room into a lent list, the smallest room first, ties by job number.
pub fn list_rooms(rooms: &[u64; MAX_JOBS], count: usize, list: &mut [u32])
    requires { (count ≤ max_jobs) × (2 * count ≤ length list.old) × ((j : ℕ) → j < count → get_or rooms.now j 0 < 2 ^ 32) }
    ensures { list.new ≡ listed (room_list (room_in rooms.now) count) list.old }
{
    let mut order = [0; MAX_JOBS];
    order_jobs(rooms, count, &mut order);
    write_rooms(rooms, &order, count, list);
}

// Writes the jobs of an order, each with its room.
fn write_rooms(rooms: &[u64; MAX_JOBS], order: &[u8; MAX_JOBS], count: usize, list: &mut [u32])
    requires count_le_max_jobs { (count ≤ max_jobs) × (2 * count ≤ length list.old) × ((j : ℕ) → j < count → get_or rooms.now j 0 < 2 ^ 32) }
    requires ordered_in { OrderedIn rooms.now count order.now }
    ensures { list.new ≡ listed (room_list (room_in rooms.now) count) list.old }
{
    for (place, job) in order[..count].iter().enumerate() {
        list[2 * place] = *job as u32;
        list[2 * place + 1] = rooms[*job as usize] as u32;
    }
}
