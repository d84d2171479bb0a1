// Exercises the queue by pseudo-random operations at sizes from 1 to 4,096 cells and two widths of the plan, and prints a digest of what it answers.
// The expected output comes from compare/queue_trial.py, which knows nothing of heaps.
#![tactic(auto)]

ghost use Rattle.std.specs.Prelude.{◌≡◌, ◌+◌, ◌<◌, ◌≤◌, get_or, length};
ghost use Rattle.queue.specs.Queue.{absent, most};
ghost use Rattle.queue.specs.Rules.{Lengths};
ghost use Rattle.queue.specs.Lent.{SameTables, HeapIn};

use queue::{ABSENT, Queue};
use std::io;

// The width of the plan and the size of each trial: small sizes, both sides of a full level of the heap, and the largest plan, all in the greatest width, and a last one in another.
const TRIALS: [(usize, usize); 13] = [
    (64, 1),
    (64, 2),
    (64, 3),
    (64, 4),
    (64, 5),
    (64, 7),
    (64, 8),
    (64, 63),
    (64, 64),
    (64, 1000),
    (64, 4095),
    (64, 4096),
    (7, 1000),
];

// The next number of the generator.
fn next(x: usize) -> usize {
    (x % 65537 * 75 + 74) % 65537
}

// The digest with one number more.
fn fold(digest: usize, x: usize) -> usize {
    (digest % 1000003 * 31 + x % 1000003 + 1) % 1000003
}

// The digest with a cell, its two key numbers and whether it is queued.
fn fold_cell(queue: &Queue, cell: usize, digest: usize) -> usize
    requires heap { HeapIn queue.now }
    requires cell_in_bounds { cell < length queue.now.list.now }
{
    let keyed = fold(
        fold(fold(digest, cell), queue.k1[cell] as usize),
        queue.k2[cell] as usize,
    );
    fold(keyed, usize::from(queue.place[cell] != ABSENT))
}

// The least cell of a queue that has one.
fn least_of(queue: &Queue) -> usize
    requires heap { HeapIn queue.now }
    requires count_nonzero { 0 < queue.now.count }
    ensures in_bounds { result < length queue.now.list.now }
    ensures queued { get_or queue.now.place.now result 0 ≡ absent → ⊥ }
{
    queue::least(&*queue.list)
}

// The digest with what can be seen after an operation on `cell`: the count, the cell, and the least.
fn fold_queue(queue: &Queue, cell: usize, digest: usize) -> usize
    requires heap { HeapIn queue.now }
    requires cell_in_bounds { cell < length queue.now.list.now }
{
    let seen = fold_cell(queue, cell, fold(digest, queue.count));
    if queue.count == 0 {
        return seen;
    }
    fold_cell(queue, least_of(queue), seen)
}

// Takes out the least cell.
fn take_least(queue: &mut Queue)
    requires heap { HeapIn queue.old }
    requires count_nonzero { 0 < queue.old.count }
    ensures same_tables { SameTables queue.old queue.new }
    ensures heap_after { HeapIn queue.new }
    ensures list_len { length queue.new.list.now ≡ length queue.old.list.now }
    ensures count { queue.new.count + 1 ≡ queue.old.count }
{
    let cell = least_of(queue);
    queue.take_out(cell);
}

// One operation, as the number y says: an absent cell is put in; of a queued one, it or the least is taken out, or it is put under another key.
// Few different keys, so that ties are many, over the whole range of key numbers.
fn operate(queue: &mut Queue, cell: usize, y: usize)
    requires heap { HeapIn queue.old }
    requires cell_in_bounds { cell < length queue.old.list.now }
    ensures same_tables { SameTables queue.old queue.new }
    ensures heap_after { HeapIn queue.new }
    ensures list_len { length queue.new.list.now ≡ length queue.old.list.now }
{
    let first = (y / 4 % 7 * 700000000) as u32;
    let second = (y / 28 % 3) as u32;
    if queue.place[cell] == ABSENT {
        queue.put_in(cell, first, second);
    } else {
        match y % 4 {
            0 => queue.take_out(cell),
            1 => take_least(queue),
            _ => queue.put_under(cell, first, second),
        }
    }
}

// Empties the queue, least first, and returns the digest with every cell as it leaves.
fn drain(queue: &mut Queue, seen: usize) -> usize
    requires { HeapIn queue.old }
{
    let mut digest = seen;
    while 0 < queue.count {
        let least = least_of(queue);
        digest = fold_queue(queue, least, digest);
        take_least(queue);
    }
    digest
}

// Operates on the empty queue, drains what is left, and prints the trial's line. Each cell has its turn first, so that the queue is full once, and then the numbers say which.
fn exercise(rt: &impl Print, queue: &mut Queue) -> io::Result<()>
    requires heap { HeapIn queue.old }
    requires empty { queue.old.count ≡ 0 }
    requires list_nonzero { 0 < length queue.old.list.now }
{
    let width = queue.width;
    let size = queue.list.len();
    let turns = size + 3000;
    let mut x = size;
    let mut digest = 0;
    for turn in 0..turns {
        x = next(x);
        let cell = if turn < size { turn } else { x % size };
        x = next(x);
        operate(queue, cell, x);
        digest = fold_queue(queue, cell, digest);
    }
    let left = queue.count;
    digest = drain(queue, digest);
    println!(rt; "width {width}, size {size}: {turns} operations, {left} left, digest {digest}")
}

// Empties the queue, whatever its tables hold.
fn clear(queue: &mut Queue)
    requires width_nonzero { 0 < queue.old.width }
    requires lengths { Lengths (length queue.old.list.now) queue.old.k1.now queue.old.k2.now queue.old.place.now queue.old.list.now }
    requires list_len_bound { length queue.old.list.now ≤ most }
    ensures same_tables { SameTables queue.old queue.new }
    ensures list_len { length queue.new.list.now ≡ length queue.old.list.now }
    ensures heap_after { HeapIn queue.new }
    ensures count { queue.new.count ≡ 0 }
{
    queue.k1.fill(0);
    queue.k2.fill(0);
    queue.place.fill(ABSENT);
    queue.list.fill(ABSENT);
    queue.count = 0;
}

// Owns the tables of the largest plan, and lends their first part to the queue of each trial, which is cleared first.
fn main(rt: HostRuntime) -> io::Result<()> {
    let mut k1 = [0u32; 4096];
    let mut k2 = [0u32; 4096];
    let mut place = [0u16; 4096];
    let mut list = [0u16; 4096];
    for (width, size) in TRIALS {
        let mut queue = Queue {
            width,
            k1: &mut k1[..size],
            k2: &mut k2[..size],
            place: &mut place[..size],
            list: &mut list[..size],
            count: 0,
        };
        clear(&mut queue);
        exercise(&rt, &mut queue)?;
    }
    Ok(())
}
